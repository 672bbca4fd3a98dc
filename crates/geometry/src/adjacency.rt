// The adjacency of a picture.
ghost use Rattle.geometry.specs.Adjacencies.{IsNamed};

use refusals::Refusal;

// Which places are neighbours: those that share a side, or those that share a side or a corner.
#[derive(Clone, Copy, PartialEq, Eq)]
pub enum Adjacency {
    Four,
    Eight,
}

impl TryFrom<u32> for Adjacency {
    type Error = Refusal;

    ghost try_from_gives = { IsNamed };

    fn try_from(number: u32) -> Result<Self, Refusal> {
        match number {
            4 => Ok(Adjacency::Four),
            8 => Ok(Adjacency::Eight),
            _ => Err(Refusal::AdjacencyUnknown),
        }
    }
}
