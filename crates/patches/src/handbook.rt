// The handbooks, which say which patch a touch belongs to.
ghost use Rattle.std.specs.Prelude.{◌≡◌, eqb};
ghost use Rattle.patches.specs.Handbooks.{handbook_number, IsNamed};

use refusals::Refusal;

// Which patch a touch on the line belongs to: none under the fourth handbook, the nearest one under the fifth.
#[derive(Clone, Copy, PartialEq, Eq)]
pub enum Handbook {
    Fourth,
    Fifth,
}

impl TryFrom<u32> for Handbook {
    type Error = Refusal;

    ghost try_from_gives = { IsNamed };

    fn try_from(number: u32) -> Result<Self, Refusal> {
        match number {
            4 => Ok(Handbook::Fourth),
            5 => Ok(Handbook::Fifth),
            _ => Err(Refusal::HandbookUnknown),
        }
    }
}

impl Handbook {
    // The handbook whose rule a number follows: the number 5 that of the fifth, every other number that of the fourth.
    pub fn rule_of(number: u32) -> Self
        ensures { eqb (handbook_number result) 5 ≡ eqb number 5 }
    {
        match number {
            5 => Handbook::Fifth,
            _ => Handbook::Fourth,
        }
    }
}
