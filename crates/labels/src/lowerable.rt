// The lowerable test: the labels of the section below a pixel agree around it.
ghost use Rattle.std.specs.Prelude.{◌≡◌, ◌≢◌, ℕ, ◌<◌, length, get_or};
ghost use Rattle.picture.specs.Pictures.{places};
ghost use Rattle.picture.specs.Geometry.{neighbours_in};
ghost use Rattle.picture.specs.Watersheds.{lowerable as is_lowerable};
ghost use Rattle.geometry.specs.Rasters.{picture, IsPlace};
ghost use Rattle.labelling_laws.proofs.Agreeing.{agreed, is_single, Common};
ghost use Rattle.labels.specs.Found.{found_number, IsProper};

use crate::scan::label;
use geometry::raster::Raster;

// The label common to some places: no label, one label, or labels that differ.
#[derive(Clone, Copy)]
enum Found {
    None,
    One(u16),
    Different,
}

impl Found {
    // What is found after one more place with its own label.
    fn agree(self, label: u16) -> Found
        requires { IsProper self × (label ≢ 65535) }
        ensures proper { IsProper result }
        ensures agreed { found_number result ≡ agreed (found_number self) label }
    {
        match self {
            _ if label == 0 => self,
            Found::None => Found::One(label),
            Found::One(common) if common == label => self,
            _ => Found::Different,
        }
    }

    // The label found is that of exactly one component.
    fn single(self) -> bool
        requires { IsProper self }
        ensures { result ≡ is_single (found_number self) }
    {
        match self {
            Found::One(_) => true,
            Found::None | Found::Different => false,
        }
    }
}

// The label common to the neighbours of the place x.
fn common_label(raster: &Raster, x: usize, labels: &[u16]) -> Found
    requires { IsPlace raster.now.grid x × (length labels.now ≡ places (picture raster.now)) × ((y : ℕ) → y < places (picture raster.now) → get_or labels.now y 0 ≢ 65535) }
    ensures proper { IsProper result }
    ensures common { Common labels.now (neighbours_in (picture raster.now) x) (length (neighbours_in (picture raster.now) x)) (found_number result) }
{
    let mut near = [0u16; 8];
    let count = raster.grid.neighbours(x, &mut near);
    let mut common = Found::None;
    for y in &near[..count] {
        common = common.agree(labels[usize::from(*y)]);
    }
    common
}

// The pixel at the place x is adjacent to exactly one component of the height below its value. The labels of that height are left behind.
pub fn lowerable(raster: &Raster, x: usize, labels: &mut [u16]) -> bool
    requires { (length labels.old ≡ places (picture raster.now)) × (x < places (picture raster.now)) }
    ensures { result ≡ is_lowerable (picture raster.now) x }
{
    let value = raster.pixels[x];
    if value == 0 {
        return false;
    }
    let mut stack = [0u16; 1600];
    label(raster, value - 1, labels, &mut stack);
    common_label(raster, x, labels).single()
}
