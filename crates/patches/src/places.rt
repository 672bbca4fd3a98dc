// The patch that a touch belongs to, from the tree, and the places on the line.
ghost use Rattle.std.specs.Prelude.{◌≡◌, ◌<◌, eqb};
ghost use Rattle.lists.specs.Lists.{pick};
ghost use Rattle.picture.specs.Pictures.{Picture, places};
ghost use Rattle.picture.specs.Patches.{touched_patch, line_count};
ghost use Rattle.geometry.specs.Rasters.{picture};
ghost use Rattle.patch_numbers.specs.Numbers.{FiveBlocks};
ghost use Rattle.patches.specs.Figures.{TreeInWork, PatchMap};
ghost use Rattle.patches.specs.Handbooks.{handbook_number};

use crate::handbook::Handbook;
use geometry::raster::Raster;
use least_labels::least_label;
use patch_numbers::{number, patch_at};

// Above every patch number: the number of the nodes that are no leaves, so that it is never the least. A number, since it stands in
// 16-bit cells of lent memory beside patch numbers.
const NO_PATCH: u16 = 65535;

// A patch number, and 0 for none, as the scope document answers it.
fn patch_or_0(number: u16) -> u16
    ensures { result ≡ pick (eqb number 65535) 0 number }
{
    if number == NO_PATCH { 0 } else { number }
}

// The number of the patch that a touch at the place x of a picture belongs to by a handbook, 0 for none; the tree of count nodes is
// in work. Under the fifth handbook it is the least number of the leaves at or below the node of x, inside a patch too (`touched-five`).
pub fn touched_by(
    handbook: Handbook,
    raster: &Raster,
    count: usize,
    x: usize,
    work: &mut [u16],
    cells: &mut [u16],
) -> u16
    requires { TreeInWork (picture raster.now) count work.old × FiveBlocks (places (picture raster.now)) work.old cells.old × (x < places (picture raster.now)) }
    ensures { result ≡ touched_patch (handbook_number handbook) (picture raster.now) x }
{
    let n = raster.pixels.len();
    number(n, count, NO_PATCH, work, cells);
    match handbook {
        Handbook::Fourth => patch_or_0(patch_at(n, raster.pixels, work, x)),
        Handbook::Fifth => least_label(n, usize::from(work[2 * n + x]), work),
    }
}

// The same by a number, for every number: 5 has its own rule, every other number that of 4.
pub fn touched_patch(
    handbook: u32,
    raster: &Raster,
    count: usize,
    x: usize,
    work: &mut [u16],
    cells: &mut [u16],
) -> u16
    requires { TreeInWork (picture raster.now) count work.old × FiveBlocks (places (picture raster.now)) work.old cells.old × (x < places (picture raster.now)) }
    ensures { result ≡ touched_patch handbook (picture raster.now) x }
{
    touched_by(Handbook::rule_of(handbook), raster, count, x, work, cells)
}

// How many places have the number 0, and so are on the line.
pub fn count_line(numbers: &[u16]) -> usize
    ensures { (p : Picture) → PatchMap p numbers.now → result ≡ line_count p }
{
    numbers.iter().filter(|x| **x == 0).count()
}
