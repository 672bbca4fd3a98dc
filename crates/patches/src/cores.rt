// The whole cores: the tree of a picture, and its patches from it.
ghost use Rattle.std.specs.Prelude.{◌≡◌, ◌<◌};
ghost use Rattle.picture.specs.Pictures.{places};
ghost use Rattle.picture.specs.Patches.{touched_patch};
ghost use Rattle.geometry.specs.Rasters.{picture};
ghost use Rattle.patch_numbers.specs.Numbers.{FiveBlocks};
ghost use Rattle.patches.specs.Figures.{Figures};
ghost use Rattle.patches.specs.Handbooks.{handbook_number};

use crate::figures::figures;
use crate::handbook::Handbook;
use crate::places::touched_by;
use geometry::raster::Raster;
use tree::build::build;

// The figures of the patches of a picture, by number, and in the cells the patch of each place; answers how many patches there are.
pub fn patch_figures(raster: &Raster, work: &mut [u16], cells: &mut [u16]) -> usize
    requires { FiveBlocks (places (picture raster.now)) work.old cells.old }
    ensures { Figures (picture raster.now) result work.new cells.new }
{
    let count = build(raster, work, cells);
    figures(raster, count, work, cells)
}

// The number of the patch that a touch at a place of a picture belongs to by a handbook, 0 for none as the scope document has it.
pub fn touch_by(
    handbook: Handbook,
    raster: &Raster,
    place: usize,
    work: &mut [u16],
    cells: &mut [u16],
) -> u16
    requires { FiveBlocks (places (picture raster.now)) work.old cells.old × (place < places (picture raster.now)) }
    ensures { result ≡ touched_patch (handbook_number handbook) (picture raster.now) place }
{
    let count = build(raster, work, cells);
    touched_by(handbook, raster, count, place, work, cells)
}

// The same by a number, for every number: 5 has its own rule, every other number that of 4.
pub fn touch_core(
    handbook: u32,
    raster: &Raster,
    place: usize,
    work: &mut [u16],
    cells: &mut [u16],
) -> u16
    requires { FiveBlocks (places (picture raster.now)) work.old cells.old × (place < places (picture raster.now)) }
    ensures { result ≡ touched_patch handbook (picture raster.now) place }
{
    touch_by(Handbook::rule_of(handbook), raster, place, work, cells)
}
