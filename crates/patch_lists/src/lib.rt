// The list of patches before its records are written: the refusal, and the figures in work.
#![tactic(auto)]

ghost use Rattle.std.specs.Prelude.{◌≡◌, ◌*◌, ◌≤◌, length, IfOk, OnErr};
ghost use Rattle.picture.specs.Pictures.{picture_of};
ghost use Rattle.picture.specs.Patches.{patches};
ghost use Rattle.refusals.specs.Refusals.{fault_of};
ghost use Rattle.geometry.specs.Rasters.{picture};
ghost use Rattle.faults.specs.Steps.{Admits};
ghost use Rattle.patch_lists.specs.PatchLists.{list_fault};
ghost use Rattle.patch_lists.specs.Steps.{Figured};

use faults::{room, with_work};
use geometry::raster::Raster;
use minima::count_minima;
use patches::cores::patch_figures;
use refusals::Refusal;

// The number of patches of a picture. The cells may hold anything.
fn count_patches(raster: &Raster, cells: &mut [u16]) -> usize
    requires { 1600 ≤ length cells.old }
    ensures { result ≡ length (patches (picture raster.now)) }
{
    let n = raster.pixels.len();
    count_minima(raster, &mut cells[..n])
}

// The call's picture as a raster, or its refusal, from the picture and the lengths of the list and of work. Only the cells are written.
// The arguments are loose, since this is the test that makes the raster. Never inlined, so that the stack of the count is given back
// before the tree is built, where the call goes deepest.
#[inline(never)]
fn with_list<'a>(
    adjacency: u32,
    width: u32,
    height: u32,
    pixels: &'a [u8],
    records: usize,
    work: usize,
    cells: &mut [u16],
) -> Result<Raster<'a>, Refusal>
    requires { 1600 ≤ length cells.old }
    ensures { Admits (picture_of adjacency width height pixels.now) (list_fault (picture_of adjacency width height pixels.now) records work) result }
{
    let raster = with_work(adjacency, width, height, pixels, work)?;
    room(records, count_patches(&raster, cells))?;
    Ok(raster)
}

// Leaves the figures of the patches in the first 5 n entries of work, and answers how many patches there are. The cells may hold anything.
pub fn fill_figures(raster: &Raster, work: &mut [u16], cells: &mut [u16]) -> usize
    requires { (5 * length raster.now.pixels.now ≤ length work.old) × (1600 ≤ length cells.old) }
    ensures { Figured (picture raster.now) work.old work.new result }
{
    let n = raster.pixels.len();
    let whole = 5 * n;
    patch_figures(raster, &mut work[..whole], &mut cells[..n])
}

// The number of patches for a list of so many records, with their figures left in work; or the refusal, with work as it was.
// The arguments are loose as the calls have them: the test that makes the raster comes first.
pub fn gather(
    adjacency: u32,
    width: u32,
    height: u32,
    pixels: &[u8],
    records: usize,
    work: &mut [u16],
) -> Result<usize, Refusal>
    ensures fault { fault_of result ≡ list_fault (picture_of adjacency width height pixels.now) records (length work.old) }
    ensures figured { IfOk result (λ count. Figured (picture_of adjacency width height pixels.now) work.old work.new count) }
    ensures room { IfOk result (λ count. (count ≤ records) × (length pixels.now ≤ 1600) × (5 * length pixels.now ≤ length work.old)) }
    ensures kept { OnErr result (work.new ≡ work.old) }
{
    // one array for the count and the figures: two would not fit the controller
    let mut cells = [0u16; 1600];
    let raster = with_list(
        adjacency,
        width,
        height,
        pixels,
        records,
        work.len(),
        &mut cells,
    )?;
    Ok(fill_figures(&raster, work, &mut cells))
}
