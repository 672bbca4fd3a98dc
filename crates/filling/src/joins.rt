// The pixels of one height join the classes: a class is counted, or settled at the height to which its places are filled.
ghost use Rattle.std.specs.Prelude.{◌<◌, ◌≤◌, length};
ghost use Rattle.geometry.specs.Rasters.{picture};
ghost use Rattle.filling_laws.proofs.FillLevels.{count_state, first_settled};
ghost use Rattle.filling_laws.proofs.FillLinks.{Together};
ghost use Rattle.filling_laws.proofs.FillWalks.{FillEdgeReady, FillEdgeDone, FillWalk, FillPixelDone, FillJoined, Links};

use geometry::raster::Raster;
use union_find::{FIRST_NODE, comes_before, find, link};

// A root's state counts the places of its class, from FIRST_NODE on, or is SETTLED and the height to which they are filled.
// A count is at most 1,600, so that a smaller state than SETTLED counts. Numbers and no enum: they stand in 16-bit cells.
pub const SETTLED: u16 = 4096;

// The state of two classes together: their places, s at most.
fn together(a: u16, b: u16, s: usize) -> u16
    requires { (count_state 0 ≤ a) × (a < first_settled) × (count_state 0 ≤ b) × (b < first_settled) × (s ≤ 1600) }
    ensures { Together s a b result }
{
    let count = usize::from(a - FIRST_NODE) + usize::from(b - FIRST_NODE);
    FIRST_NODE + count.min(s) as u16
}

// Joins the place x, whose root is r, to its neighbour y if y comes before x, and answers the root then; a settled class is joined no more.
fn fill_edge(
    pixels: &[u8],
    cells: &mut [u16],
    s: usize,
    k: usize,
    x: usize,
    r: usize,
    y: usize,
) -> usize
    requires { FillEdgeReady pixels.now s k x r y cells.old }
    ensures { FillEdgeDone pixels.now s k x r y cells.old result cells.new }
{
    if !comes_before(pixels, k, x, y) {
        return r;
    }
    let q = find(cells, y);
    if q == r {
        return r;
    }
    let other = cells[q];
    // a part that touches a large one is large
    if SETTLED <= other {
        cells[r] = FIRST_NODE + s as u16;
        return r;
    }
    let state = together(other, cells[r], s);
    link(cells, q, r, state)
}

// Joins the place x of value k to its neighbours that come before it, as `tree` does (the reason for two loops stands there).
fn fill_pixel(raster: &Raster, cells: &mut [u16], s: usize, k: usize, x: usize)
    requires { FillWalk (picture raster.now) s k x cells.old × (x < length cells.old) }
    ensures { FillPixelDone (picture raster.now) s k x cells.new }
{
    let mut near = [0u16; 8];
    let count = raster.grid.neighbours(x, &mut near);
    let mut root = find(cells, x);
    for y in &near[..count] {
        root = fill_edge(raster.pixels, cells, s, k, x, root, usize::from(*y));
    }
}

// The pixels of value k join the classes; their chain begins at head.
pub fn fill_pixels(
    raster: &Raster,
    work: &[u16],
    cells: &mut [u16],
    s: usize,
    k: usize,
    head: usize,
)
    requires { FillWalk (picture raster.now) s k head cells.old × Links (picture raster.now) work.now }
    ensures { FillJoined (picture raster.now) s k cells.new }
{
    let mut x = head;
    while x < cells.len() {
        fill_pixel(raster, cells, s, k, x);
        x = usize::from(work[2 * cells.len() + x]);
    }
}
