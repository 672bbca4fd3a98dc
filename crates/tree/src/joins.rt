// The pixels of one height join the classes of the places below them.
ghost use Rattle.std.specs.Prelude.{◌<◌, ◌+◌, ◌*◌, length};
ghost use Rattle.picture.specs.Pictures.{places};
ghost use Rattle.geometry.specs.Rasters.{picture};
ghost use Rattle.lists.specs.Blocks.{UntouchedOutside};
ghost use Rattle.tree_laws.proofs.Chains.{EdgeReady, EdgeDone};
ghost use Rattle.tree_laws.proofs.Walks.{WalkReady, PixelJoined};

use geometry::raster::Raster;
use union_find::{comes_before, find, join};

// Joins the place x, whose root is r, to its neighbour y if y comes before x, and answers the root then.
fn join_edge(
    pixels: &[u8],
    work: &mut [u16],
    cells: &mut [u16],
    k: usize,
    x: usize,
    r: usize,
    y: usize,
) -> usize
    requires { EdgeReady pixels.now k x r y cells.old work.old }
    ensures { EdgeDone pixels.now k x r y cells.old work.old result cells.new work.new }
{
    if !comes_before(pixels, k, x, y) {
        return r;
    }
    let q = find(cells, y);
    if q == r {
        r
    } else {
        join(work, cells, q, r, x)
    }
}

// Joins the place x of value k to its neighbours that come before it, and answers the next place of its value. The like loops of `filling` and of the check of a lent tree carry other
// state and end otherwise; one loop over a closure that writes two lent slices was no plainer.
fn join_pixel(raster: &Raster, work: &mut [u16], cells: &mut [u16], k: usize, x: usize) -> usize
    requires { WalkReady (picture raster.now) k x cells.old work.old × (x < length cells.old) }
    ensures { PixelJoined (picture raster.now) k x result cells.new work.old work.new }
{
    let mut near = [0u16; 8];
    let count = raster.grid.neighbours(x, &mut near);
    let mut root = find(cells, x);
    for y in &near[..count] {
        root = join_edge(raster.pixels, work, cells, k, x, root, usize::from(*y));
    }
    usize::from(work[2 * cells.len() + x])
}

// The pixels of value k join the classes; their chain begins at head.
pub fn join_pixels(raster: &Raster, work: &mut [u16], cells: &mut [u16], k: usize, head: usize)
    requires { WalkReady (picture raster.now) k head cells.old work.old }
    ensures { WalkReady (picture raster.now) k (places (picture raster.now)) cells.new work.new × UntouchedOutside (places (picture raster.now)) (places (picture raster.now)) work.old work.new }
{
    let mut x = head;
    while x < cells.len() {
        x = join_pixel(raster, work, cells, k, x);
    }
}
