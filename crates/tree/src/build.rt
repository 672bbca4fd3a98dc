// The component tree of a picture: the heights one after the other, then the fathers.
ghost use Rattle.std.specs.Prelude.{◌≡◌, ◌<◌, ◌≤◌, ◌+◌, ◌*◌, length};
ghost use Rattle.picture.specs.Pictures.{places};
ghost use Rattle.picture.specs.Trees.{nodes};
ghost use Rattle.tree_laws.proofs.Resolving.{ResolvedOne, ResolveBounds, ResolveReady, ResolveWalk};
ghost use Rattle.tree.specs.Arrays.{TreeIn};
ghost use Rattle.tree.specs.Built.{Built};
ghost use Rattle.geometry.specs.Rasters.{picture};

use crate::buckets::{NO_PLACE, chain};
use crate::levels::levels;
use ancestors::NO_FATHER;
use geometry::raster::Raster;

// The entry of the node i, if it is a pixel, is replaced by the node of the pixel.
fn resolve_father(work: &mut [u16], n: usize, i: usize)
    requires { ResolveBounds n i work.old }
    ensures { ResolvedOne n i work.old work.new }
{
    let f = work[n + i];
    if f != NO_FATHER {
        work[n + i] = work[2 * n + usize::from(f)];
    }
}

// The fathers of the c nodes.
fn resolve_fathers(work: &mut [u16], n: usize, c: usize)
    requires { ResolveReady n c work.old }
    ensures { ResolveWalk n c c work.old work.new }
{
    for i in 0..c {
        resolve_father(work, n, i);
    }
}

// The tree of an accepted picture in work of exactly 4 n cells, with n cells for the union-find: answers the number of nodes.
fn build_exactly(raster: &Raster, work: &mut [u16], cells: &mut [u16]) -> usize
    requires { (length work.old ≡ 4 * places (picture raster.now)) × (length cells.old ≡ places (picture raster.now)) }
    ensures { (result ≡ length (nodes (picture raster.now))) × TreeIn (picture raster.now) work.new }
{
    let mut heads = [NO_PLACE; 256];
    chain(raster.pixels, work, cells, &mut heads);
    let c = levels(raster, work, cells, &heads);
    resolve_fathers(work, cells.len(), c);
    c
}

// The tree of an accepted picture of n places in the first 4 n cells of work: heights, fathers, map, first places, n cells each. Answers the number of nodes.
// The first n of the other cells serve the union-find.
pub fn build(raster: &Raster, work: &mut [u16], cells: &mut [u16]) -> usize
    requires { (4 * places (picture raster.now) ≤ length work.old) × (places (picture raster.now) ≤ length cells.old) }
    ensures { Built (picture raster.now) result work.old work.new cells.old cells.new }
{
    let n = raster.pixels.len();
    build_exactly(raster, &mut work[..4 * n], &mut cells[..n])
}
