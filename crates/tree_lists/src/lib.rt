// The component tree as lists: built in blocks of work, then copied. Parallel lists and blocks, as the scope document lends them.
#![tactic(auto)]

ghost use Rattle.std.specs.Prelude.{◌≡◌, ◌≤◌, length};
ghost use Rattle.picture.specs.Pictures.{places};
ghost use Rattle.picture.specs.Trees.{tree_of};
ghost use Rattle.geometry.specs.Rasters.{picture};
ghost use Rattle.lists.specs.Lists.{over};
ghost use Rattle.lists.specs.Blocks.{Copied};
ghost use Rattle.tree_lists.specs.Lists.{Bytes, ListsRoom, TreeHanded};

use cells::copy;
use geometry::raster::Raster;
use tree::build::build;

// Copies entries, each a byte, to the front of a list of bytes. Each fits, so `as` loses nothing; `try_from` would have a failure.
fn copy_bytes(from: &[u16], to: &mut [u8])
    requires { (length from.now ≤ length to.old) × Bytes (length from.now) from.now }
    ensures { Copied from.now 0 (length from.now) to.old to.new }
{
    for (i, x) in from.iter().enumerate() {
        to[i] = *x as u8;
    }
}

// The tree of an accepted picture of n pixels in front of the lists, of which the map serves the union-find first: answers the number of nodes.
pub fn build_lists(
    raster: &Raster,
    heights: &mut [u8],
    fathers: &mut [u16],
    firsts: &mut [u16],
    map: &mut [u16],
    work: &mut [u16],
) -> usize
    requires { ListsRoom (places (picture raster.now)) heights.old fathers.old firsts.old map.old work.old }
    ensures tree_handed { TreeHanded (picture raster.now) result work.old work.new }
    ensures heights_after { heights.new ≡ over (tree_of (picture raster.now)).heights heights.old }
    ensures fathers_after { fathers.new ≡ over (tree_of (picture raster.now)).fathers fathers.old }
    ensures firsts_after { firsts.new ≡ over (tree_of (picture raster.now)).firsts firsts.old }
    ensures map_after { map.new ≡ over (tree_of (picture raster.now)).map map.old }
{
    let n = raster.pixels.len();
    let count = build(raster, work, map);
    copy_bytes(&work[..count], heights);
    copy(work, n, fathers, count);
    copy(work, 3 * n, firsts, count);
    copy(work, 2 * n, map, n);
    count
}
