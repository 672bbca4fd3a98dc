// A lent tree is the tree of a picture: the heights one after the other, with n cells for the union-find.
#![tactic(auto)]

ghost use Rattle.std.specs.Prelude.{◌<◌, ◌≤◌, length};
ghost use Rattle.picture.specs.Pictures.{places};
ghost use Rattle.geometry.specs.Rasters.{picture};
ghost use Rattle.verify.specs.Checked.{IsTreeAnswer};
ghost use Rattle.verify.specs.Heights.{ListsLong, Verified, LevelChecked};

use ancestors::NO_FATHER;
use geometry::raster::Raster;
use lent_tree::LentTree;
use union_find::NOTHING;
use verify_nodes::{check_map, check_nodes, run_end};
use verify_pixels::check_pixels;

// The height k: answers the number of nodes up to it, or none if the lists are not the tree.
fn check_level(
    raster: &Raster,
    tree: &LentTree,
    cells: &mut [u16],
    k: usize,
    c: usize,
) -> Option<usize>
    requires verified { Verified (picture raster.now) k c tree.now.count cells.old tree.now.heights.now tree.now.fathers.now tree.now.firsts.now tree.now.map.now × (k < 256) }
    requires lists_long { ListsLong tree.now.count raster.now.pixels.now tree.now.heights.now tree.now.fathers.now tree.now.firsts.now tree.now.map.now cells.old }
    ensures { LevelChecked (picture raster.now) k tree.now.count cells.new tree.now.heights.now tree.now.fathers.now tree.now.firsts.now tree.now.map.now result }
{
    if !check_pixels(raster, tree.fathers, tree.map, cells, k) {
        return None;
    }
    let d = run_end(tree.heights, k, c, tree.count);
    if check_nodes(raster.pixels, tree.firsts, cells, k, c, d)
        && check_map(raster.pixels, tree.map, cells, k)
    {
        Some(d)
    } else {
        None
    }
}

// All heights: answers the number of nodes, or none if the lists are not the tree.
fn check_levels(raster: &Raster, tree: &LentTree, cells: &mut [u16]) -> Option<usize>
    requires verified { Verified (picture raster.now) 0 0 tree.now.count cells.old tree.now.heights.now tree.now.fathers.now tree.now.firsts.now tree.now.map.now }
    requires lists_long { ListsLong tree.now.count raster.now.pixels.now tree.now.heights.now tree.now.fathers.now tree.now.firsts.now tree.now.map.now cells.old }
    ensures { LevelChecked (picture raster.now) 255 tree.now.count cells.new tree.now.heights.now tree.now.fathers.now tree.now.firsts.now tree.now.map.now result }
{
    let mut c = 0;
    for k in 0..256 {
        c = check_level(raster, tree, cells, k, c)?;
    }
    Some(c)
}

// The lent lists are the tree of the picture of n places: the count, the lists' entries below it and the map's first n entries.
// The first n cells serve the union-find.
pub fn is_tree(raster: &Raster, tree: &LentTree, cells: &mut [u16]) -> bool
    requires { (places (picture raster.now) ≤ length cells.old) × (places (picture raster.now) ≤ length tree.now.heights.now) × (places (picture raster.now) ≤ length tree.now.fathers.now) × (places (picture raster.now) ≤ length tree.now.firsts.now) × (places (picture raster.now) ≤ length tree.now.map.now) }
    ensures { IsTreeAnswer (picture raster.now) tree.now.count tree.now.heights.now tree.now.fathers.now tree.now.firsts.now tree.now.map.now result }
{
    let n = raster.pixels.len();
    if tree.count == 0 || n < tree.count {
        return false;
    }
    let part = &mut cells[..n];
    part.fill(NOTHING);
    check_levels(raster, tree, part) == Some(tree.count)
        && tree.fathers[tree.count - 1] == NO_FATHER
}
