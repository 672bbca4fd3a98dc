// A lent tree, and the pass between two places: the largest of both values and the height of their nodes' nearest common ancestor.
#![tactic(auto)]

ghost use Rattle.lent_tree.specs.Passes.{PassReady, PassOf};

use ancestors::nearest_common_ancestor;
use geometry::raster::Raster;

// The lists of a tree as a caller lends them: the number of nodes, the heights, fathers and first places of the nodes, and the map from
// places to nodes. Whether they are the tree of a picture is not known yet.
#[derive(Clone, Copy)]
pub struct LentTree<'a> {
    pub count: usize,
    pub heights: &'a [u8],
    pub fathers: &'a [u16],
    pub firsts: &'a [u16],
    pub map: &'a [u16],
}

// The pass between the places x and y, read off the tree of the picture.
pub fn pass(raster: &Raster, tree: &LentTree, x: usize, y: usize) -> usize
    requires { PassReady raster.now.pixels.now tree.now.heights.now tree.now.fathers.now tree.now.map.now x y }
    ensures { PassOf raster.now.pixels.now tree.now.heights.now tree.now.fathers.now tree.now.map.now x y result }
{
    let a = usize::from(tree.map[x]);
    let b = usize::from(tree.map[y]);
    let top = nearest_common_ancestor(tree.fathers, a, b);
    let values = raster.pixels[x].max(raster.pixels[y]);
    usize::from(values.max(tree.heights[top]))
}
