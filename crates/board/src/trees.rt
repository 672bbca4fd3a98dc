// The check of a lent tree.
ghost use Rattle.std.specs.Prelude.{◌≡◌, not};
ghost use Rattle.refusals.specs.Refusals.{fault_of};
ghost use Rattle.geometry.specs.Rasters.{picture};
ghost use Rattle.faults.specs.PictureFault.{when};
ghost use Rattle.board.specs.Trees.{is_tree};
ghost use Rattle.board.specs.LentTrees.{TreeLent};

use geometry::raster::Raster;
use lent_tree::LentTree;
use refusals::Refusal;
use verify::is_tree;

// A lent tree is the picture's, else 11. The cells are a local: work must be as it was on a refusal.
pub fn check_lent(raster: &Raster, tree: &LentTree) -> Result<(), Refusal>
    requires { TreeLent (picture raster.now) tree.now.heights.now tree.now.fathers.now tree.now.firsts.now tree.now.map.now }
    ensures { fault_of result ≡ when (not (is_tree (picture raster.now) tree.now.count tree.now.heights.now tree.now.fathers.now tree.now.firsts.now tree.now.map.now)) 11 }
{
    let mut cells = [0u16; 1600];
    if is_tree(raster, tree, &mut cells) {
        Ok(())
    } else {
        Err(Refusal::NotTheTree)
    }
}
