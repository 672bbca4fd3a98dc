// The whole watershed: the tree is built, the pixels are copied, and the copy is lowered.
ghost use Rattle.std.specs.Prelude.{◌≡◌, ◌*◌, length};
ghost use Rattle.picture.specs.Pictures.{places};
ghost use Rattle.picture.specs.Watersheds.{watershed};
ghost use Rattle.geometry.specs.Rasters.{picture};
ghost use Rattle.tree.specs.Arrays.{TreeIn};

use crate::run::lower_all;
use geometry::raster::Raster;
use tree::build::build;

// Copies bytes to memory of the same length. A loop, for the reason that is given at `cells::copy`.
fn copy(from: &[u8], to: &mut [u8])
    requires { length to.old ≡ length from.now }
    ensures { to.new ≡ from.now }
{
    for (i, byte) in from.iter().enumerate() {
        to[i] = *byte;
    }
}

// Builds the tree of a picture in work; the cells of the union-find are given back before the run.
fn build_tree(raster: &Raster, work: &mut [u16])
    requires { length work.old ≡ 5 * places (picture raster.now) }
    ensures { TreeIn (picture raster.now) work.new }
{
    let mut cells = [0u16; 1600];
    build(raster, work, &mut cells);
}

// Leaves the watershed of an accepted picture of n pixels in the n bytes of out; work has 5 n cells.
pub fn watershed_core(raster: &Raster, out: &mut [u8], work: &mut [u16])
    requires { (length out.old ≡ places (picture raster.now)) × (length work.old ≡ 5 * places (picture raster.now)) }
    ensures { out.new ≡ (watershed (picture raster.now)).pixels }
{
    build_tree(raster, work);
    copy(raster.pixels, out);
    lower_all(raster.grid, out, work);
}
