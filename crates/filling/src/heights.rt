// The heights one after the other: the pixels join, and the classes that have become large are settled.
ghost use Rattle.std.specs.Prelude.{◌<◌, ◌≤◌, ◌+◌, length};
ghost use Rattle.geometry.specs.Rasters.{picture};
ghost use Rattle.tree_laws.proofs.Forests.{Parents};
ghost use Rattle.tree_laws.proofs.Chains.{NextOfValue};
ghost use Rattle.tree_laws.proofs.Buckets.{Heads};
ghost use Rattle.filling_laws.proofs.FillWalks.{Links};
ghost use Rattle.filling_laws.proofs.FillSettling.{SettledOne, SettleReady, SettleDone, FillBetween};

use crate::joins::{SETTLED, fill_pixels};
use geometry::raster::Raster;
use union_find::{FIRST_NODE, find};

// The class of x is settled at k if it counts s.
fn settle_one(cells: &mut [u16], s: usize, k: usize, x: usize)
    requires { Parents cells.old × (x < length cells.old) × (s ≤ 1600) × (k ≤ 255) }
    ensures { SettledOne s k x cells.old cells.new }
{
    let r = find(cells, x);
    if cells[r] == FIRST_NODE + s as u16 {
        cells[r] = SETTLED + k as u16;
    }
}

// The classes of the pixels of value k that count s are settled; the chain of the pixels begins at head.
fn settle(work: &[u16], cells: &mut [u16], s: usize, k: usize, head: usize)
    requires { SettleReady s k head cells.old work.now }
    ensures { SettleDone s k head cells.old work.now cells.new }
{
    let mut x = head;
    while x < cells.len() {
        settle_one(cells, s, k, x);
        x = usize::from(work[2 * cells.len() + x]);
    }
}

// The height k, whose chain begins at head.
fn fill_height(raster: &Raster, work: &[u16], cells: &mut [u16], s: usize, k: usize, head: usize)
    requires { FillBetween (picture raster.now) s k cells.old × Links (picture raster.now) work.now × NextOfValue (picture raster.now) k 0 head × (k < 256) }
    ensures { FillBetween (picture raster.now) s (k + 1) cells.new }
{
    fill_pixels(raster, work, cells, s, k, head);
    settle(work, cells, s, k, head);
}

// All heights.
pub fn fill_heights(raster: &Raster, work: &[u16], cells: &mut [u16], s: usize, heads: &[u16; 256])
    requires { FillBetween (picture raster.now) s 0 cells.old × Links (picture raster.now) work.now × Heads (picture raster.now) heads.now }
    ensures { FillBetween (picture raster.now) s 256 cells.new }
{
    for (k, head) in heads.iter().enumerate() {
        fill_height(raster, work, cells, s, k, usize::from(*head));
    }
}
