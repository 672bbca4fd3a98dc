// The heights one after the other: the pixels join, the new roots are listed and numbered, the pixels are mapped.
ghost use Rattle.std.specs.Prelude.{◌≡◌, ◌<◌, ◌+◌, ◌*◌, length};
ghost use Rattle.geometry.specs.Rasters.{picture};
ghost use Rattle.tree_laws.proofs.Forests.{Parents};
ghost use Rattle.tree_laws.proofs.Chains.{NextOfValue};
ghost use Rattle.tree_laws.proofs.Buckets.{Heads};
ghost use Rattle.tree_laws.proofs.Mapped.{Between, NameReady, NameBounds, NamedOne, NameWalk, MapReady, MappedOne, MapWhole};

use crate::joins::join_pixels;
use crate::list::list_level;
use ancestors::NO_FATHER;
use geometry::raster::Raster;
use union_find::{FIRST_NODE, find};

// The node i gets its height and no father, and its root the number.
fn number_one(work: &mut [u16], cells: &mut [u16], k: usize, i: usize)
    requires { NameBounds i cells.old work.old × (k < 256) }
    ensures { NamedOne k i cells.old work.old cells.new work.new }
{
    let n = cells.len();
    let r = usize::from(work[3 * n + i]);
    work[i] = k as u16;
    work[n + i] = NO_FATHER;
    cells[r] = FIRST_NODE + i as u16;
}

// The nodes from c on, before d, of height k get their numbers.
fn number_level(work: &mut [u16], cells: &mut [u16], k: usize, c: usize, d: usize)
    requires { NameReady k c d cells.old work.old × (k < 256) }
    ensures { NameWalk k c d d cells.old work.old cells.new work.new }
{
    for i in c..d {
        number_one(work, cells, k, i);
    }
}

// The pixel x gets the node that its root says; answers the next pixel of its chain.
fn map_one(work: &mut [u16], cells: &mut [u16], x: usize) -> usize
    requires { Parents cells.old × (x < length cells.old) × (length work.old ≡ 4 * length cells.old) }
    ensures { MappedOne x result cells.old work.old cells.new work.new }
{
    let at = 2 * cells.len() + x;
    let next = usize::from(work[at]);
    let r = find(cells, x);
    work[at] = cells[r] - FIRST_NODE;
    next
}

// The pixels of the chain that begins at head get their nodes.
fn map_level(work: &mut [u16], cells: &mut [u16], head: usize)
    requires { MapReady head cells.old work.old }
    ensures { MapWhole head cells.old work.old cells.new work.new }
{
    let mut x = head;
    while x < cells.len() {
        x = map_one(work, cells, x);
    }
}

// The height k, whose chain begins at head: answers the number of nodes up to it.
fn level(
    raster: &Raster,
    work: &mut [u16],
    cells: &mut [u16],
    k: usize,
    head: usize,
    c: usize,
) -> usize
    requires { Between (picture raster.now) k c cells.old work.old × NextOfValue (picture raster.now) k 0 head × (k < 256) }
    ensures { Between (picture raster.now) (k + 1) result cells.new work.new }
{
    join_pixels(raster, work, cells, k, head);
    let d = list_level(work, cells, head, c);
    number_level(work, cells, k, c, d);
    map_level(work, cells, head);
    d
}

// All heights: answers the number of nodes.
pub fn levels(raster: &Raster, work: &mut [u16], cells: &mut [u16], heads: &[u16; 256]) -> usize
    requires { Between (picture raster.now) 0 0 cells.old work.old × Heads (picture raster.now) heads.now }
    ensures { Between (picture raster.now) 256 result cells.new work.new }
{
    let mut c = 0;
    for (k, head) in heads.iter().enumerate() {
        c = level(raster, work, cells, k, usize::from(*head), c);
    }
    c
}
