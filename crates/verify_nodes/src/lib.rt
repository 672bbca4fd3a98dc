// The lent nodes of one height against the new roots, and the lent map against their numbers.
#![tactic(auto)]

ghost use Rattle.std.specs.Prelude.{◌<◌, ◌≤◌, ◌+◌, length};
ghost use Rattle.tree_laws.proofs.Forests.{Parents};
ghost use Rattle.verify_nodes.specs.NodeChecks.{SameHeights, FitAnswer, CountReady, NodesChecked, LentMapReady, MapChecked};

use union_find::{FIRST_NODE, SEVERAL, find};

// The end of the lent heights k from c on.
pub fn run_end(heights: &[u8], k: usize, c: usize, count: usize) -> usize
    requires { (c ≤ count) × (count ≤ length heights.now) }
    ensures { SameHeights k c result count heights.now }
{
    for i in c..count {
        if usize::from(heights[i]) != k {
            return i;
        }
    }
    count
}

// The lent first place of the node i is a new root of height k, above the one before it.
fn node_fits(pixels: &[u8], firsts: &[u16], cells: &[u16], k: usize, c: usize, i: usize) -> bool
    requires { (i < length firsts.now) × (length cells.now ≤ length pixels.now) }
    ensures { FitAnswer pixels.now k c i cells.now firsts.now result }
{
    let first = usize::from(firsts[i]);
    if cells.len() <= first || k < usize::from(pixels[first]) || cells[first] < SEVERAL {
        return false;
    }
    i <= c || firsts[i - 1] < firsts[i]
}

// The lent first places from c on, before d, are new roots of height k, rising; each gets its number.
pub fn check_nodes(
    pixels: &[u8],
    firsts: &[u16],
    cells: &mut [u16],
    k: usize,
    c: usize,
    d: usize,
) -> bool
    requires count_ready { CountReady pixels.now k c cells.old firsts.now × (c ≤ d) × (d ≤ length cells.old) × (length cells.old ≤ 1600) }
    requires cells_in_bounds { (length cells.old ≤ length firsts.now) × (length cells.old ≤ length pixels.now) }
    ensures { NodesChecked pixels.now k c d cells.old firsts.now cells.new result }
{
    for i in c..d {
        if !node_fits(pixels, firsts, cells, k, c, i) {
            return false;
        }
        cells[usize::from(firsts[i])] = FIRST_NODE + i as u16;
    }
    true
}

// The lent node of the pixel x, if it has the value k, is the one that its root says.
fn check_map_one(pixels: &[u8], map: &[u16], cells: &mut [u16], k: usize, x: usize) -> bool
    requires { Parents cells.old × (x < length cells.old) × (x < length pixels.now) × (x < length map.now) }
    ensures { MapChecked pixels.now k x (x + 1) cells.old map.now cells.new result }
{
    if usize::from(pixels[x]) != k {
        return true;
    }
    let r = find(cells, x);
    let state = cells[r];
    state < SEVERAL && state - FIRST_NODE == map[x]
}

// The lent nodes of the pixels of value k are those that their roots say.
pub fn check_map(pixels: &[u8], map: &[u16], cells: &mut [u16], k: usize) -> bool
    requires lent_map_ready { LentMapReady pixels.now k 0 cells.old map.now }
    requires cells_in_bounds { (length cells.old ≤ length map.now) × (length cells.old ≤ length pixels.now) }
    ensures { MapChecked pixels.now k 0 (length cells.old) cells.old map.now cells.new result }
{
    for x in 0..cells.len() {
        if !check_map_one(pixels, map, cells, k, x) {
            return false;
        }
    }
    true
}
