// The pixels of one height join the classes; at each link the lent fathers are compared. Of the lent tree only the fathers and the map
// are read, so that they are passed by themselves.
#![tactic(auto)]

ghost use Rattle.std.specs.Prelude.{◌≢◌, ◌<◌, ◌≤◌, ◌+◌, length, get_or};
ghost use Rattle.picture.specs.Pictures.{places};
ghost use Rattle.geometry.specs.Rasters.{picture};
ghost use Rattle.tree_laws.proofs.Marks.{Names};
ghost use Rattle.tree_laws.proofs.Checks.{Agrees, EdgeCheckReady, Checking};
ghost use Rattle.tree_laws.proofs.PixelChecks.{Passed};
ghost use Rattle.verify_pixels.specs.Edges.{JoinAnswer, EdgeAnswer};

use geometry::raster::Raster;
use union_find::{FIRST_NODE, NOTHING, SEVERAL, comes_before, find, link};

// The lent father of the node that a state names is the lent node of the pixel x.
fn agrees(fathers: &[u16], map: &[u16], state: u16, x: usize) -> bool
    requires { Names (length fathers.now) state × (x < length map.now) }
    ensures { Agrees state x fathers.now map.now result }
{
    SEVERAL <= state || fathers[usize::from(state - FIRST_NODE)] == map[x]
}

// Links two roots at the pixel x: answers the root that is left, or none if a lent father differs.
fn check_join(
    fathers: &[u16],
    map: &[u16],
    cells: &mut [u16],
    q: usize,
    r: usize,
    x: usize,
) -> Option<usize>
    requires q_nonzero { (q ≢ r) × (q < length cells.old) × (r < length cells.old) × (length cells.old ≤ 1600) × (x < length cells.old) }
    requires names { Names (length cells.old) (get_or cells.old q 0) × Names (length cells.old) (get_or cells.old r 0) }
    requires cells_in_bounds { (length cells.old ≤ length fathers.now) × (length cells.old ≤ length map.now) }
    ensures { JoinAnswer x q r cells.old fathers.now map.now cells.new result }
{
    let a = cells[q];
    let b = cells[r];
    if a == NOTHING {
        Some(link(cells, q, r, b))
    } else if b == NOTHING {
        Some(link(cells, q, r, a))
    } else if agrees(fathers, map, a, x) && agrees(fathers, map, b, x) {
        Some(link(cells, q, r, SEVERAL))
    } else {
        None
    }
}

// Joins the place x, whose root is r, to its neighbour y if y comes before x: answers the root, or none if a lent father differs.
fn check_edge(
    pixels: &[u8],
    fathers: &[u16],
    map: &[u16],
    cells: &mut [u16],
    k: usize,
    x: usize,
    r: usize,
    y: usize,
) -> Option<usize>
    requires edge_check_ready { EdgeCheckReady pixels.now k x r y cells.old fathers.now map.now }
    requires cells_in_bounds { (length cells.old ≤ length fathers.now) × (length cells.old ≤ length map.now) }
    ensures { EdgeAnswer pixels.now k x r y cells.old fathers.now map.now result cells.new }
{
    if !comes_before(pixels, k, x, y) {
        return Some(r);
    }
    let q = find(cells, y);
    if q == r {
        Some(r)
    } else {
        check_join(fathers, map, cells, q, r, x)
    }
}

// Joins the place x, if it has the value k, to its neighbours that come before it, unless a lent father differs; as `tree` does (the
// reason for two loops stands there).
fn check_pixel(
    raster: &Raster,
    fathers: &[u16],
    map: &[u16],
    cells: &mut [u16],
    k: usize,
    x: usize,
) -> bool
    requires checking { Checking (picture raster.now) k x cells.old fathers.now map.now × (x < length cells.old) }
    requires cells_in_bounds { (length cells.old ≤ length fathers.now) × (length cells.old ≤ length map.now) }
    ensures { Passed (picture raster.now) k (x + 1) cells.new fathers.now map.now result }
{
    if usize::from(raster.pixels[x]) != k {
        return true;
    }
    let mut near = [0u16; 8];
    let count = raster.grid.neighbours(x, &mut near);
    let mut root = find(cells, x);
    for y in &near[..count] {
        let Some(next) = check_edge(
            raster.pixels,
            fathers,
            map,
            cells,
            k,
            x,
            root,
            usize::from(*y),
        ) else {
            return false;
        };
        root = next;
    }
    true
}

// The pixels of value k join the classes, unless a lent father differs.
pub fn check_pixels(
    raster: &Raster,
    fathers: &[u16],
    map: &[u16],
    cells: &mut [u16],
    k: usize,
) -> bool
    requires checking { Checking (picture raster.now) k 0 cells.old fathers.now map.now }
    requires cells_in_bounds { (length cells.old ≤ length fathers.now) × (length cells.old ≤ length map.now) }
    ensures { Passed (picture raster.now) k (places (picture raster.now)) cells.new fathers.now map.now result }
{
    for x in 0..cells.len() {
        if !check_pixel(raster, fathers, map, cells, k, x) {
            return false;
        }
    }
    true
}
