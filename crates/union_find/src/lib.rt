// Union-find in cells: a cell below FIRST_NODE is a parent, a smaller place; one from FIRST_NODE on marks a root with its state.
#![tactic(auto)]

ghost use Rattle.std.specs.Prelude.{◌≢◌, ◌<◌, ◌≤◌, ◌+◌, ◌*◌, length, get_or};
ghost use Rattle.tree_laws.proofs.Chains.{Comes};
ghost use Rattle.tree_laws.proofs.Forests.{Parents, Split, Found, Linked};
ghost use Rattle.tree_laws.proofs.Marks.{Marked, Names, MergedIn, LinkedIn};

// The states of a root: FIRST_NODE + i where one node i is beneath, and three marks; numbers and no enum, since they stand in the
// 16-bit cells of lent memory.
pub const FIRST_NODE: u16 = 2048;

// The root of a new node, in the list of its height.
pub const LISTED: u16 = 65533;

// Several nodes are beneath.
pub const SEVERAL: u16 = 65534;

// No lower place is beneath.
pub const NOTHING: u16 = 65535;

// The parent of a place; its cell gets the grandparent.
fn split(cells: &mut [u16], x: usize) -> usize
    requires { Parents cells.old × (x < length cells.old) × (get_or cells.old x 0 < 2048) }
    ensures { Split cells.old x result cells.new }
{
    let up = usize::from(cells[x]);
    let above = cells[up];
    if above < FIRST_NODE {
        cells[x] = above;
    }
    up
}

// The root of a place.
pub fn find(cells: &mut [u16], x: usize) -> usize
    requires { Parents cells.old × (x < length cells.old) }
    ensures { Found cells.old x result cells.new }
{
    let mut i = x;
    while cells[i] < FIRST_NODE {
        i = split(cells, i);
    }
    i
}

// The pixel x stands in for the father of the node that a state names.
fn mark(work: &mut [u16], n: usize, state: u16, x: usize)
    requires { Names n state × (2 * n ≤ length work.old) × (x < 1600) }
    ensures { Marked n state x work.old work.new }
{
    if state < SEVERAL {
        work[n + usize::from(state - FIRST_NODE)] = x as u16;
    }
}

// The state of two classes together; where both hold lower places, the pixel x stands in for the fathers of their nodes.
fn merge(work: &mut [u16], n: usize, a: u16, b: u16, x: usize) -> u16
    requires { Names n a × Names n b × (2 * n ≤ length work.old) × (x < 1600) }
    ensures { MergedIn n x a b result work.old work.new }
{
    if a == NOTHING {
        b
    } else if b == NOTHING {
        a
    } else {
        mark(work, n, a, x);
        mark(work, n, b, x);
        SEVERAL
    }
}

// Links the greater of two roots below the smaller, which gets the state, and answers the smaller.
pub fn link(cells: &mut [u16], q: usize, r: usize, state: u16) -> usize
    requires { (q ≢ r) × (q < length cells.old) × (r < length cells.old) × (length cells.old ≤ 1600) }
    ensures { Linked q r state cells.old cells.new result }
{
    if q < r {
        cells[r] = q as u16;
        cells[q] = state;
        q
    } else {
        cells[q] = r as u16;
        cells[r] = state;
        r
    }
}

// Links two roots at the pixel x, and answers the root that is left.
pub fn join(work: &mut [u16], cells: &mut [u16], q: usize, r: usize, x: usize) -> usize
    requires q_nonzero { (q ≢ r) × (q < length cells.old) × (r < length cells.old) × (length cells.old ≤ 1600) × (x < 1600) }
    requires names { Names (length cells.old) (get_or cells.old q 0) × Names (length cells.old) (get_or cells.old r 0) }
    requires cells_in_bounds { 2 * length cells.old ≤ length work.old }
    ensures { LinkedIn x q r cells.old cells.new work.old work.new result }
{
    let n = cells.len();
    let state = merge(work, n, cells[q], cells[r], x);
    link(cells, q, r, state)
}

// The place y comes before the place x of value k: by value, then by place.
pub fn comes_before(pixels: &[u8], k: usize, x: usize, y: usize) -> bool
    requires { y < length pixels.now }
    ensures { Comes k x y (get_or pixels.now y 0) result }
{
    let v = usize::from(pixels[y]);
    v < k || (v == k && y < x)
}
