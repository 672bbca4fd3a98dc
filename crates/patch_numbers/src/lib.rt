// The patch of a place, from the tree: leaves are numbered by first place, and a pixel of its leaf's height is in its patch.
#![tactic(auto)]

ghost use Rattle.std.specs.Prelude.{◌≡◌, ℕ, ◌+◌, ◌*◌, ◌≤◌, ◌<◌, eqb, length, get_or};
ghost use Rattle.lists.specs.Lists.{pick};
ghost use Rattle.patch_numbers.specs.Numbers.{FiveBlocks, Mapped, Mark, Marks, Number, Numbers, Leaves, patch_in};

use cells::fill;

// Marks the father f of a node; a number that is no node's is the root's father.
fn mark(cells: &mut [u16], f: usize)
    ensures { Mark f cells.old cells.new }
{
    if f < cells.len() {
        cells[f] = 1;
    }
}

// Marks the nodes that are the father of some node: the entries of all others are 0.
fn mark_fathers(n: usize, count: usize, work: &[u16], cells: &mut [u16])
    requires { FiveBlocks n work.now cells.old × (count ≤ n) }
    ensures { Marks n count work.now cells.new }
{
    fill(cells, 0, n, 0);
    for father in &work[n..n + count] {
        mark(cells, usize::from(*father));
    }
}

// Numbers the node of the place x if it is a leaf that begins there; r leaves begin before.
fn number_leaf(n: usize, x: usize, work: &mut [u16], marks: &[u16], r: usize) -> usize
    requires { FiveBlocks n work.old marks.now × Mapped n work.old × (x < n) × (r ≤ x) }
    ensures { Number n x work.old marks.now r work.new result }
{
    let m = usize::from(work[2 * n + x]);
    if usize::from(work[3 * n + m]) == x && marks[m] == 0 {
        work[4 * n + m] = (r + 1) as u16;
        r + 1
    } else {
        r
    }
}

// Puts the number of each leaf into the fifth block, and answers how many there are.
fn number_leaves(n: usize, work: &mut [u16], marks: &[u16]) -> usize
    requires { FiveBlocks n work.old marks.now × Mapped n work.old }
    ensures { Numbers n work.old marks.now n result work.new }
{
    let mut r = 0;
    for x in 0..n {
        r = number_leaf(n, x, work, marks, r);
    }
    r
}

// Numbers the leaves of the tree in work, of count nodes, by first place, and gives all other nodes one number, with the cells for
// marks; answers how many leaves there are.
pub fn number(n: usize, count: usize, others: u16, work: &mut [u16], cells: &mut [u16]) -> usize
    requires { FiveBlocks n work.old cells.old × Mapped n work.old × (count ≤ n) }
    ensures { Leaves n count others work.old result work.new }
{
    mark_fathers(n, count, work, cells);
    fill(work, 4 * n, n, others);
    number_leaves(n, work, cells)
}

// The number if the pixel has the height, else 0. Without a jump, which on noise is hard to predict (docs/performance.md).
fn number_if(number: u16, pixel: u8, height: u16) -> u16
    ensures { result ≡ pick (eqb pixel height) number 0 }
{
    let above = u32::from(pixel) + 65536 - u32::from(height);
    let same = above / 65536 - (above - 1) / 65536;
    (u32::from(number) * same) as u16
}

// The number of the patch of the place x, 0 on the line.
pub fn patch_at(n: usize, pixels: &[u8], work: &[u16], x: usize) -> u16
    requires { FiveBlocks n work.now pixels.now × Mapped n work.now × (x < n) }
    ensures { result ≡ patch_in n pixels.now work.now x }
{
    let m = usize::from(work[2 * n + x]);
    number_if(work[4 * n + m], pixels[x], work[m])
}

// Puts the number of the patch of each place into the cells.
pub fn map_patches(n: usize, pixels: &[u8], work: &[u16], cells: &mut [u16])
    requires { FiveBlocks n work.now pixels.now × Mapped n work.now × (length cells.old ≡ n) }
    ensures { (x : ℕ) → x < n → get_or cells.new x 0 ≡ patch_in n pixels.now work.now x }
{
    for (x, cell) in cells.iter_mut().enumerate() {
        *cell = patch_at(n, pixels, work, x);
    }
}
