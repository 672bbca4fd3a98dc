// Memory of 16-bit cells: filling and copying parts of it, with what that leaves in the whole memory as the promise.
#![tactic(auto)]

ghost use Rattle.std.specs.Prelude.{◌+◌, ◌≤◌, length};
ghost use Rattle.lists.specs.Blocks.{Filled, Copied};

// The n entries from b on become v.
pub fn fill(cells: &mut [u16], b: usize, n: usize, v: u16)
    requires { b + n ≤ length cells.old }
    ensures { Filled b n v cells.old cells.new }
{
    cells[b..b + n].fill(v);
}

// Copies m entries from b on to the front of a list. A loop: the library's `copy_from_slice` compares addresses, which the trial on the
// controller does not take.
pub fn copy(from: &[u16], b: usize, to: &mut [u16], m: usize)
    requires { (b + m ≤ length from.now) × (m ≤ length to.old) }
    ensures { Copied from.now b m to.old to.new }
{
    for i in 0..m {
        to[i] = from[b + i];
    }
}
