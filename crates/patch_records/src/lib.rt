// Records of patches in a lent list, from their figures in five blocks of n 16-bit entries: sizes, column sums, row sums, depths, heights.
#![tactic(auto)]

ghost use Rattle.std.specs.Prelude.{◌≡◌, ◌≤◌, length};
ghost use Rattle.lists.specs.Lists.{over};
ghost use Rattle.patch_records.specs.Records.{Entry, Entries, record_at, records};

// The number of a patch from 1, its size in pixels, its height, its depth, and the sums of its columns and of its rows.
// A sum is at most 31,200, that of a patch of 40 by 40 places.
#[derive(Clone, Copy, PartialEq, Eq)]
pub struct Patch {
    pub number: u16,
    pub size: u16,
    pub height: u8,
    pub depth: u8,
    pub columns: u16,
    pub rows: u16,
}

// A figure as a byte. It fits, so `as` loses nothing; `try_from` would have a failure.
fn byte(figure: u16) -> u8
    requires { figure ≤ 255 }
    ensures { result ≡ figure }
{
    figure as u8
}

// The record of the patch whose figures are the entries i of the blocks.
#[tactic(auto, unfolding(crate::specs::Records::record_at))]
pub fn record_at(figures: &[u16], n: usize, i: usize) -> Patch
    requires { Entry n figures.now i }
    ensures { result ≡ record_at n figures.now i }
{
    Patch {
        number: (i + 1) as u16,
        size: figures[i],
        height: byte(figures[4 * n + i]),
        depth: byte(figures[3 * n + i]),
        columns: figures[n + i],
        rows: figures[2 * n + i],
    }
}

// The first count entries of the list become the records of the first count patches.
pub fn write_records(out: &mut [Patch], figures: &[u16], n: usize, count: usize)
    requires { (count ≤ length out.old) × Entries n figures.now count }
    ensures { out.new ≡ over (records n figures.now count) out.old }
{
    for i in 0..count {
        out[i] = record_at(figures, n, i);
    }
}
