// 16-bit entries packed in bytes, two bytes an entry, the lowest first.
#![tactic(auto)]

ghost use Rattle.std.specs.Prelude.{◌≡◌, ◌+◌, ◌*◌, ◌≤◌, length, take};
ghost use Rattle.lists.specs.Lists.{over};
ghost use Rattle.packing.specs.Packing.{entries, packed};

use text::put_little;

// The first m cells become the first m entries of the bytes.
pub fn unpack(bytes: &[u8], cells: &mut [u16], m: usize)
    requires { (2 * m ≤ length bytes.now) × (m ≤ length cells.old) }
    ensures { cells.new ≡ over (entries m bytes.now) cells.old }
{
    for i in 0..m {
        cells[i] = u16::from_le_bytes([bytes[2 * i], bytes[2 * i + 1]]);
    }
}

// The first m entries of the bytes become the first m cells.
pub fn pack(cells: &[u16], bytes: &mut [u8], m: usize)
    requires { (m ≤ length cells.now) × (2 * m ≤ length bytes.old) }
    ensures { bytes.new ≡ over (packed (take m cells.now)) bytes.old }
{
    for (i, cell) in cells[..m].iter().enumerate() {
        put_little(bytes, 2 * i, u64::from(*cell), 2);
    }
}
