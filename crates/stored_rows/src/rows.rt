// A row written in a direction, and all rows in their order. Rows and places have 32 bits inside, as in `geometry`.
ghost use Rattle.std.specs.Prelude.{◌≡◌, ◌+◌, ◌*◌, ◌≤◌, length};
ghost use Rattle.lists.specs.Lists.{over};
ghost use Rattle.lists.specs.Writing.{Written};
ghost use Rattle.stored_rows.specs.Steps.{converted, converted_row, converted_rows};
ghost use Rattle.stored_rows.specs.Steps.{RowFits, Fits, RowLent};

use crate::direction::Direction;

// Writes a row from a position on. The pixel left of the first counts as 0.
fn put_converted<D: Direction>(row: &[u8], out: &mut [u8], at: u32)
    requires { RowFits (length row.now) at (length out.old) }
    ensures { Written at (converted D.back row.now) out.old (at + length row.now) out.new }
{
    let mut left = 0;
    for i in 0..row.len() as u32 {
        let read = row[i as usize];
        let written = D::written(left, read);
        out[(at + i) as usize] = written;
        left = D::pixel(read, written);
    }
}

// Writes row i of the output from the row that it is made of.
fn put_row<D: Direction>(w: u32, h: u32, bytes: &[u8], i: u32, out: &mut [u8])
    requires { RowLent w h bytes.now out.old i }
    ensures { Written (i * w) (converted_row D.back w h bytes.now i) out.old (i * w + w) out.new }
{
    let from = (D::source_row(h, i) * w) as usize;
    let end = from + w as usize;
    put_converted::<D>(&bytes[from..end], out, i * w);
}

// Writes all rows in front of what the output holds.
pub fn put_rows<D: Direction>(w: u32, h: u32, bytes: &[u8], out: &mut [u8])
    requires { Fits w h bytes.now out.old }
    ensures { out.new ≡ over (converted_rows D.back w h bytes.now) out.old }
{
    for i in 0..h {
        put_row::<D>(w, h, bytes, i, out);
    }
}
