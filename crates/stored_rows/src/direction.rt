// The two directions: what is written for a byte of a row, and which row is read for a row that is written.
ghost use Rattle.std.specs.Prelude.{◌≡◌, ◌≤◌, Bool, true, false};
ghost use Rattle.lists.specs.Lists.{pick};
ghost use Rattle.stored_rows.specs.Steps.{even_rows, position_of, row_at_position, source_row, written_byte, IsRow};

// A direction; `back` is false for storing, true for the way back.
pub trait Direction {
    ghost back: { Bool };

    // What is written for a byte, by the pixel left of it.
    fn written(left: u8, byte: u8) -> u8
        ensures { result ≡ written_byte back left byte };

    // Which of the byte that was read and the one that was written is the pixel.
    fn pixel(read: u8, written: u8) -> u8
        ensures { result ≡ pick back written read };

    // The row that is read for row i of what is written.
    fn source_row(h: u32, i: u32) -> u32
        requires { IsRow h i }
        ensures { result ≡ source_row back h i };
}

// Storing: each pixel by its difference from its left neighbour modulo 256, and the even rows first.
pub struct Store;

impl Direction for Store {
    ghost back = { false };

    fn written(left: u8, byte: u8) -> u8 {
        byte.wrapping_sub(left)
    }

    fn pixel(read: u8, _written: u8) -> u8 {
        read
    }

    fn source_row(h: u32, i: u32) -> u32 {
        row_at_position(h, i)
    }
}

// The way back: each pixel from its difference and its left neighbour, and the rows in their order.
pub struct Restore;

impl Direction for Restore {
    ghost back = { true };

    fn written(left: u8, byte: u8) -> u8 {
        left.wrapping_add(byte)
    }

    fn pixel(_read: u8, written: u8) -> u8 {
        written
    }

    fn source_row(h: u32, i: u32) -> u32 {
        position_of(h, i)
    }
}

// How many of h rows are even.
fn even_rows(h: u32) -> u32
    requires { h ≤ 40 }
    ensures { result ≡ even_rows h }
{
    (h + 1) / 2
}

// The row at a position of the store: the even rows, then the odd ones.
fn row_at_position(h: u32, i: u32) -> u32
    requires { IsRow h i }
    ensures { result ≡ row_at_position h i }
{
    let evens = even_rows(h);
    if i < evens {
        2 * i
    } else {
        2 * (i - evens) + 1
    }
}

// The position of a row in the store.
fn position_of(h: u32, r: u32) -> u32
    requires { IsRow h r }
    ensures { result ≡ position_of h r }
{
    if r % 2 == 0 {
        r / 2
    } else {
        even_rows(h) + r / 2
    }
}
