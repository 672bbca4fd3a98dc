// The files of the edge cases.
ghost use Rattle.std.specs.Prelude.{◌≡◌, ◌++◌, ◌+◌, ◌≤◌, ◌<◌, length, replicate};
ghost use Rattle.lists.specs.Writing.{Written};
ghost use Rattle.edges.specs.EdgeFiles.{values_of, edge_pixel, edge_pixels, number_lines, edge_file};

use text::{put, put_bytes, put_fields};

// How many values a pixel can have at a largest sample.
fn values_of(largest: u32) -> u32
    ensures value { result ≡ values_of largest }
    ensures lower_bound { (1 ≤ result) × (result ≤ 256) }
{
    if largest < 256 { largest + 1 } else { 256 }
}

// A pixel, one of some values.
fn edge_pixel(values: u32, i: u32) -> u8
    requires { (1 ≤ values) × (values ≤ 256) × (i < 2000) }
    ensures { result ≡ edge_pixel values i }
{
    ((i * i * 31 + i * 17) % values) as u8
}

// Writes the pixels of a file and answers the position behind them.
fn put_pixels(out: &mut [u8], at: usize, values: u32, count: u32) -> usize
    requires { (1 ≤ values) × (values ≤ 256) × (count ≤ 2000) × (at + count ≤ length out.old) }
    ensures { Written at (edge_pixels values count) out.old result out.new }
{
    let mut to = at;
    for i in 0..count {
        to = put(out, to, edge_pixel(values, i));
    }
    to
}

// Writes spaces and answers the position behind them.
fn put_spaces(out: &mut [u8], at: usize, count: usize) -> usize
    requires { (count ≤ 2500) × (at + count ≤ length out.old) }
    ensures { Written at (replicate count 32) out.old result out.new }
{
    let spaces = [b' '; 2500];
    put_bytes(out, at, &spaces[..count])
}

// Writes the sides and the largest sample in two lines and answers the position behind them; they have at most 10 bytes.
fn put_numbers(out: &mut [u8], at: usize, w: u32, h: u32, largest: u32) -> usize
    requires { (w < 100) × (h < 100) × (largest < 1000) × (at + 10 ≤ length out.old) }
    ensures { Written at (number_lines w h largest) out.old result out.new × (result ≤ at + 10) }
{
    let next = put_fields(out, at, &[w, h]);
    put_fields(out, next, &[largest])
}

// Writes a file and answers its length; without pixels and spaces it has at most 13 bytes.
pub fn put_file(out: &mut [u8], w: u32, h: u32, largest: u32, count: u32, spaces: usize) -> usize
    requires { (w < 100) × (h < 100) × (largest < 1000) × (count ≤ 2000) × (spaces ≤ 2500) × (13 + spaces + count ≤ length out.old) }
    ensures { Written 0 (edge_file w h largest count spaces) out.old result out.new }
{
    let first = put_bytes(out, 0, b"P5\n");
    let second = put_spaces(out, first, spaces);
    let third = put_numbers(out, second, w, h, largest);
    put_pixels(out, third, values_of(largest), count)
}

// Writes a header and pixels of any value from a position on and answers the position behind them.
pub fn put_headed(out: &mut [u8], at: usize, header: &[u8], count: u32) -> usize
    requires { (count ≤ 2000) × (at + length header.now + count ≤ length out.old) }
    ensures { Written at (header.now ++ edge_pixels 256 count) out.old result out.new }
{
    let next = put_bytes(out, at, header);
    put_pixels(out, next, 256, count)
}
