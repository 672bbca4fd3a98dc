// One number of the header, with the gap before it.
ghost use Rattle.std.specs.Prelude.{◌≡◌, true, false, ◌+◌, ◌≤◌, length, take, drop};
ghost use Rattle.std.specs.List.{prefix_len};
ghost use Rattle.lists.specs.Lists.{all};
ghost use Rattle.p5.specs.Headers.{comment_after, is_blank, blank_length, gap_end, is_digit, decimal_value, digits_at, number_at};

use crate::characters::{ends_line, is_digit, is_white, white_at};

// The most digits of a number.
const MOST_DIGITS: usize = 5;

// A number of the header, and the position after it.
#[derive(Clone, Copy)]
pub struct Number {
    pub value: u32,
    pub end: usize,
}

// Whether a comment runs after a byte, by whether one ran before it.
fn comment_after(comment: bool, byte: u8) -> bool
    ensures { result ≡ comment_after comment byte }
{
    if comment {
        !ends_line(byte)
    } else {
        byte == b'#'
    }
}

// White space, # or, while a comment runs, any byte.
fn is_blank(comment: bool, byte: u8) -> bool
    ensures { result ≡ is_blank comment byte }
{
    comment || is_white(byte) || byte == b'#'
}

// The bytes from a position on; beyond the file there are none.
fn bytes_from(file: &[u8], at: usize) -> &[u8]
    ensures { result.now ≡ drop at file.now }
{
    &file[at.min(file.len())..]
}

// How many bytes at the front are white space and comments.
fn blank_length(bytes: &[u8]) -> usize
    ensures { result ≡ blank_length false bytes.now }
{
    let mut comment = false;
    for (i, byte) in bytes.iter().enumerate() {
        if !is_blank(comment, *byte) {
            return i;
        }
        comment = comment_after(comment, *byte);
    }
    bytes.len()
}

// The gap before a number: the position after it, `at` itself where there is none.
fn gap_end(file: &[u8], at: usize) -> usize
    ensures { result ≡ gap_end file.now at }
{
    if white_at(file, at) {
        at + blank_length(bytes_from(file, at))
    } else {
        at
    }
}

// How many bytes at the front are digits, counted to one more than a number may have: what follows decides nothing.
fn digit_count(bytes: &[u8]) -> usize
    ensures { result ≡ prefix_len is_digit (take (MOST_DIGITS + 1) bytes.now) }
{
    bytes
        .iter()
        .take(MOST_DIGITS + 1)
        .take_while(|byte| is_digit(**byte))
        .count()
}

// The value of at most five digits.
fn decimal_value(digits: &[u8]) -> u32
    requires { (length digits.now ≤ MOST_DIGITS) × (all is_digit digits.now ≡ true) }
    ensures { result ≡ decimal_value digits.now }
{
    let mut value = 0;
    for digit in digits {
        value = value * 10 + u32::from(*digit - b'0');
    }
    value
}

// The digits of a number: a missing digit or a sixth one is unfit.
pub fn digits_at(file: &[u8], at: usize) -> Result<Number, usize>
    ensures { result ≡ digits_at file.now at }
{
    let bytes = bytes_from(file, at);
    let count = digit_count(bytes);
    match count {
        0 => Err(at),
        1..=MOST_DIGITS => Ok(Number {
            value: decimal_value(&bytes[..count]),
            end: at + count,
        }),
        _ => Err(at + MOST_DIGITS),
    }
}

// A header number from a position on: its gap, then its digits.
pub fn number_at(file: &[u8], at: usize) -> Result<Number, usize>
    ensures { result ≡ number_at file.now at }
{
    let start = gap_end(file, at);
    if start == at {
        Err(at)
    } else {
        digits_at(file, start)
    }
}
