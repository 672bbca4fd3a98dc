// Numbers and bytes written as text behind one another in lent memory; not by `write!`, since contracts name the bytes.
#![tactic(auto)]

ghost use Rattle.std.specs.Prelude.{[], ◌∷◌, ◌++◌, suc, ◌+◌, ◌<◌, ◌≤◌, length};
ghost use Rattle.text.specs.Decimal.{decimal, fields};
ghost use Rattle.text.specs.Little.{little_endian};
ghost use Rattle.lists.specs.Writing.{Written};

// Writes one byte and answers the position behind it.
pub fn put(out: &mut [u8], at: usize, byte: u8) -> usize
    requires { at < length out.old }
    ensures { Written at (byte ∷ []) out.old result out.new }
{
    out[at] = byte;
    at + 1
}

// Writes the bytes of a text and answers the position behind them. A loop, for the reason that is given at `cells::copy`.
pub fn put_bytes(out: &mut [u8], at: usize, bytes: &[u8]) -> usize
    requires { at + length bytes.now ≤ length out.old }
    ensures { Written at bytes.now out.old result out.new }
{
    for (i, byte) in bytes.iter().enumerate() {
        out[at + i] = *byte;
    }
    at + bytes.len()
}

// Writes a number in decimal digits and answers the position behind them.
pub fn put_number(out: &mut [u8], at: usize, n: u32) -> usize
    requires { at + length (decimal n) ≤ length out.old }
    ensures { Written at (decimal n) out.old result out.new }
{
    if n < 10 {
        put(out, at, b'0' + n as u8)
    } else {
        let next = put_number(out, at, n / 10);
        put(out, next, b'0' + (n % 10) as u8)
    }
}

// Writes a number and one byte behind it, and answers the position behind both.
fn put_field(out: &mut [u8], at: usize, n: u32, byte: u8) -> usize
    requires { at + suc (length (decimal n)) ≤ length out.old }
    ensures { Written at (decimal n ++ (byte ∷ [])) out.old result out.new }
{
    let next = put_number(out, at, n);
    put(out, next, byte)
}

// Writes numbers parted by single spaces, then byte 10, and answers the position behind them.
pub fn put_fields(out: &mut [u8], at: usize, ns: &[u32]) -> usize
    requires { (1 ≤ length ns.now) × (at + length (fields ns.now) ≤ length out.old) }
    ensures { Written at (fields ns.now) out.old result out.new }
{
    let last = ns.len() - 1;
    let mut to = at;
    for n in &ns[..last] {
        to = put_field(out, to, *n, b' ');
    }
    put_field(out, to, ns[last], b'\n')
}

// Writes a word, then numbers as a line, and answers the position behind them.
pub fn put_word(out: &mut [u8], at: usize, word: &[u8], ns: &[u32]) -> usize
    requires { (1 ≤ length ns.now) × (at + length word.now + length (fields ns.now) ≤ length out.old) }
    ensures { Written at (word.now ++ fields ns.now) out.old result out.new }
{
    let next = put_bytes(out, at, word);
    put_fields(out, next, ns)
}

// Writes a number as l bytes, the lowest first, and answers the position behind them; by hand, since l may be above the 8 bytes of
// `to_le_bytes`.
pub fn put_little(out: &mut [u8], at: usize, n: u64, l: usize) -> usize
    requires { at + l ≤ length out.old }
    ensures { Written at (little_endian l n) out.old result out.new }
{
    let mut to = at;
    let mut rest = n;
    for _ in 0..l {
        to = put(out, to, (rest % 256) as u8);
        rest /= 256;
    }
    to
}
