// Prints the file on standard input in its shortest form, or its refusal.
#![tactic(auto)]

use resaving::put_text;

fn main() {
    let mut input = [0u8; 4097];
    let count = io::read_full(0, &mut input);
    let mut out = [0u8; 1613];
    let end = put_text(&input, count, &mut out);
    io::write_all(1, &out[..end]);
}
