// Prints the hold list of the file on standard input, or its refusal. An argument is a least size:
// the list is that of the picture filled with it.
#![tactic(auto)]

use hold_list::put_text;
use std::env::{Env, FillError};

// How many words the program was started with, its own name among them.
fn word_count(rt: &impl Env) -> usize {
    let mut byte = [0u8; 1];
    for i in 0..usize::MAX {
        if matches!(rt.arg(i, &mut byte), Err(FillError::NotPresent)) {
            return i;
        }
    }
    usize::MAX
}

fn main(rt: HostRuntime) {
    let mut input = [0u8; 4097];
    let count = io::read_full(0, &mut input);
    // One byte more than a size has digits: of a longer argument `arg` answers no bytes, which are
    // refused like six.
    let mut argument = [0u8; 6];
    let length = rt.arg(1, &mut argument).unwrap_or(0);
    let mut out = [0u8; 59264];
    let end = put_text(
        &input,
        count,
        word_count(&rt),
        &argument[..length],
        &mut out,
    );
    io::write_all(1, &out[..end]);
}
