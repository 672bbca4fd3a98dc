// The least size that the program's words name.
ghost use Rattle.std.specs.Prelude.{◌≡◌};
ghost use Rattle.hold_list.specs.HoldText.{named_size, asked_size};

use p5::field::digits_at;

// The least size that an argument names: 1 to 5 digits and nothing behind them; else 0, a number like any other, which is refused
// as a size.
fn named_size(argument: &[u8]) -> u32
    ensures { result ≡ named_size argument.now }
{
    match digits_at(argument, 0) {
        Ok(number) if number.end == argument.len() => number.value,
        _ => 0,
    }
}

// The least size that the words name: with two the argument's, else 0.
pub fn asked_size(words: usize, argument: &[u8]) -> u32
    ensures { result ≡ asked_size words argument.now }
{
    if words == 2 { named_size(argument) } else { 0 }
}
