// A file that a program is handed: refused if it is too long, else read.
#![tactic(auto)]

ghost use Rattle.std.specs.Prelude.{◌≡◌};
ghost use Rattle.file_text.specs.Handed.{handed};

use p5::file::read;
use p5::header::Header;
use refusals::Refusal;

// The most bytes of input that a program takes.
const INPUT_MOST: usize = 4096;

// Reads a file that a program is handed: 12 if it is too long, before all that reading refuses.
pub fn read_handed(file: &[u8]) -> Result<Header, Refusal>
    ensures { result ≡ handed file.now }
{
    if INPUT_MOST < file.len() {
        return Err(Refusal::InputTooLong);
    }
    read(file)
}
