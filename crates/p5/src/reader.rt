// A reader carries the file and its position. Its methods are thin: all but the walk call a function on the slice and the position.
ghost use Rattle.std.specs.Prelude.{◌≡◌};
ghost use Rattle.p5.specs.Headers.{number_at, end_at, from_width};
ghost use Rattle.p5.specs.Steps.{taken, end_of};

use crate::field::number_at;
use crate::header::{Header, header_end};

// A file and a position in it.
#[derive(Clone, Copy)]
pub struct Reader<'a> {
    pub file: &'a [u8],
    pub at: usize,
}

impl<'a> Reader<'a> {
    // A reader of a file from a position on.
    pub fn new(file: &'a [u8], at: usize) -> Reader<'a>
        ensures { (result.file ≡ file.entry) × (result.at ≡ at) }
    {
        Reader { file, at }
    }

    // The number at the position, with its gap; the position moves behind it, or to the unfit byte.
    pub fn number(&mut self) -> Option<u32>
        ensures file { self.new.file ≡ self.old.file }
        ensures number { result ≡ taken (number_at self.old.file.now self.old.at) }
        ensures at { self.new.at ≡ end_of (number_at self.old.file.now self.old.at) }
    {
        match number_at(self.file, self.at) {
            Ok(number) => {
                self.at = number.end;
                Some(number.value)
            }
            Err(unfit) => {
                self.at = unfit;
                None
            }
        }
    }

    // The white space byte at the position ends the header.
    pub fn end(self, width: u32, height: u32, largest: u32) -> Result<Header, usize>
        ensures { result ≡ end_at self.entry.file.now width height largest self.entry.at }
    {
        header_end(self.file, width, height, largest, self.at)
    }

    // Walks a header from the position on.
    pub fn header(mut self) -> Result<Header, usize>
        ensures { result ≡ from_width self.entry.file.now (number_at self.entry.file.now self.entry.at) }
    {
        let Some(width) = self.number() else {
            return Err(self.at);
        };
        let Some(height) = self.number() else {
            return Err(self.at);
        };
        let Some(largest) = self.number() else {
            return Err(self.at);
        };
        self.end(width, height, largest)
    }
}
