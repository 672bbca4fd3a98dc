// The whole file: the letters P5, the header, the ranges, the pixels' count and the pixels.
ghost use Rattle.std.specs.Prelude.{◌≡◌};
ghost use Rattle.p5.specs.Headers.{begins_p5};
ghost use Rattle.p5.specs.Files.{on_pixels, on_header, read_file};

use crate::header::{Header, walk_header};
use crate::samples::{count_fits, first_above, largest_fits};
use ranges::sides_fit;
use refusals::Refusal;

// The first two bytes of a file.
pub const P5: [u8; 2] = *b"P5";

// The file begins with the letters P5.
pub fn begins_p5(file: &[u8]) -> bool
    ensures { result ≡ begins_p5 file.now }
{
    file.starts_with(&P5)
}

// The answer of the pixels.
pub fn on_pixels(header: Header, pixels: &[u8]) -> Result<Header, Refusal>
    ensures { result ≡ on_pixels header pixels.now }
{
    match first_above(pixels, header.largest) {
        None => Ok(header),
        Some(place) => Err(Refusal::PixelAbove(place)),
    }
}

// The answer of a walked header and what follows it.
pub fn on_header(header: Header, pixels: &[u8]) -> Result<Header, Refusal>
    ensures { result ≡ on_header header pixels.now }
{
    if !sides_fit(header.width, header.height) {
        return Err(Refusal::SideOutside);
    }
    if !largest_fits(header.largest) {
        return Err(Refusal::LargestOutside);
    }
    if !count_fits(header.width, header.height, pixels.len()) {
        return Err(Refusal::CountDiffers);
    }
    on_pixels(header, pixels)
}

// Reads one file. A match on the walk: under `map_err` and `?` the goal stayed open.
pub fn read(file: &[u8]) -> Result<Header, Refusal>
    ensures { result ≡ read_file file.now }
{
    if !begins_p5(file) {
        return Err(Refusal::NotP5);
    }
    match walk_header(file) {
        Ok(header) => on_header(header, &file[header.offset..]),
        Err(place) => Err(Refusal::Malformed(place)),
    }
}
