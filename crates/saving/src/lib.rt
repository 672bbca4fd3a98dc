// A picture saved as a P5 file with the shortest header.
#![tactic(auto)]

ghost use Rattle.std.specs.Prelude.{◌≡◌, ◌++◌, ◌+◌, ◌<◌, ◌≤◌, length};
ghost use Rattle.lists.specs.Lists.{over};
ghost use Rattle.lists.specs.Writing.{Written};
ghost use Rattle.saving.specs.ShortFiles.{short_header, header_most};
ghost use Rattle.saving.specs.Calls.{saved_of, SaveSays};
ghost use Rattle.saving.specs.Steps.{refusal_of, ContentSays};

use faults::room;
use p5::file::P5;
use p5::samples::{count_fits, first_above, largest_fits};
use ranges::sides_fit;
use refusals::Refusal;
use text::{put, put_bytes, put_fields};

// The most bytes of a header: P5 and byte 10, two sides of two digits and a largest sample of three, each with one byte behind it.
const HEADER_MOST: usize = 13;

// What is to be saved is not refused with 3, 4, 8 or 6. Not the reader's test: too many or few pixels are refused with 5 there.
fn content_refusal(width: u32, height: u32, largest: u32, pixels: &[u8]) -> Result<(), Refusal>
    ensures { ContentSays width height largest pixels.now (refusal_of result) }
{
    if !sides_fit(width, height) {
        return Err(Refusal::SideOutside);
    }
    if !largest_fits(largest) {
        return Err(Refusal::LargestOutside);
    }
    if !count_fits(width, height, pixels.len()) {
        return Err(Refusal::LengthDiffers);
    }
    match first_above(pixels, largest) {
        None => Ok(()),
        Some(place) => Err(Refusal::PixelAbove(place)),
    }
}

// Writes the shortest header and answers the position behind it.
fn put_header(out: &mut [u8], width: u32, height: u32, largest: u32) -> usize
    requires { (width < 100) × (height < 100) × (largest < 1000) × (header_most ≤ length out.old) }
    ensures { Written 0 (short_header width height largest) out.old result out.new × (result ≤ header_most) }
{
    let next = put_bytes(out, 0, &P5);
    let next = put(out, next, 10);
    let next = put_fields(out, next, &[width, height]);
    put_fields(out, next, &[largest])
}

// Writes a header and the pixels behind it, in front of what is in the output.
fn put_file(out: &mut [u8], header: &[u8], pixels: &[u8])
    requires { length header.now + length pixels.now ≤ length out.old }
    ensures { out.new ≡ over (header.now ++ pixels.now) out.old }
{
    let next = put_bytes(out, 0, header);
    put_bytes(out, next, pixels);
}

// Saves a picture: the output receives its file, and the count of its bytes is answered. The header is made in a local, so that 9 is decided before
// the output is touched.
pub fn write_file(
    width: u32,
    height: u32,
    largest: u32,
    pixels: &[u8],
    out: &mut [u8],
) -> Result<u16, Refusal>
    ensures { SaveSays width height largest pixels.now out.old out.new (saved_of result) }
{
    content_refusal(width, height, largest, pixels)?;
    let mut header = [0u8; HEADER_MOST];
    let end = put_header(&mut header, width, height, largest);
    let count = end + pixels.len();
    room(out.len(), count)?;
    put_file(out, &header[..end], pixels);
    Ok(count as u16)
}
