// The header of a P5 file: three numbers and one white space byte.
ghost use Rattle.std.specs.Prelude.{◌≡◌};
ghost use Rattle.p5.specs.Headers.{walk, end_at};

use crate::characters::white_at;
use crate::reader::Reader;

// The numbers of a header, and where the pixels begin.
#[derive(Clone, Copy)]
pub struct Header {
    pub width: u32,
    pub height: u32,
    pub largest: u32,
    pub offset: usize,
}

// The white space byte after the third number ends the header.
pub fn header_end(
    file: &[u8],
    width: u32,
    height: u32,
    largest: u32,
    at: usize,
) -> Result<Header, usize>
    ensures { result ≡ end_at file.now width height largest at }
{
    if !white_at(file, at) {
        return Err(at);
    }
    Ok(Header {
        width,
        height,
        largest,
        offset: at + 1,
    })
}

// Walks the header of a file that begins with P5; answers it, or the unfit position.
pub fn walk_header(file: &[u8]) -> Result<Header, usize>
    ensures { result ≡ walk file.now }
{
    Reader::new(file, 2).header()
}
