// The calls for C: numbers and byte memory only, a function for each by name.
#![tactic(auto)]

ghost use Rattle.std.specs.Prelude.{◌≡◌, ◌+◌, ◌≤◌, length};
ghost use Rattle.picture.specs.Pictures.{picture_of};
ghost use Rattle.lists.specs.Writing.{Written};
ghost use Rattle.refusals.specs.Refusals.{fault_of};
ghost use Rattle.board_c.specs.CalledByC.{pair, ReadForC, WatershedForC, PlaceForC};

use board::{patch_number, query_place, read_file, watershed_of};
use faults::{place_inside, room, with_output, with_work};
use packing::{pack, unpack};
use refusals::Refusal;
use text::put_little;

// 0, or the number of the refusal.
fn status(answer: Result<(), Refusal>) -> u32
    ensures { result ≡ fault_of answer }
{
    match answer {
        Ok(()) => 0,
        Err(refusal) => u32::from(refusal.number()),
    }
}

// Writes two numbers as eight bytes each, lowest first, and answers the position behind them.
fn put_pair(out: &mut [u8], at: usize, x: u64, y: u64) -> usize
    requires { at + 16 ≤ length out.old }
    ensures { Written at (pair x y) out.old result out.new }
{
    let next = put_little(out, at, x, 8);
    put_little(out, next, y, 8)
}

// Reads a file; writes width, height, largest sample and the pixels' offset.
fn read_bytes(file: &[u8], out: &mut [u8]) -> Result<(), Refusal>
    ensures { ReadForC file.now out.old out.new (fault_of result) }
{
    let header = read_file(file)?;
    room(out.len(), 32)?;
    let next = put_pair(out, 0, u64::from(header.width), u64::from(header.height));
    put_pair(out, next, u64::from(header.largest), header.offset as u64);
    Ok(())
}

// The watershed of a picture; its work is the lent bytes as 16-bit entries, unpacked into a local.
fn watershed_bytes(
    adjacency: u32,
    width: u32,
    height: u32,
    pixels: &[u8],
    out: &mut [u8],
    work: &mut [u8],
) -> Result<(), Refusal>
    ensures { WatershedForC (picture_of adjacency width height pixels.now) out.old out.new work.old work.new (fault_of result) }
{
    let halves = work.len() / 2;
    with_output(adjacency, width, height, pixels, out.len(), halves)?;
    let entries = 5 * pixels.len();
    let mut cells = [0u16; 8000];
    unpack(work, &mut cells, entries);
    watershed_of(adjacency, width, height, pixels, out, &mut cells)?;
    pack(&cells, work, entries);
    Ok(())
}

// The value of the pixel at a place and the number of its patch, 0 for the line.
fn place_bytes(
    adjacency: u32,
    width: u32,
    height: u32,
    pixels: &[u8],
    place: u32,
    out: &mut [u8],
    work: &mut [u8],
) -> Result<(), Refusal>
    ensures { PlaceForC (picture_of adjacency width height pixels.now) place out.old out.new work.old work.new (fault_of result) }
{
    with_work(adjacency, width, height, pixels, work.len() / 2)?;
    room(out.len(), 16)?;
    place_inside(pixels.len(), place)?;
    let entries = 5 * pixels.len();
    let mut cells = [0u16; 8000];
    unpack(work, &mut cells, entries);
    let queried = query_place(adjacency, width, height, pixels, place, &mut cells)?;
    put_pair(
        out,
        0,
        u64::from(queried.value),
        u64::from(patch_number(queried.ground)),
    );
    pack(&cells, work, entries);
    Ok(())
}

// Reading for C.
#[unsafe(no_mangle)]
pub extern "C" fn board_read(file: &[u8], out: &mut [u8]) -> u32
    ensures { ReadForC file.now out.old out.new result }
{
    status(read_bytes(file, out))
}

// The watershed for C.
#[unsafe(no_mangle)]
pub extern "C" fn board_watershed(
    adjacency: u32,
    width: u32,
    height: u32,
    pixels: &[u8],
    out: &mut [u8],
    work: &mut [u8],
) -> u32
    ensures { WatershedForC (picture_of adjacency width height pixels.now) out.old out.new work.old work.new result }
{
    status(watershed_bytes(adjacency, width, height, pixels, out, work))
}

// The place query for C.
#[unsafe(no_mangle)]
pub extern "C" fn board_place(
    adjacency: u32,
    width: u32,
    height: u32,
    pixels: &[u8],
    place: u32,
    out: &mut [u8],
    work: &mut [u8],
) -> u32
    ensures { PlaceForC (picture_of adjacency width height pixels.now) place out.old out.new work.old work.new result }
{
    status(place_bytes(adjacency, width, height, pixels, place, out, work))
}
