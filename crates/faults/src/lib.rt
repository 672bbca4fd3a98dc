// What a call refuses, decided from numbers and lengths alone: the first cause in the scope document's order. Where none applies, the call's picture as
// a raster. The arguments are the calls' own, since these functions are their test.
#![tactic(auto)]

pub use crate::picture_fault::{raster, sides};
use geometry::raster::Raster;
use refusals::Refusal;

mod picture_fault;

ghost use Rattle.std.specs.Prelude.{IfOk, ◌≡◌, ◌*◌, ◌≤◌, ◌<◌, ◌||◌, min, length, ltb, leb};
ghost use Rattle.picture.specs.Pictures.{picture_of, places};
ghost use Rattle.geometry.specs.Rasters.{picture};
ghost use Rattle.refusals.specs.Refusals.{fault_of};
ghost use Rattle.faults.specs.PictureFault.{when};
ghost use Rattle.faults.specs.Faults.{work_fault, output_fault, place_fault, size_unfit, size_fault};
ghost use Rattle.faults.specs.Steps.{Admits};

// Lent memory has the entries that are needed, else 9.
pub fn room(length: usize, needed: usize) -> Result<(), Refusal>
    ensures { fault_of result ≡ when (ltb length needed) 9 }
{
    if length < needed {
        Err(Refusal::MemoryShort)
    } else {
        Ok(())
    }
}

// A place is below n, else 10.
pub fn place_inside(n: usize, place: u32) -> Result<(), Refusal>
    ensures { fault_of result ≡ when (leb n place) 10 }
{
    if n <= place as usize {
        Err(Refusal::PlaceOutside)
    } else {
        Ok(())
    }
}

// Two places are below n, else 10.
pub fn places_inside(n: usize, x: u32, y: u32) -> Result<(), Refusal>
    ensures { fault_of result ≡ when (leb n x || leb n y) 10 }
{
    place_inside(n, x)?;
    place_inside(n, y)
}

// A least size is 1 to n, else 13.
pub fn size_inside(n: usize, s: u32) -> Result<(), Refusal>
    ensures { fault_of result ≡ when (size_unfit n s) 13 }
{
    if s == 0 || n < s as usize {
        Err(Refusal::SizeOutside)
    } else {
        Ok(())
    }
}

// A call that lends work of some length.
pub fn with_work<'a>(
    adjacency: u32,
    width: u32,
    height: u32,
    pixels: &'a [u8],
    work: usize,
) -> Result<Raster<'a>, Refusal>
    ensures admits { Admits (picture_of adjacency width height pixels.now) (work_fault adjacency width height (length pixels.now) work) result }
    ensures room { IfOk result (λ raster. (places (picture raster) ≡ length pixels.now) × (length pixels.now ≤ 1600) × (5 * length pixels.now ≤ work)) }
{
    let raster = raster(adjacency, width, height, pixels)?;
    room(work, 5 * pixels.len())?;
    Ok(raster)
}

// A call that lends work, and output or lists of a least length.
pub fn with_output<'a>(
    adjacency: u32,
    width: u32,
    height: u32,
    pixels: &'a [u8],
    out: usize,
    work: usize,
) -> Result<Raster<'a>, Refusal>
    ensures admits { Admits (picture_of adjacency width height pixels.now) (output_fault adjacency width height (length pixels.now) out work) result }
    ensures room { IfOk result (λ raster. (places (picture raster) ≡ length pixels.now) × (length pixels.now ≤ 1600) × (5 * length pixels.now ≤ work) × (length pixels.now ≤ out)) }
{
    let raster = with_work(adjacency, width, height, pixels, work)?;
    room(out, pixels.len())?;
    Ok(raster)
}

// A call that lends work and the four lists of a tree.
pub fn with_tree<'a>(
    adjacency: u32,
    width: u32,
    height: u32,
    pixels: &'a [u8],
    heights: usize,
    fathers: usize,
    firsts: usize,
    map: usize,
    work: usize,
) -> Result<Raster<'a>, Refusal>
    ensures admits { Admits (picture_of adjacency width height pixels.now) (output_fault adjacency width height (length pixels.now) (min (min heights fathers) (min firsts map)) work) result }
    ensures room { IfOk result (λ raster. (places (picture raster) ≡ length pixels.now) × (length pixels.now ≤ 1600) × (5 * length pixels.now ≤ work) × (length pixels.now ≤ heights) × (length pixels.now ≤ fathers) × (length pixels.now ≤ firsts) × (length pixels.now ≤ map)) }
{
    let shortest = least(heights, fathers, firsts, map);
    with_output(adjacency, width, height, pixels, shortest, work)
}

// A call that lends work and names a place.
pub fn with_place<'a>(
    adjacency: u32,
    width: u32,
    height: u32,
    pixels: &'a [u8],
    work: usize,
    place: u32,
) -> Result<Raster<'a>, Refusal>
    ensures admits { Admits (picture_of adjacency width height pixels.now) (place_fault adjacency width height (length pixels.now) work place) result }
    ensures room { IfOk result (λ raster. (places (picture raster) ≡ length pixels.now) × (length pixels.now ≤ 1600) × (5 * length pixels.now ≤ work) × (place < length pixels.now)) }
{
    let raster = with_work(adjacency, width, height, pixels, work)?;
    place_inside(pixels.len(), place)?;
    Ok(raster)
}

// A call that lends work and output and names a least size of parts.
pub fn with_size<'a>(
    adjacency: u32,
    width: u32,
    height: u32,
    pixels: &'a [u8],
    out: usize,
    work: usize,
    s: u32,
) -> Result<Raster<'a>, Refusal>
    ensures admits { Admits (picture_of adjacency width height pixels.now) (size_fault adjacency width height (length pixels.now) out work s) result }
    ensures room { IfOk result (λ raster. (places (picture raster) ≡ length pixels.now) × (length pixels.now ≤ 1600) × (5 * length pixels.now ≤ work) × (length pixels.now ≤ out) × (1 ≤ s) × (s ≤ length pixels.now)) }
{
    let raster = with_output(adjacency, width, height, pixels, out, work)?;
    size_inside(pixels.len(), s)?;
    Ok(raster)
}

// The least of four lengths.
pub fn least(a: usize, b: usize, c: usize, d: usize) -> usize
    ensures { result ≡ min (min a b) (min c d) }
{
    a.min(b).min(c.min(d))
}
