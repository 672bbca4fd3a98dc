// The rows of a picture as they are stored, the even ones first and each pixel by its difference from its left neighbour, and the way back.
#![tactic(auto)]

use direction::{Direction, Restore, Store};
use faults::{room, sides};
use refusals::Refusal;
use rows::put_rows;

mod direction;
mod rows;

ghost use Rattle.std.specs.Prelude.{◌≡◌};
ghost use Rattle.answers.specs.Answers.{answer_of};
ghost use Rattle.refusals.specs.Refusals.{fault_of};
ghost use Rattle.stored_rows.specs.Calls.{rows_fault, StoreSays, RestoreSays};
ghost use Rattle.stored_rows.specs.Steps.{ConvertSays};

// Two sides, a count of bytes and the output's length are not refused.
fn rows_refusal(w: u32, h: u32, count: usize, length: usize) -> Result<(), Refusal>
    ensures { fault_of result ≡ rows_fault w h count length }
{
    sides(w, h, count)?;
    room(length, count)
}

// The call in either direction; it counts nothing and answers 0, one number for all calls, as C gets it.
fn convert_rows<D: Direction>(
    width: u32,
    height: u32,
    bytes: &[u8],
    out: &mut [u8],
) -> Result<u32, Refusal>
    ensures { ConvertSays D.back width height bytes.now out.old out.new (answer_of result) }
{
    rows_refusal(width, height, bytes.len(), out.len())?;
    put_rows::<D>(width, height, bytes, out);
    Ok(0)
}

// Stores the rows of a picture: the output receives their stored form.
pub fn store_rows(width: u32, height: u32, pixels: &[u8], out: &mut [u8]) -> Result<u32, Refusal>
    ensures { StoreSays width height pixels.now out.old out.new (answer_of result) }
{
    convert_rows::<Store>(width, height, pixels, out)
}

// The way back: the output receives the pixels of which the lent bytes are the stored form.
pub fn restore_rows(width: u32, height: u32, stored: &[u8], out: &mut [u8]) -> Result<u32, Refusal>
    ensures { RestoreSays width height stored.now out.old out.new (answer_of result) }
{
    convert_rows::<Restore>(width, height, stored, out)
}
