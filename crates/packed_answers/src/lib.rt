// Answers packed into one number, for C. Three functions, since each answer has a layout of its own.
#![tactic(auto)]

ghost use Rattle.std.specs.Prelude.{◌≡◌, ◌*◌, ◌%◌, ◌<◌, IfErr};
ghost use Rattle.refusals.specs.Refusals.{number_of, place_of};
ghost use Rattle.answers.specs.Answers.{answer_of};
ghost use Rattle.saving.specs.Calls.{saved_of};
ghost use Rattle.board.specs.Calls.{queried_of};
ghost use Rattle.packed_answers.specs.Packed.{two_to_32, two_to_16, answer_in, queried_in, ground_by_number, saved_in};

use board::{Queried, patch_number};
use refusals::Refusal;

// 2 to the power 32.
const TWO_TO_32: u64 = 4294967296;

// 2 to the power 16.
const TWO_TO_16: u64 = 65536;

// A refusal's number above 32 bits.
fn packed_refusal(refusal: Refusal) -> u64
    ensures { result ≡ number_of refusal * two_to_32 }
{
    u64::from(refusal.number()) * TWO_TO_32
}

// The refusal's number above 32 bits, or the value in them.
pub fn packed(answer: Result<u32, Refusal>) -> u64
    ensures { answer_in result ≡ answer_of answer }
{
    match answer {
        Ok(value) => u64::from(value),
        Err(refusal) => packed_refusal(refusal),
    }
}

// The refusal's number above 32 bits; or the pixel's value above 16 bits, and the patch's number in those.
pub fn packed_query(answer: Result<Queried, Refusal>) -> u64
    ensures { queried_in result ≡ ground_by_number (queried_of answer) }
{
    match answer {
        Ok(queried) => {
            u64::from(queried.value) * TWO_TO_16 + u64::from(patch_number(queried.ground))
        }
        Err(refusal) => packed_refusal(refusal),
    }
}

// The refusal's number above 32 bits and its place above 16 bits, or the count of bytes in those. Of a place the lowest 16 bits are kept;
// a place of saving has no more.
pub fn packed_saved(answer: Result<u16, Refusal>) -> u64
    ensures number { (saved_in result).number ≡ (saved_of answer).number }
    ensures place { (saved_in result).place ≡ (saved_of answer).place % two_to_16 }
    ensures count { (saved_in result).count ≡ (saved_of answer).count }
    ensures whole { IfErr answer (λ e. place_of e < 65536) → saved_in result ≡ saved_of answer }
{
    match answer {
        Ok(count) => u64::from(count),
        Err(refusal) => { packed_refusal(refusal) + refusal.place() as u64 % TWO_TO_16 * TWO_TO_16 }
    }
}
