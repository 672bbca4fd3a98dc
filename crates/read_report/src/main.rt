// Prints what reading answers for the first 65,536 bytes of standard input: number, place, width, height, largest sample, offset.
#![tactic(auto)]

ghost use Rattle.std.specs.Prelude.{◌≡◌, ◌≤◌, take};
ghost use Rattle.io.specs.Counts.{IsPrefixLen};
ghost use Rattle.p5.specs.Files.{place_of, header_of};
ghost use Rattle.text.specs.Decimal.{fields};
ghost use Rattle.lists.specs.Writing.{Written};
ghost use Rattle.read_report.specs.Reports.{line_in, report};

use board::{Header, Refusal, read_file};
use text::put_fields;

// The six numbers of an answer: a refusal's number and place, or an accepted file's sides, largest sample and offset.
fn line_of(answer: Result<Header, Refusal>) -> [u32; 6]
    requires { (place_of answer ≤ 65536) × ((header_of answer).offset ≤ 65536) }
    ensures { result ≡ line_in answer }
{
    match answer {
        Ok(header) => [
            0,
            0,
            header.width,
            header.height,
            header.largest,
            header.offset as u32,
        ],
        Err(refusal) => [
            u32::from(refusal.number()),
            refusal.place() as u32,
            0,
            0,
            0,
            0,
        ],
    }
}

// Writes the line of the file in the first `count` bytes of an input and answers the position behind it.
// A count above the input's length is taken as its length; six numbers of at most ten digits have room in 66 bytes.
fn put_report(input: &[u8; 65536], count: usize, out: &mut [u8; 66]) -> usize
    ensures written { Written 0 (fields (report (take count input.now))) out.old result out.new }
    ensures prefix_len { IsPrefixLen result out.new }
{
    let length = count.min(input.len());
    let line = line_of(read_file(&input[..length]));
    put_fields(out, 0, &line)
}

fn main() {
    let mut input = io::large_buffer();
    let count = io::read_full(0, &mut input);
    let mut out = [0u8; 66];
    let end = put_report(&input, count, &mut out);
    io::write_all(1, &out[..end]);
}
