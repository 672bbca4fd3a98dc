// The text for a file that is to be saved again: its shortest form, or its refusal.
#![tactic(auto)]

ghost use Rattle.std.specs.Prelude.{◌≡◌, ◌≤◌, ◌<◌, length, take};
ghost use Rattle.lists.specs.Writing.{Written};
ghost use Rattle.hold_lines.specs.Lines.{refused_line};
ghost use Rattle.file_text.specs.FileText.{input_most};
ghost use Rattle.saving.specs.ShortFiles.{file_most};
ghost use Rattle.resaving.specs.Resaved.{resaved_text};
ghost use Rattle.resaving.specs.Steps.{SavesAgain};

use file_text::read_handed;
use hold_lines::put_refusal;
use refusals::Refusal;
use saving::write_file;

// Reads a file and saves its picture again; answers the count of bytes written.
fn save_again(file: &[u8], out: &mut [u8]) -> Result<u16, Refusal>
    requires { file_most ≤ length out.old }
    ensures { SavesAgain file.now out.old out.new result }
{
    let header = read_handed(file)?;
    write_file(
        header.width,
        header.height,
        header.largest,
        &file[header.offset..],
        out,
    )
}

// Writes the text for a file and answers the position behind it.
fn put_file_text(file: &[u8], out: &mut [u8]) -> usize
    requires { file_most ≤ length out.old }
    ensures { Written 0 (resaved_text file.now) out.old result out.new }
{
    match save_again(file, out) {
        Ok(count) => usize::from(count),
        Err(refusal) => put_refusal(out, u32::from(refusal.number())),
    }
}

// Writes the text for the first `count` bytes of an input and answers the position behind it.
// The input has one byte more than a file may have, so that a longer file is seen; a count above
// its length is taken as its length. A header of 13 bytes and 1,600 pixels have room.
pub fn put_text(input: &[u8; 4097], count: usize, out: &mut [u8; 1613]) -> usize
    ensures written { Written 0 (resaved_text (take count input.now)) out.old result out.new }
    ensures input_value { input_most < count → resaved_text (take count input.now) ≡ refused_line 12 }
{
    let length = count.min(input.len());
    put_file_text(&input[..length], out)
}
