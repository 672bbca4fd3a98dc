// The text for a whole file: its refusal, or the hold list of its picture or of the filled one.
#![tactic(auto)]

use argument::asked_size;
use faults::size_inside;
use file_text::read_handed;
use filling::whole::fill_core;
use geometry::adjacency::Adjacency;
use geometry::grid::Grid;
use geometry::raster::Raster;
use hold_lines::{PatchFigures, put_head, put_lines, put_refusal};
use p5::header::Header;
use patches::cores::patch_figures;
use patches::places::count_line;
use watershed::whole::watershed_core;

mod argument;

ghost use Rattle.std.specs.Prelude.{◌≡◌, ◌≤◌, ◌<◌, length, take, Ok};
ghost use Rattle.picture.specs.Pictures.{places};
ghost use Rattle.geometry.specs.Rasters.{picture};
ghost use Rattle.patches.specs.Figures.{Figures};
ghost use Rattle.patch_numbers.specs.Numbers.{FiveBlocks};
ghost use Rattle.lists.specs.Writing.{Written};
ghost use Rattle.hold_lines.specs.Lines.{refused_line};
ghost use Rattle.p5.specs.Files.{read_file};
ghost use Rattle.file_text.specs.FileText.{input_most};
ghost use Rattle.hold_list.specs.HoldText.{patch_list, hold_list, filled_list, picture_in, program_text};
ghost use Rattle.hold_list.specs.Steps.{asked_list};

// Writes the list of the patches of a picture from their figures, and answers the position behind it.
fn put_list(raster: &Raster, count: usize, work: &[u16], cells: &[u16], out: &mut [u8]) -> usize
    requires { FiveBlocks (places (picture raster.now)) work.now cells.now × Figures (picture raster.now) count work.now cells.now × (59264 ≤ length out.old) }
    ensures { Written 0 (patch_list (picture raster.now)) out.old result out.new }
{
    let grid = raster.grid;
    let line = count_line(cells);
    let next = put_head(out, grid.width, grid.height, count as u32, line as u32);
    let figures = PatchFigures {
        entries: work,
        n: raster.pixels.len(),
        count,
    };
    put_lines(out, next, &figures)
}

// Writes the list of the patches of a picture, and answers the position behind it.
fn put_patches(raster: &Raster, work: &mut [u16], cells: &mut [u16], out: &mut [u8]) -> usize
    requires { FiveBlocks (places (picture raster.now)) work.old cells.old × (59264 ≤ length out.old) }
    ensures { Written 0 (patch_list (picture raster.now)) out.old result out.new }
{
    let count = patch_figures(raster, work, cells);
    put_list(raster, count, work, cells, out)
}

// Writes the hold list of a picture, the patches of its watershed, with lent memory, and answers the position behind it.
fn put_holds_with(
    raster: &Raster,
    water: &mut [u8],
    work: &mut [u16],
    cells: &mut [u16],
    out: &mut [u8],
) -> usize
    requires { (length water.old ≡ places (picture raster.now)) × FiveBlocks (places (picture raster.now)) work.old cells.old × (59264 ≤ length out.old) }
    ensures { Written 0 (hold_list (picture raster.now)) out.old result out.new }
{
    watershed_core(raster, water, work);
    let watershed = Raster {
        grid: raster.grid,
        pixels: water,
    };
    put_patches(&watershed, work, cells, out)
}

// Writes the hold list of a picture, and answers the position behind it.
fn put_holds(raster: &Raster, out: &mut [u8]) -> usize
    requires { 59264 ≤ length out.old }
    ensures { Written 0 (hold_list (picture raster.now)) out.old result out.new }
{
    let n = raster.pixels.len();
    let whole = 5 * n;
    let mut water = [0u8; 1600];
    let mut work = [0u16; 8000];
    let mut cells = [0u16; 1600];
    put_holds_with(
        raster,
        &mut water[..n],
        &mut work[..whole],
        &mut cells[..n],
        out,
    )
}

// Writes the hold list of a picture filled with the least size s, or the refusal 13, and answers the position behind it.
fn put_filled(raster: &Raster, s: u32, out: &mut [u8]) -> usize
    requires { 59264 ≤ length out.old }
    ensures { Written 0 (filled_list s (picture raster.now)) out.old result out.new }
{
    let n = raster.pixels.len();
    if let Err(refusal) = size_inside(n, s) {
        return put_refusal(out, u32::from(refusal.number()));
    }
    let whole = 5 * n;
    let mut bytes = [0u8; 1600];
    let mut work = [0u16; 8000];
    fill_core(raster, s as usize, &mut bytes[..n], &mut work[..whole]);
    let filled = Raster {
        grid: raster.grid,
        pixels: &bytes[..n],
    };
    put_holds(&filled, out)
}

// Writes what the words ask for of a picture, and answers the position behind it.
fn put_asked(raster: &Raster, words: usize, argument: &[u8], out: &mut [u8]) -> usize
    requires { 59264 ≤ length out.old }
    ensures { Written 0 (asked_list words argument.now (picture raster.now)) out.old result out.new }
{
    if words < 2 {
        put_holds(raster, out)
    } else {
        put_filled(raster, asked_size(words, argument), out)
    }
}

// Writes what the words ask for of a file's picture with adjacency 4, and answers the position behind it.
fn put_read(header: Header, file: &[u8], words: usize, argument: &[u8], out: &mut [u8]) -> usize
    requires { (read_file file.now ≡ Ok header) × (59264 ≤ length out.old) }
    ensures { Written 0 (asked_list words argument.now (picture_in file.now)) out.old result out.new }
{
    let grid = Grid {
        adjacency: Adjacency::Four,
        width: header.width,
        height: header.height,
    };
    let raster = Raster {
        grid,
        pixels: &file[header.offset..],
    };
    put_asked(&raster, words, argument, out)
}

// Writes the text for a file and answers the position behind it.
fn put_file_text(file: &[u8], words: usize, argument: &[u8], out: &mut [u8]) -> usize
    requires { 59264 ≤ length out.old }
    ensures { Written 0 (program_text words argument.now file.now) out.old result out.new }
{
    match read_handed(file) {
        Ok(header) => put_read(header, file, words, argument, out),
        Err(refusal) => put_refusal(out, u32::from(refusal.number())),
    }
}

// Writes the text for the first `count` bytes of an input and answers the position behind it.
// The input has one byte more than a file may have, so that a longer file is seen; a count above
// its length is taken as its length.
// `words` counts what the program is started with, its own name too; `argument` is the second.
// 64 bytes and 37 for each of 1,600 patches are room for every text.
pub fn put_text(
    input: &[u8; 4097],
    count: usize,
    words: usize,
    argument: &[u8],
    out: &mut [u8; 59264],
) -> usize
    ensures written { Written 0 (program_text words argument.now (take count input.now)) out.old result out.new }
    ensures input_value { input_most < count → program_text words argument.now (take count input.now) ≡ refused_line 12 }
{
    let length = count.min(input.len());
    put_file_text(&input[..length], words, argument, out)
}
