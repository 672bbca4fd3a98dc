// Prints for each edge case its name, then what `holds` prints for its file and argument; of a handbook what a touch answers.
#![tactic(auto)]

use board::{Queried, Refusal, patch_number, touch_place};
use files::{put_file, put_headed};
use hold_list::put_text;
use text::{put_bytes, put_number, put_word};

mod files;

ghost use Rattle.std.specs.Prelude.{◌+◌, ◌<◌, ◌≤◌, length};
ghost use Rattle.text.specs.Decimal.{fields};

// How many words `holds` is started with, its own name too: with no argument, with one, with two.
const ALONE: usize = 1;

const ONE_ARGUMENT: usize = 2;

const TWO_ARGUMENTS: usize = 3;

// The bytes of a file of 40 by 40 pixels without spaces.
const LARGEST_FILE: usize = 1613;

// The pixels of the picture of 3 by 2.
const SMALL_AREA: u32 = 6;

// Prints the name of a case: a word and numbers.
fn print_name(word: &[u8], numbers: &[u32])
    requires { (1 ≤ length numbers.now) × (length word.now + length (fields numbers.now) ≤ 64) }
{
    let mut name = [0u8; 64];
    let end = put_word(&mut name, 0, word, numbers);
    io::write_all(1, &name[..end]);
}

// Prints the name of a case: a word and a number.
fn print_numbered(word: &[u8], number: u32)
    requires { (length word.now ≤ 9) × (number < 100000) }
{
    print_name(word, &[number]);
}

// Prints what `holds` prints for the first `count` bytes of an input, started with some words, of
// which the second is the argument.
fn print_text(input: &[u8; 4097], count: usize, words: usize, argument: &[u8]) {
    let mut out = [0u8; 59264];
    let end = put_text(input, count, words, argument, &mut out);
    io::write_all(1, &out[..end]);
}

// The same for a file of some sides, largest sample, number of pixels and spaces.
fn print_file(
    w: u32,
    h: u32,
    largest: u32,
    count: u32,
    spaces: usize,
    words: usize,
    argument: &[u8],
)
    requires { (w < 100) × (h < 100) × (largest < 1000) × (count ≤ 2000) × (spaces ≤ 2500) × (13 + spaces + count ≤ 4097) }
{
    let mut input = [0u8; 4097];
    let end = put_file(&mut input, w, h, largest, count, spaces);
    print_text(&input, end, words, argument);
}

// The same for a picture of two sides and values up to 255.
fn print_picture(w: u32, h: u32, words: usize, argument: &[u8])
    requires { (w ≤ 41) × (h ≤ 41) }
{
    print_file(w, h, 255, w * h, 0, words, argument);
}

// The case of two sides.
fn print_sides(w: u32, h: u32)
    requires { (w ≤ 41) × (h ≤ 41) }
{
    print_name(b"sides ", &[w, h]);
    print_picture(w, h, ALONE, b"");
}

// The cases of a width with each height.
fn print_heights(w: u32)
    requires { w ≤ 41 }
{
    print_sides(w, 0);
    print_sides(w, 1);
    print_sides(w, 40);
    print_sides(w, 41);
}

// The case of a largest sample: a picture of 3 by 2.
fn print_largest(largest: u32)
    requires { largest ≤ 256 }
{
    print_numbered(b"largest ", largest);
    print_file(3, 2, largest, 6, 0, ALONE, b"");
}

// The case of a number of pixels in a file of 3 by 2.
fn print_pixels(count: u32)
    requires { count ≤ 7 }
{
    print_numbered(b"pixels ", count);
    print_file(3, 2, 255, count, 0, ALONE, b"");
}

// The case of empty input.
fn print_empty() {
    io::write_all(1, b"empty\n");
    let input = [0u8; 4097];
    print_text(&input, 0, ALONE, b"");
}

// The case of a length: a picture of 40 by 40, and spaces.
fn print_bytes(total: u32)
    requires { (4096 ≤ total) × (total ≤ 4097) }
{
    print_numbered(b"bytes ", total);
    print_file(40, 40, 255, 1600, total as usize - LARGEST_FILE, ALONE, b"");
}

// The case of a file: its first bytes, then so many pixels.
fn print_headed(name: &[u8], header: &[u8], count: u32)
    requires { (length header.now ≤ 64) × (count ≤ 6) }
{
    io::write_all(1, name);
    let mut input = [0u8; 4097];
    let end = put_headed(&mut input, 0, header, count);
    print_text(&input, end, ALONE, b"");
}

// The case of a header of 3 by 2, with its pixels.
fn print_header(name: &[u8], header: &[u8])
    requires { length header.now ≤ 64 }
{
    print_headed(name, header, SMALL_AREA);
}

// The case of a whole file of few bytes.
fn print_whole(name: &[u8], file: &[u8])
    requires { length file.now ≤ 64 }
{
    print_headed(name, file, 0);
}

// The case of a length: a picture of 3 by 2, and before its width a comment of bytes #.
fn print_long_comment(total: u32)
    requires { (4096 ≤ total) × (total ≤ 4097) }
{
    print_numbered(b"comment ", total);
    let mut input = [b'#'; 4097];
    put_bytes(&mut input, 0, b"P5\n");
    let rest = b"\n3 2\n255\n";
    let at = (total - SMALL_AREA) as usize - rest.len();
    let end = put_headed(&mut input, at, rest, SMALL_AREA);
    print_text(&input, end, ALONE, b"");
}

// The cases of comments.
fn print_comments() {
    print_header(b"comment first\n", b"P5\n#\n3 2\n255\n");
    print_header(b"comment second\n", b"P5\n3 #\r2\n255\n");
    print_header(b"comment third\n", b"P5\n3 2\n#1#\n\t#2\r255\n");
    print_header(b"comment after P5\n", b"P5#\n3 2\n255\n");
    print_header(b"comment in largest\n", b"P5\n3 2\n2#\n55\n");
    print_header(b"comment after largest\n", b"P5\n3 2\n255#\n\n");
    print_header(b"comment after header\n", b"P5\n3 2\n255\n#\n");
    print_header(b"comment without end\n", b"P5\n3 2\n#255 ");
    print_header(b"comment byte 12\n", b"P5\n#\x0c3 2\n255\n");
    print_header(b"comment byte 32\n", b"P5\n# 3 2\n255\n");
    print_long_comment(4096);
    print_long_comment(4097);
}

// The cases of depths: the deepest hold first, the largest and the least depth of two, equal heights, the deepest hold last.
fn print_rows() {
    print_whole(b"row 0 2 1 9 5\n", b"P5\n5 1\n255\n\x00\x02\x01\x09\x05");
    print_whole(b"row 0 255 0\n", b"P5\n3 1\n255\n\x00\xff\x00");
    print_whole(b"row 254 255 254\n", b"P5\n3 1\n255\n\xfe\xff\xfe");
    print_whole(b"row 2 7 2 5 2\n", b"P5\n5 1\n255\n\x02\x07\x02\x05\x02");
    print_whole(
        b"row 1 3 2 5 4 8 0\n",
        b"P5\n7 1\n255\n\x01\x03\x02\x05\x04\x08\x00",
    );
}

// The case of centres at a half: a hold of four pixels, whose centre is 2.5 and 7.5 tenths.
fn print_halves() {
    print_whole(
        b"centres at a half\n",
        b"P5\n3 3\n255\n\x00\x00\x05\x00\x05\x03\x00\x05\x03",
    );
}

// The case of a least size as the argument, with a picture of two sides.
fn print_size(size: u32, w: u32, h: u32)
    requires { (size < 100000) × (w ≤ 40) × (h ≤ 40) }
{
    print_numbered(b"size ", size);
    let mut argument = [0u8; 5];
    let end = put_number(&mut argument, 0, size);
    print_picture(w, h, ONE_ARGUMENT, &argument[..end]);
}

// The case of an argument, with a picture of 3 by 2.
fn print_argument(name: &[u8], words: usize, argument: &[u8]) {
    io::write_all(1, name);
    print_picture(3, 2, words, argument);
}

// A size that is refused with files that are refused before it.
fn print_refused_files() {
    io::write_all(1, b"size 0 sides 41 41\n");
    print_picture(41, 41, ONE_ARGUMENT, b"0");
    io::write_all(1, b"size 0 bytes 4097\n");
    print_file(40, 40, 255, 1600, 4097 - LARGEST_FILE, ONE_ARGUMENT, b"0");
}

// The cases of an argument.
fn print_arguments() {
    print_size(0, 3, 2);
    print_size(1, 3, 2);
    print_size(6, 3, 2);
    print_size(7, 3, 2);
    print_argument(b"digits 5\n", ONE_ARGUMENT, b"00006");
    print_argument(b"digits 6\n", ONE_ARGUMENT, b"000006");
    print_argument(b"argument empty\n", ONE_ARGUMENT, b"");
    print_argument(b"argument 6x\n", ONE_ARGUMENT, b"6x");
    print_argument(b"arguments 6 6\n", TWO_ARGUMENTS, b"6");
    print_size(1600, 40, 40);
    print_size(1601, 40, 40);
    print_refused_files();
}

// What a touch at a place of the row 0 2 1 9 5 answers by a handbook and an adjacency.
fn touched(handbook: u32, adjacency: u32, place: u32) -> Result<Queried, Refusal> {
    let mut work = [0u16; 25];
    touch_place(
        handbook,
        adjacency,
        5,
        1,
        b"\x00\x02\x01\x09\x05",
        place,
        &mut work,
    )
}

// Prints the patch that a touch belongs to, 0 for the line, then the given text.
fn print_touched(queried: Queried, behind: &[u8]) {
    let number = u32::from(patch_number(queried.ground));
    let mut text = [0u8; 5];
    let end = put_number(&mut text, 0, number);
    io::write_all(1, &text[..end]);
    io::write_all(1, behind);
}

// Prints in a line the patches that touches at the places of the row belong to by a handbook and an adjacency.
fn print_patches(handbook: u32, adjacency: u32) -> Result<(), Refusal> {
    print_touched(touched(handbook, adjacency, 0)?, b" ");
    print_touched(touched(handbook, adjacency, 1)?, b" ");
    print_touched(touched(handbook, adjacency, 2)?, b" ");
    print_touched(touched(handbook, adjacency, 3)?, b" ");
    print_touched(touched(handbook, adjacency, 4)?, b"\n");
    Ok(())
}

// Prints those patches, or the refusal.
fn print_touches(handbook: u32, adjacency: u32) {
    if let Err(refusal) = print_patches(handbook, adjacency) {
        print_numbered(b"refused ", u32::from(refusal.number()));
    }
}

// The case of a handbook: the patches that touches at the places of the row belong to, or the refusal.
fn print_handbook(handbook: u32)
    requires { handbook < 100000 }
{
    print_numbered(b"handbook ", handbook);
    print_touches(handbook, 4);
}

// The cases of handbooks: those that are known and the next on either side, and which refusal comes first.
fn print_handbooks() {
    print_handbook(3);
    print_handbook(4);
    print_handbook(5);
    print_handbook(6);
    io::write_all(1, b"handbook 3 adjacency 5\n");
    print_touches(3, 5);
    io::write_all(1, b"handbook 5 adjacency 5\n");
    print_touches(5, 5);
}

fn main() {
    print_heights(0);
    print_heights(1);
    print_heights(40);
    print_heights(41);
    print_largest(0);
    print_largest(1);
    print_largest(255);
    print_largest(256);
    print_pixels(5);
    print_pixels(6);
    print_pixels(7);
    print_empty();
    print_bytes(4096);
    print_bytes(4097);
    print_comments();
    print_rows();
    print_halves();
    print_arguments();
    print_handbooks();
}
