// Prints what `list_patches` answers for the picture on standard input, and what it leaves in the lent list and work: calls
// that list its patches, then calls that are refused. Prints nothing for a refused file.
#![tactic(auto)]

ghost use Rattle.std.specs.Prelude.{◌≤◌, length};
ghost use Rattle.picture.specs.Pictures.{picture_of};
ghost use Rattle.answers.specs.Answers.{answer_of};
ghost use Rattle.patch_report.specs.Lending.{LentSay};

use board::{Patch, Refusal};
use text::{put, put_number};

// The length of the list, one more than a picture can have patches.
const LIST: usize = 801;

// The length of work, one more than a call can need.
const WORK: usize = 8001;

// What an entry of work holds before a call.
const BEFORE: u16 = 7;

// The entries of work that a pixel needs.
const ENTRIES_A_PIXEL: usize = 5;

// A side that is too long.
const TOO_LONG: u32 = 41;

// What a record holds before a call.
const UNWRITTEN: Patch = Patch {
    number: 9,
    size: 9,
    height: 9,
    depth: 9,
    columns: 9,
    rows: 9,
};

// The picture of a call.
#[derive(Clone, Copy)]
struct Asked<'a> {
    adjacency: u32,
    width: u32,
    height: u32,
    pixels: &'a [u8],
}

// Lends `list_patches` the first `room` records of a list.
fn lend_records(
    asked: Asked,
    list: &mut [Patch; 801],
    room: usize,
    work: &mut [u16],
) -> Result<u32, Refusal>
    requires { room ≤ 801 }
    ensures { LentSay (picture_of asked.entry.adjacency asked.entry.width asked.entry.height asked.entry.pixels.now) room list.old list.new work.old work.new (answer_of result) }
{
    let lent = &mut list[..room];
    board::list_patches(
        asked.adjacency,
        asked.width,
        asked.height,
        asked.pixels,
        lent,
        work,
    )
}

// How many entries in front hold a value.
fn run_length(entries: &[u16], value: u16) -> usize
    ensures { result ≤ length entries.now }
{
    entries.iter().take_while(|entry| **entry == value).count()
}

// How many records in front are as they were.
fn unwritten_length(records: &[Patch]) -> usize
    ensures { result ≤ length records.now }
{
    records
        .iter()
        .take_while(|record| **record == UNWRITTEN)
        .count()
}

// Prints a number and one byte behind it. Each number is a write of its own; after one that fails the next is tried.
fn print_number(number: u32, behind: u8) {
    let mut out = [0u8; 11];
    let digits = put_number(&mut out, 0, number);
    let end = put(&mut out, digits, behind);
    io::write_all(1, &out[..end]);
}

// Prints numbers, each with a space behind it.
fn print_spaced(numbers: &[u32]) {
    for number in numbers {
        print_number(*number, b' ');
    }
}

// Prints a record, a line.
fn print_record(record: &Patch) {
    print_spaced(&[
        u32::from(record.number),
        u32::from(record.size),
        u32::from(record.height),
        u32::from(record.depth),
        u32::from(record.columns),
    ]);
    print_number(u32::from(record.rows), b'\n');
}

// Prints the first records of a list, a line each.
fn print_records(records: &[Patch]) {
    for record in records {
        print_record(record);
    }
}

// Prints the refusal's number, 0 for none, and the number of patches; where the entries of work that became 0 end, and those behind
// them that are as they were; where the records behind the listed ones that are as they were end; and the listed ones. Answers how
// many there are.
fn print_left(answer: Result<u32, Refusal>, list: &[Patch; 801], work: &[u16; 8001]) -> usize
    ensures { result ≤ 801 }
{
    let (number, value) = match answer {
        Ok(value) => (0, value),
        Err(refusal) => (u32::from(refusal.number()), 0),
    };
    let count = LIST.min(value as usize);
    let zeros = run_length(work, 0);
    let kept = zeros + run_length(&work[zeros..], BEFORE);
    let unwritten = count + unwritten_length(&list[count..]);
    print_spaced(&[number, value, zeros as u32, kept as u32]);
    print_number(unwritten as u32, b'\n');
    print_records(&list[..count]);
    count
}

// Prints what a call does that is lent some records and some entries of work: the arguments, the number of pixels in place of the pixels,
// then what is left. Answers how many patches it lists.
fn print_call(asked: Asked, room: usize, entries: usize) -> usize
    requires { (length asked.pixels.now ≤ 1601) × (room ≤ 801) × (entries ≤ 8001) }
    ensures { result ≤ 801 }
{
    let mut list = [UNWRITTEN; 801];
    let mut work = [BEFORE; 8001];
    let answer = lend_records(asked, &mut list, room, &mut work[..entries]);
    print_spaced(&[
        asked.adjacency,
        asked.width,
        asked.height,
        asked.pixels.len() as u32,
        room as u32,
        entries as u32,
    ]);
    print_left(answer, &list, &work)
}

// Prints calls that are lent more than enough, just enough and one too little of each.
fn print_listed(asked: Asked)
    requires { length asked.pixels.now ≤ 1600 }
{
    let needed = ENTRIES_A_PIXEL * asked.pixels.len();
    let count = print_call(asked, LIST, WORK);
    print_call(asked, count, WORK);
    print_call(asked, count.saturating_sub(1), WORK);
    print_call(asked, count, needed);
    print_call(asked, count, needed.saturating_sub(1));
}

// Prints calls with more than enough records and with none.
fn print_rooms(asked: Asked)
    requires { length asked.pixels.now ≤ 1601 }
{
    print_call(asked, LIST, WORK);
    print_call(asked, 0, WORK);
}

// Prints calls with each side too short and too long.
fn print_sides(asked: Asked)
    requires { length asked.pixels.now ≤ 1601 }
{
    print_rooms(Asked { width: 0, ..asked });
    print_rooms(Asked {
        width: TOO_LONG,
        ..asked
    });
    print_rooms(Asked { height: 0, ..asked });
    print_rooms(Asked {
        height: TOO_LONG,
        ..asked
    });
}

// Prints refused calls: wrong sides with the pixels and with none, then the right sides with a pixel fewer and with one more.
fn print_refused(asked: Asked, more: &[u8])
    requires { (length asked.pixels.now ≤ 1600) × (length more.now ≤ 1601) }
{
    let pixels = asked.pixels;
    let fewer = pixels.len().saturating_sub(1);
    print_sides(asked);
    print_sides(Asked {
        pixels: &pixels[..0],
        ..asked
    });
    print_rooms(Asked {
        pixels: &pixels[..fewer],
        ..asked
    });
    print_rooms(Asked {
        pixels: more,
        ..asked
    });
}

// Prints the calls on a picture, under both adjacencies and under 0 and 5, which are none; `more` is its pixels and the byte
// in front of them.
fn print_picture(asked: Asked, more: &[u8])
    requires { (length asked.pixels.now ≤ 1600) × (length more.now ≤ 1601) }
{
    let four = Asked {
        adjacency: 4,
        ..asked
    };
    let eight = Asked {
        adjacency: 8,
        ..asked
    };
    print_listed(four);
    print_listed(eight);
    print_refused(four, more);
    print_refused(eight, more);
    let five = Asked {
        adjacency: 5,
        ..asked
    };
    print_rooms(Asked {
        adjacency: 0,
        ..asked
    });
    print_rooms(five);
    print_refused(five, more);
}

// Prints the calls on the picture of a file, if it is accepted.
fn print_file(file: &[u8]) {
    let Ok(header) = board::read_file(file) else {
        return;
    };
    let pixels = board::file_pixels(file);
    let front = file.len() - pixels.len() - 1;
    let asked = Asked {
        adjacency: 4,
        width: header.width,
        height: header.height,
        pixels,
    };
    print_picture(asked, &file[front..]);
}

fn main() {
    let mut file = io::large_buffer();
    let count = io::read_full(0, &mut file);
    print_file(&file[..count]);
}
