// Sums over the places of each patch: sizes, columns, rows.
#![tactic(auto)]

ghost use Rattle.std.specs.Prelude.{◌≡◌, ◌+◌, ◌*◌, ◌≤◌, length};
ghost use Rattle.patch_sums.specs.Sums.{raised, Raisable, terms, SumsRoom, Added, RunAfter, NumberedRows, Sums};

use cells::fill;

// Places of one row and one patch, with none of another patch between them: the number, how many there are, the sum of their columns.
// It is stored as a whole, since each store waits for the one before it.
#[derive(Clone, Copy)]
pub struct Run {
    pub number: usize,
    pub size: u16,
    pub columns: u16,
}

// Adds v to the cell i.
fn add_to(cells: &mut [u16], i: usize, v: u16)
    requires { Raisable cells.old i v }
    ensures { cells.new ≡ raised cells.old i v }
{
    cells[i] += v;
}

// Adds a run to the three sums of its number, none for 0.
fn add_run(n: usize, run: Run, row: u16, work: &mut [u16])
    requires { SumsRoom n run.number (terms run row) work.old }
    ensures { Added n run.number (terms run row) work.old work.new }
{
    if run.number != 0 {
        let i = run.number - 1;
        add_to(work, i, run.size);
        add_to(work, n + i, run.columns);
        add_to(work, 2 * n + i, run.size * row);
    }
}

// The run with the next place, by the place's number; a place on the line adds nothing, and where the number is another the run is added and a new one begins.
fn next_run(n: usize, number: usize, run: Run, column: u16, row: u16, work: &mut [u16]) -> Run
    requires { SumsRoom n run.number (terms run row) work.old × (run.size ≤ 40) × (run.columns ≤ 1600) × (column ≤ 39) × (row ≤ 39) }
    ensures { RunAfter n number column row run work.old result work.new }
{
    if number == 0 {
        run
    } else if number == run.number {
        Run {
            number,
            size: run.size + 1,
            columns: run.columns + column,
        }
    } else {
        add_run(n, run, row, work);
        Run {
            number,
            size: 1,
            columns: column,
        }
    }
}

// Adds the places of a row to the sums over the rows before it.
fn sum_row(w: usize, n: usize, row: usize, numbers: &[u16], work: &mut [u16])
    requires { NumberedRows w n numbers.now × (row * w + w ≤ n) × Sums w n (row * w) numbers.now work.old work.old }
    ensures { Sums w n (row * w + w) numbers.now work.old work.new }
{
    let narrow = row as u16;
    let mut run = Run {
        number: 0,
        size: 0,
        columns: 0,
    };
    for column in 0..w {
        let number = usize::from(numbers[row * w + column]);
        run = next_run(n, number, run, column as u16, narrow, work);
    }
    add_run(n, run, narrow, work);
}

// Puts the sizes, the sums of columns and the sums of rows into the first three blocks.
pub fn put_sums(w: usize, h: usize, n: usize, numbers: &[u16], work: &mut [u16])
    requires { NumberedRows w n numbers.now × (n ≡ w * h) × (length work.old ≡ 5 * n) }
    ensures { Sums w n n numbers.now work.old work.new }
{
    fill(work, 0, 3 * n, 0);
    for row in 0..h {
        sum_row(w, n, row, numbers, work);
    }
}
