// The grid of a picture: its adjacency and its sides, and the neighbours of its places, from a table of eight steps. Columns, rows and
// places have 32 bits inside: a 64-bit one takes two registers of the controller, and a library function for each product and quotient.
ghost use Rattle.std.specs.Prelude.{◌≡◌, true, ◌&&◌, ◌||◌, [], ◌∷◌, ◌+◌, ◌-◌, ◌*◌, ◌≤◌, ◌<◌, eqb, length, set};
ghost use Rattle.lists.specs.Writing.{Written};
ghost use Rattle.picture.specs.Pictures.{side_fits};
ghost use Rattle.picture.specs.Geometry.{plus_one, within, reached, neighbours_of};
ghost use Rattle.picture.proofs.Neighbours.{Placed, Listed};
ghost use Rattle.geometry.specs.Adjacencies.{adjacency_number};
ghost use Rattle.geometry.specs.Steps.{is_unit, stride_of, off_edge, is_inner, Stepping};

use crate::adjacency::Adjacency;
use picture::Step;

// The eight steps in their order; adjacency 4 uses every second one.
pub const STEPS: [Step; 8] = [
    Step { column: 0, row: -1 },
    Step { column: 1, row: -1 },
    Step { column: 1, row: 0 },
    Step { column: 1, row: 1 },
    Step { column: 0, row: 1 },
    Step { column: -1, row: 1 },
    Step { column: -1, row: 0 },
    Step {
        column: -1,
        row: -1,
    },
];

// The adjacency and the sides of a picture.
#[derive(Clone, Copy)]
pub struct Grid {
    pub adjacency: Adjacency,
    pub width: u32,
    pub height: u32,
    pub ghost sides: { side_fits width && side_fits height ≡ true },
}

// A step with one added, which is not negative.
fn plus_one(step: i8) -> u32
    requires { is_unit step ≡ true }
    ensures { result ≡ plus_one step }
{
    (i32::from(step) + 1) as u32
}

// A column or a row does not lie at the edge.
fn off_edge(c: u32, side: u32) -> bool
    requires { c < 1600 }
    ensures { result ≡ off_edge side c }
{
    1 <= c && c + 1 < side
}

// A column or a row, given plus one, lies inside a side.
fn within(x: u32, side: u32) -> bool
    ensures { result ≡ within side x }
{
    1 <= x && x <= side
}

impl Grid {
    // The distance in the table from a step that the adjacency uses to the next.
    fn stride(self) -> usize
        ensures { result ≡ stride_of (adjacency_number self.adjacency) }
    {
        match self.adjacency {
            Adjacency::Four => 2,
            Adjacency::Eight => 1,
        }
    }

    // Neither the column nor the row lies at the edge: every step stays inside.
    fn is_inner(self, column: u32, row: u32) -> bool
        requires { (column < 1600) × (row < 1600) }
        ensures { result ≡ is_inner self.width self.height column row }
    {
        off_edge(column, self.width) && off_edge(row, self.height)
    }

    // Puts the place of a column and a row, each given plus one, behind the first m cells, and answers the number of cells in front.
    fn put_place(self, right: u32, down: u32, cells: &mut [u16], m: usize) -> usize
        requires { (1 ≤ right) × (1 ≤ down) × ((down - 1) * self.width + (right - 1) < 1600) × (m < length cells.old) }
        ensures { (result ≡ m + 1) × (cells.new ≡ set cells.old m ((down - 1) * self.width + (right - 1))) }
    {
        cells[m] = ((down - 1) * self.width + (right - 1)) as u16;
        m + 1
    }

    // A step to a column and a row, each given plus one, stays inside the edge; from an inner place every step does, and needs no test.
    fn stays(self, inner: bool, right: u32, down: u32) -> bool
        ensures { result ≡ (inner || (within self.width right && within self.height down)) }
    {
        inner || (within(right, self.width) && within(down, self.height))
    }

    // Puts the place that a step leads to behind the first m cells, if it stays inside the edge, and answers the number of cells in
    // front.
    fn put_step(
        self,
        inner: bool,
        column: u32,
        row: u32,
        step: Step,
        cells: &mut [u16],
        m: usize,
    ) -> usize
        requires { Stepping self.width self.height column row step m cells.old × (inner ≡ is_inner self.width self.height column row) }
        ensures { Written m (reached self.width self.height (row * self.width + column) (step ∷ [])) cells.old result cells.new }
    {
        let right = column + plus_one(step.column);
        let down = row + plus_one(step.row);
        if self.stays(inner, right, down) {
            self.put_place(right, down, cells, m)
        } else {
            m
        }
    }

    // Puts the neighbours of a place in front of the cells, in the order of the table, and answers how many there are. Cells and a count,
    // since there is no heap; callers read them as a slice.
    pub fn neighbours(self, x: usize, cells: &mut [u16]) -> usize
        requires { Placed self.width self.height x × (8 ≤ length cells.old) }
        ensures { Listed (neighbours_of (adjacency_number self.adjacency) self.width self.height x) cells.old result cells.new }
    {
        let place = x as u32;
        let column = place % self.width;
        let row = place / self.width;
        let inner = self.is_inner(column, row);
        // a local, since each reading of a constant table writes it to the stack
        let steps = STEPS;
        let next = self.stride();
        let mut m = 0;
        // counted by hand: over `steps.iter().step_by(next)` the invariant would have to follow the items, which is no plainer
        let mut i = 0;
        while i < 8 {
            m = self.put_step(inner, column, row, steps[i], cells, m);
            i += next;
        }
        m
    }
}

// The adjacency whose steps are used for a number: those of 4 for 4, and all for every other number, as `used` of the definitions has it.
fn used_for(number: u32) -> Adjacency
    ensures { eqb (adjacency_number result) 4 ≡ eqb number 4 }
{
    match number {
        4 => Adjacency::Four,
        _ => Adjacency::Eight,
    }
}

// Puts the neighbours of a place by adjacency, width and height in front of the cells, for every number given as the adjacency.
pub fn neighbours(a: u32, w: u32, h: u32, x: usize, cells: &mut [u16]) -> usize
    requires { Placed w h x × (8 ≤ length cells.old) }
    ensures { Listed (neighbours_of a w h x) cells.old result cells.new }
{
    let grid = Grid {
        adjacency: used_for(a),
        width: w,
        height: h,
    };
    grid.neighbours(x, cells)
}
