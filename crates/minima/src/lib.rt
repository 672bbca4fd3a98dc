// The number of minima, by floods of the flat zones, with one cell for each place.
#![tactic(auto)]

ghost use Rattle.std.specs.Prelude.{◌≡◌, ◌≢◌, ◌+◌, ◌≤◌, ◌<◌, length, get_or};
ghost use Rattle.picture.specs.Pictures.{places};
ghost use Rattle.picture.specs.Patches.{patches};
ghost use Rattle.geometry.specs.Rasters.{picture, IsPlace};
ghost use Rattle.labelling_laws.proofs.Zones.{ZoneFlooded};
ghost use Rattle.minima.specs.Minima.{CellEach, ZoneRoom, Visit, ZoneTurn, ZoneSeed, Counting};

use geometry::raster::Raster;

// The cell of a place that no flood has visited; these two are numbers, since the stack is linked in one 16-bit cell a place.
const NEW: u16 = 65535;
// The cell of the place at the bottom of the stack.
const BOTTOM: u16 = 65534;

// A stack whose places are linked in the cells: its top, its height, and whether a lower neighbour was seen.
#[derive(Clone, Copy)]
pub struct Stack {
    pub top: u16,
    pub height: usize,
    pub low: bool,
}

impl Stack {
    // Follows the edge to the place y from a place of value k: notes y if it is lower, puts it on the stack if it is level and new.
    fn visit(self, pixels: &[u8], k: u8, y: usize, cells: &mut [u16]) -> Stack
        requires { ZoneRoom pixels.now cells.old self × (y < length pixels.now) }
        ensures { Visit pixels.now k y cells.old self cells.new result }
    {
        let value = pixels[y];
        if value < k {
            return Stack { low: true, ..self };
        }
        if k < value || cells[y] != NEW {
            return self;
        }
        cells[y] = self.top;
        Stack {
            top: y as u16,
            height: self.height + 1,
            ..self
        }
    }

    // Takes the top off the stack and visits its neighbours; not the flood of labels, whose stack lies in memory of its own.
    fn spread(self, raster: &Raster, k: u8, cells: &mut [u16]) -> Stack
        requires { IsPlace raster.now.grid self.top × ZoneRoom raster.now.pixels.now cells.old self × (1 ≤ self.height) × (get_or cells.old self.top 0 ≢ 65535) }
        ensures { ZoneTurn (picture raster.now) k cells.old self cells.new result }
    {
        let x = usize::from(self.top);
        let mut near = [0u16; 8];
        let count = raster.grid.neighbours(x, &mut near);
        let mut stack = Stack {
            top: cells[x],
            height: self.height - 1,
            ..self
        };
        for y in &near[..count] {
            stack = stack.visit(raster.pixels, k, usize::from(*y), cells);
        }
        stack
    }
}

// Visits the flat zone of the place x; answers whether it has a lower neighbour.
fn flood(raster: &Raster, x: usize, cells: &mut [u16]) -> bool
    requires { IsPlace raster.now.grid x × CellEach raster.now.pixels.now cells.old × ZoneSeed (picture raster.now) x cells.old }
    ensures { ZoneFlooded (picture raster.now) (get_or raster.now.pixels.now x 0) x cells.old cells.new result }
{
    let k = raster.pixels[x];
    cells[x] = BOTTOM;
    let mut stack = Stack {
        top: x as u16,
        height: 1,
        low: false,
    };
    while 0 < stack.height {
        stack = stack.spread(raster, k, cells);
    }
    stack.low
}

// The number of minima that begin up to the place x, if r begin before it.
fn count_zone(raster: &Raster, x: usize, cells: &mut [u16], r: usize) -> usize
    requires { Counting (picture raster.now) x r cells.old × (x < places (picture raster.now)) }
    ensures { Counting (picture raster.now) (x + 1) result cells.new }
{
    if cells[x] != NEW || flood(raster, x, cells) {
        r
    } else {
        r + 1
    }
}

// The number of minima of a picture.
pub fn count_minima(raster: &Raster, cells: &mut [u16]) -> usize
    requires { length cells.old ≡ places (picture raster.now) }
    ensures { result ≡ length (patches (picture raster.now)) }
{
    cells.fill(NEW);
    let mut r = 0;
    for x in 0..raster.pixels.len() {
        r = count_zone(raster, x, cells, r);
    }
    r
}
