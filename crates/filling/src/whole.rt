// The whole filling: the chains of equal values, the heights, the values.
ghost use Rattle.std.specs.Prelude.{◌≡◌, ◌<◌, ◌≤◌, ◌*◌, length};
ghost use Rattle.picture.specs.Pictures.{places};
ghost use Rattle.picture.specs.Filling.{filled};
ghost use Rattle.geometry.specs.Rasters.{picture};
ghost use Rattle.filling_laws.proofs.FillValues.{SettledIn, ValueRead, ValuesWritten};

use crate::heights::fill_heights;
use crate::joins::SETTLED;
use geometry::raster::Raster;
use tree::buckets::{NO_PLACE, chain};
use union_find::{FIRST_NODE, find};

// The filled value of the place x.
fn read_value(cells: &mut [u16], x: usize) -> u8
    requires { SettledIn cells.old × (x < length cells.old) }
    ensures { ValueRead x cells.old cells.new result }
{
    let r = find(cells, x);
    (cells[r] - SETTLED) as u8
}

// Writes the filled values of all places.
fn write_values(cells: &mut [u16], out: &mut [u8])
    requires { SettledIn cells.old × (length out.old ≡ length cells.old) }
    ensures { ValuesWritten cells.old out.new }
{
    for (x, value) in out.iter_mut().enumerate() {
        *value = read_value(cells, x);
    }
}

// Fills a picture with work of exactly 4 n cells, n cells for the union-find and n bytes of output.
fn fill_exactly(raster: &Raster, s: usize, out: &mut [u8], work: &mut [u16], cells: &mut [u16])
    requires size { (1 ≤ s) × (s ≤ places (picture raster.now)) }
    requires out_len { (length out.old ≡ places (picture raster.now)) × (length work.old ≡ 4 * places (picture raster.now)) × (length cells.old ≡ places (picture raster.now)) }
    ensures { out.new ≡ (filled (picture raster.now) s).pixels }
{
    let mut heads = [NO_PLACE; 256];
    chain(raster.pixels, work, cells, &mut heads);
    cells.fill(FIRST_NODE + 1);
    fill_heights(raster, work, cells, s, &heads);
    write_values(cells, out);
}

// Leaves the picture of n pixels, filled with the size s, in the n bytes of out; work has 5 n cells.
pub fn fill_core(raster: &Raster, s: usize, out: &mut [u8], work: &mut [u16])
    requires size { (1 ≤ s) × (s ≤ places (picture raster.now)) }
    requires out_len { (length out.old ≡ places (picture raster.now)) × (length work.old ≡ 5 * places (picture raster.now)) }
    ensures { out.new ≡ (filled (picture raster.now) s).pixels }
{
    let mut cells = [0u16; 1600];
    let n = raster.pixels.len();
    let room = 4 * n;
    fill_exactly(raster, s, out, &mut work[..room], &mut cells[..n]);
}
