// The flood of one component of a section. Its stack is lent memory and a height, since there is no heap.
#![tactic(auto)]

ghost use Rattle.std.specs.Prelude.{◌≡◌, ◌≢◌, [], ◌*◌, ◌<◌, leb, length};
ghost use Rattle.picture.specs.Geometry.{neighbours_in};
ghost use Rattle.picture.specs.Pictures.{places};
ghost use Rattle.geometry.specs.Rasters.{picture, IsPlace};
ghost use Rattle.floods.specs.Floods.{Room, Visited, Spread, Seed};
ghost use Rattle.labelling_laws.proofs.Flood.{Flooded};

use geometry::raster::Raster;

// A pixel lies in the section at height k.
pub fn in_section(pixel: u8, k: u8) -> bool
    ensures { result ≡ leb pixel k }
{
    pixel <= k
}

// Marks the place y with the number c and puts it on the stack of height t, if it lies in the section and has no label; answers the stack's height.
fn visit(
    pixels: &[u8],
    k: u8,
    y: usize,
    c: u16,
    labels: &mut [u16],
    stack: &mut [u16],
    t: usize,
) -> usize
    requires { Room (length pixels.now) pixels.now labels.old stack.old t × (y < length pixels.now) }
    ensures { Visited pixels.now k y c labels.old stack.old t labels.new stack.new result }
{
    if !in_section(pixels[y], k) || labels[y] != 0 {
        return t;
    }
    labels[y] = c;
    stack[t] = y as u16;
    t + 1
}

// Visits the neighbours of the place x, which came off the stack; answers the stack's height.
fn spread(
    raster: &Raster,
    k: u8,
    x: usize,
    c: u16,
    labels: &mut [u16],
    stack: &mut [u16],
    top: usize,
) -> usize
    requires { IsPlace raster.now.grid x × Room (places (picture raster.now)) raster.now.pixels.now labels.old stack.old top × (c ≢ 0) }
    ensures { Spread (picture raster.now) k c x (neighbours_in (picture raster.now) x) [] labels.old stack.old top labels.new stack.new result }
{
    let mut near = [0u16; 8];
    let count = raster.grid.neighbours(x, &mut near);
    let mut t = top;
    // by index, so that an edit can leave the first neighbour out by another operand
    for i in 0..count {
        t = visit(raster.pixels, k, usize::from(near[i]), c, labels, stack, t);
    }
    t
}

// Marks the component of the place x with the number c.
pub fn flood(raster: &Raster, k: u8, x: usize, c: u16, labels: &mut [u16], stack: &mut [u16])
    requires { IsPlace raster.now.grid x × Room (places (picture raster.now)) raster.now.pixels.now labels.old stack.old 0 × Seed (picture raster.now) k x c labels.old }
    ensures { Flooded (picture raster.now) k x c labels.old labels.new }
{
    labels[x] = c;
    stack[0] = x as u16;
    let mut t = 1;
    while 0 < t {
        t = spread(
            raster,
            k,
            usize::from(stack[t - 1]),
            c,
            labels,
            stack,
            t - 1,
        );
    }
}
