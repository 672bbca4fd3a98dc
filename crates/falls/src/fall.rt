// How far a pixel falls: a neighbour of least value, and the height at which the fall stops.
ghost use Rattle.std.specs.Prelude.{◌≡◌, ◌≤◌, ◌<◌, length};
ghost use Rattle.watershed_laws.proofs.Stopping.{Climbs, Places, Lower, Lowest, Raised, Stopped};

use crate::meetings::meeting_height;

// The place of the lesser value.
fn lower(pixels: &[u8], low: usize, y: usize) -> usize
    requires { (low < length pixels.now) × (y < length pixels.now) }
    ensures { Lower pixels.now low y result }
{
    if pixels[y] < pixels[low] { y } else { low }
}

// A neighbour of least value, or the place itself if none is below it.
pub fn lowest(pixels: &[u8], x: usize, near: &[u16]) -> usize
    requires { Places (length pixels.now) near.now (length near.now) × (x < length pixels.now) }
    ensures { Lowest (length pixels.now) pixels.now x near.now (length near.now) result }
{
    let mut low = x;
    for y in near {
        low = lower(pixels, low, usize::from(*y));
    }
    low
}

// The height at which a fall from the value k stops, raised by one neighbour.
fn raise(
    tree: &[u16],
    n: usize,
    pixels: &[u8],
    low: usize,
    k: usize,
    y: usize,
    stop: usize,
) -> usize
    requires { Climbs n tree.now × (n ≤ 1600) × (length pixels.now ≡ n) × (low < n) × (y < n) }
    ensures { Raised n pixels.now tree.now low k y stop result }
{
    let own = usize::from(pixels[y]);
    if k <= own {
        return stop;
    }
    let height = meeting_height(tree, n, y, low);
    if height <= own {
        stop
    } else {
        stop.max(height)
    }
}

// The height at which a fall from the value k stops, if it is below k.
pub fn stop_at(tree: &[u16], n: usize, pixels: &[u8], low: usize, k: usize, near: &[u16]) -> usize
    requires { Climbs n tree.now × (n ≤ 1600) × (length pixels.now ≡ n) × (low < n) × Places n near.now (length near.now) }
    ensures { Stopped n pixels.now tree.now low k near.now (length near.now) result }
{
    let mut stop = usize::from(pixels[low]);
    for y in near {
        stop = raise(tree, n, pixels, low, k, usize::from(*y), stop);
    }
    stop
}
