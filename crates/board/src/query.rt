// The answer of a place query and of a touch, and their core with work cleared.
ghost use Rattle.std.specs.Prelude.{◌≡◌, ◌*◌, ◌≤◌, ◌<◌, length};
ghost use Rattle.picture.specs.Pictures.{places};
ghost use Rattle.picture.specs.Patches.{touched_patch};
ghost use Rattle.geometry.specs.Rasters.{picture};
ghost use Rattle.patches.specs.Handbooks.{handbook_number};
ghost use Rattle.answers.specs.Answers.{cleared};
ghost use Rattle.board.specs.Calls.{ground_of, patch_number};

use answers::clear_work;
use geometry::raster::Raster;
use patches::cores::touch_by;
use patches::handbook::Handbook;

// Where a place lies: on the line, or in the patch of a number. The scope document names this enum.
#[derive(Clone, Copy)]
pub enum Ground {
    Line,
    Patch(u16),
}

// The patch number of where a place lies, 0 for the line.
pub fn patch_number(ground: Ground) -> u16
    ensures { result ≡ patch_number ground }
{
    match ground {
        Ground::Line => 0,
        Ground::Patch(number) => number,
    }
}

// The pixel's value and where it lies.
#[derive(Clone, Copy)]
pub struct Queried {
    pub value: u8,
    pub ground: Ground,
}

// Where a place of a patch number lies.
pub fn ground_of(number: u16) -> Ground
    ensures { result ≡ ground_of number }
{
    match number {
        0 => Ground::Line,
        _ => Ground::Patch(number),
    }
}

// The number of the patch that a touch at a place belongs to by a handbook, 0 for none as the scope document has it, from work of 5 n
// entries that is cleared after it.
pub fn touch_cleared(handbook: Handbook, raster: &Raster, place: usize, work: &mut [u16]) -> u16
    requires { (5 * length raster.now.pixels.now ≤ length work.old) × (place < places (picture raster.now)) }
    ensures { (result ≡ touched_patch (handbook_number handbook) (picture raster.now) place) × (work.new ≡ cleared (length raster.now.pixels.now) work.old) }
{
    let n = raster.pixels.len();
    let whole = 5 * n;
    let mut cells = [0u16; 1600];
    let number = touch_by(handbook, raster, place, &mut work[..whole], &mut cells[..n]);
    clear_work(work, n);
    number
}
