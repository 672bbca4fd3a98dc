// What is refused of a picture's arguments, and the picture as a raster.
ghost use Rattle.std.specs.Prelude.{◌≡◌, length};
ghost use Rattle.picture.specs.Pictures.{picture_of};
ghost use Rattle.refusals.specs.Refusals.{fault_of};
ghost use Rattle.faults.specs.PictureFault.{sides_fault, picture_fault};
ghost use Rattle.faults.specs.Steps.{Admits};

use geometry::adjacency::Adjacency;
use geometry::grid::Grid;
use geometry::raster::Raster;
use ranges::sides_fit;
use refusals::Refusal;

// Both sides are 1 to 40, else 3; the pixels are as many as the places, else 8.
pub fn sides(w: u32, h: u32, length: usize) -> Result<(), Refusal>
    ensures { fault_of result ≡ sides_fault w h length }
{
    if !sides_fit(w, h) {
        return Err(Refusal::SideOutside);
    }
    if length != w as usize * h as usize {
        return Err(Refusal::LengthDiffers);
    }
    Ok(())
}

// A picture's arguments as a raster: the adjacency is 4 or 8, else 7, then sides and pixels.
pub fn raster<'a>(
    adjacency: u32,
    width: u32,
    height: u32,
    pixels: &'a [u8],
) -> Result<Raster<'a>, Refusal>
    ensures { Admits (picture_of adjacency width height pixels.now) (picture_fault adjacency width height (length pixels.now)) result }
{
    let adjacency = Adjacency::try_from(adjacency)?;
    sides(width, height, pixels.len())?;
    let grid = Grid {
        adjacency,
        width,
        height,
    };
    Ok(Raster { grid, pixels })
}
