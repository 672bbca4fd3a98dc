// An accepted picture.
ghost use Rattle.std.specs.Prelude.{◌≡◌, true};
ghost use Rattle.picture.specs.Pictures.{is_picture, picture_of};
ghost use Rattle.geometry.specs.Adjacencies.{adjacency_number};

use crate::grid::Grid;

// An accepted picture: its grid, and its pixels row by row.
#[derive(Clone, Copy)]
pub struct Raster<'a> {
    pub grid: Grid,
    pub pixels: &'a [u8],
    pub ghost accepted: { is_picture (picture_of (adjacency_number grid.adjacency) grid.width grid.height pixels.now) ≡ true },
}
