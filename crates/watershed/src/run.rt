// The run down: the winner is taken away and falls as far as it may, until no candidate is left.
ghost use Rattle.std.specs.Prelude.{◌≡◌, true, [], ◌*◌, length};
ghost use Rattle.picture.specs.Pictures.{is_picture};
ghost use Rattle.picture.specs.Watersheds.{watershed};
ghost use Rattle.geometry.specs.Rasters.{on};
ghost use Rattle.tree.specs.Arrays.{TreeIn};
ghost use Rattle.watershed_laws.proofs.Running.{WinnerTaken, LoweredPlace, WinnerIs, TurnDone};

use falls::fall::{lowest, stop_at};
use geometry::grid::Grid;
use winner::{NO_CANDIDATE, assign, build_winners, make_candidates};

// Lowers the place x as far as it falls, if it is lowerable, and makes candidates of the neighbours that may now be lowerable.
// The tree is in `tree`, the winner tree in `cells`.
fn lower_place(grid: Grid, x: usize, out: &mut [u8], tree: &mut [u16], cells: &mut [u16])
    requires { WinnerTaken (on grid []) out.old tree.old cells.old x }
    ensures { LoweredPlace (on grid []) out.old cells.old out.new tree.new cells.new }
{
    let n = out.len();
    let mut near = [0u16; 8];
    let count = grid.neighbours(x, &mut near);
    let near = &near[..count];
    let k = usize::from(out[x]);
    let low = lowest(out, x, near);
    let stop = stop_at(tree, n, out, low, k, near);
    if stop < k {
        out[x] = stop as u8;
        tree[2 * n + x] = tree[2 * n + low];
        make_candidates(out, cells, n, near, stop, k);
    }
}

// Takes the winner x away, lowers it as far as it falls, and answers the next winner.
fn turn(grid: Grid, x: usize, out: &mut [u8], tree: &mut [u16], cells: &mut [u16]) -> u16
    requires { WinnerIs (on grid []) out.old tree.old cells.old x }
    ensures { TurnDone (on grid []) out.old cells.old out.new tree.new cells.new result }
{
    assign(out, cells, out.len(), x, NO_CANDIDATE);
    lower_place(grid, x, out, tree, cells);
    cells[1]
}

// Lowers the picture in out, whose tree stands in work, to its watershed.
pub fn lower_all(grid: Grid, out: &mut [u8], work: &mut [u16])
    requires { (is_picture (on grid out.old) ≡ true) × (length work.old ≡ 5 * length out.old) × TreeIn (on grid out.old) work.old }
    ensures { out.new ≡ (watershed (on grid out.old)).pixels }
{
    let n = out.len();
    let (tree, cells) = work.split_at_mut(3 * n);
    build_winners(out, cells, n);
    let mut winner = cells[1];
    while winner != NO_CANDIDATE {
        winner = turn(grid, usize::from(winner), out, tree, cells);
    }
}
