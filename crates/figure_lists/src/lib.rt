// The figures of patches as lists of numbers, copied from blocks of n entries: sizes, column sums, row sums, depths, heights. C hands
// over a list for each figure.
#![tactic(auto)]

ghost use Rattle.std.specs.Prelude.{◌≡◌, map};
ghost use Rattle.lists.specs.Lists.{over};
ghost use Rattle.picture.specs.Pictures.{picture_of};
ghost use Rattle.answers.specs.Answers.{answer_of};
ghost use Rattle.patch_records.specs.Records.{records};
ghost use Rattle.figure_lists.specs.Steps.{Room};
ghost use Rattle.figure_lists.specs.Figures.{FiguresSay};

use answers::clear_work;
use cells::copy;
use faults::least;
use patch_lists::gather;
use refusals::Refusal;

// The figures of the first count patches in front of the lists.
fn hand_out(
    figures: &[u16],
    n: usize,
    count: usize,
    sizes: &mut [u16],
    heights: &mut [u16],
    depths: &mut [u16],
    columns: &mut [u16],
    rows: &mut [u16],
)
    requires { Room n count figures.now sizes.old heights.old depths.old columns.old rows.old }
    ensures sizes_after { sizes.new ≡ over (map (λ x. x.size) (records n figures.now count)) sizes.old }
    ensures heights_after { heights.new ≡ over (map (λ x. x.height) (records n figures.now count)) heights.old }
    ensures depths_after { depths.new ≡ over (map (λ x. x.depth) (records n figures.now count)) depths.old }
    ensures columns_after { columns.new ≡ over (map (λ x. x.columns) (records n figures.now count)) columns.old }
    ensures rows_after { rows.new ≡ over (map (λ x. x.rows) (records n figures.now count)) rows.old }
{
    copy(figures, 0, sizes, count);
    copy(figures, n, columns, count);
    copy(figures, 2 * n, rows, count);
    copy(figures, 3 * n, depths, count);
    copy(figures, 4 * n, heights, count);
}

// The figures of the patches in their order, a list each; answers how many patches there are. Loose arguments and lists: C calls it so.
pub fn list_figures(
    adjacency: u32,
    width: u32,
    height: u32,
    pixels: &[u8],
    sizes: &mut [u16],
    heights: &mut [u16],
    depths: &mut [u16],
    columns: &mut [u16],
    rows: &mut [u16],
    work: &mut [u16],
) -> Result<u32, Refusal>
    ensures { FiguresSay (picture_of adjacency width height pixels.now) sizes.old sizes.new heights.old heights.new depths.old depths.new columns.old columns.new rows.old rows.new work.old work.new (answer_of result) }
{
    let shortest = least(
        sizes.len(),
        heights.len(),
        depths.len(),
        columns.len().min(rows.len()),
    );
    let count = gather(adjacency, width, height, pixels, shortest, work)?;
    let n = pixels.len();
    hand_out(work, n, count, sizes, heights, depths, columns, rows);
    clear_work(work, n);
    Ok(count as u32)
}
