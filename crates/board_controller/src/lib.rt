// The calls for firmware in C: numbers, bytes and 16-bit memory as they are lent, the answer as one number. C has the loose arguments,
// the parallel lists and a call by name for each, so that these stay as they are.
#![tactic(auto)]

ghost use Rattle.picture.specs.Pictures.{picture_of};
ghost use Rattle.board.specs.Calls.{LabelsSay, LowerableSays, WatershedSays, FillSays, QuerySays, TouchSays};
ghost use Rattle.board.specs.Trees.{TreeSays, CheckSays, PassSays};
ghost use Rattle.saving.specs.Calls.{SaveSays};
ghost use Rattle.stored_rows.specs.Calls.{StoreSays, RestoreSays};
ghost use Rattle.packed_answers.specs.Packed.{answer_in, queried_in, saved_in};
ghost use Rattle.figure_lists.specs.Figures.{FiguresSay};

use board::{
    check_tree, component_tree, fill_small_parts, is_lowerable, label_section, pass_between,
    query_place, restore_rows, store_rows, touch_place, watershed_of, write_file,
};
use figure_lists::list_figures;
use packed_answers::{packed, packed_query, packed_saved};

// The labels of the section at height k; the value is the number of its components.
#[unsafe(no_mangle)]
pub extern "C" fn controller_label_section(
    adjacency: u32,
    width: u32,
    height: u32,
    pixels: &[u8],
    k: u8,
    out: &mut [u16],
    work: &mut [u16],
) -> u64
    ensures { LabelsSay (picture_of adjacency width height pixels.now) k out.old out.new work.old work.new (answer_in result) }
{
    packed(label_section(adjacency, width, height, pixels, k, out, work))
}

// The component tree of a picture: heights, fathers, first places and map; the value is the number of nodes.
#[unsafe(no_mangle)]
pub extern "C" fn controller_component_tree(
    adjacency: u32,
    width: u32,
    height: u32,
    pixels: &[u8],
    heights: &mut [u8],
    fathers: &mut [u16],
    firsts: &mut [u16],
    map: &mut [u16],
    work: &mut [u16],
) -> u64
    ensures { TreeSays (picture_of adjacency width height pixels.now) heights.old heights.new fathers.old fathers.new firsts.old firsts.new map.old map.new work.old work.new (answer_in result) }
{
    packed(component_tree(
        adjacency, width, height, pixels, heights, fathers, firsts, map, work,
    ))
}

// Refuses with 11 a lent tree of count nodes that is not the picture's; the value is 0.
#[unsafe(no_mangle)]
pub extern "C" fn controller_check_tree(
    adjacency: u32,
    width: u32,
    height: u32,
    pixels: &[u8],
    count: u32,
    heights: &[u8],
    fathers: &[u16],
    firsts: &[u16],
    map: &[u16],
    work: &mut [u16],
) -> u64
    ensures { CheckSays (picture_of adjacency width height pixels.now) count heights.now fathers.now firsts.now map.now work.old work.new (answer_in result) }
{
    packed(check_tree(
        adjacency, width, height, pixels, count, heights, fathers, firsts, map, work,
    ))
}

// The value is the pass between two places, read off a lent tree of count nodes.
#[unsafe(no_mangle)]
pub extern "C" fn controller_pass_between(
    adjacency: u32,
    width: u32,
    height: u32,
    pixels: &[u8],
    count: u32,
    heights: &[u8],
    fathers: &[u16],
    firsts: &[u16],
    map: &[u16],
    x: u32,
    y: u32,
    work: &mut [u16],
) -> u64
    ensures { PassSays (picture_of adjacency width height pixels.now) count heights.now fathers.now firsts.now map.now x y work.old work.new (answer_in result) }
{
    packed(pass_between(
        adjacency, width, height, pixels, count, heights, fathers, firsts, map, x, y, work,
    ))
}

// Whether the pixel at a place is lowerable: the value is 1 for yes, 0 for no.
#[unsafe(no_mangle)]
pub extern "C" fn controller_is_lowerable(
    adjacency: u32,
    width: u32,
    height: u32,
    pixels: &[u8],
    place: u32,
    work: &mut [u16],
) -> u64
    ensures { LowerableSays (picture_of adjacency width height pixels.now) place work.old work.new (answer_in result) }
{
    packed(is_lowerable(adjacency, width, height, pixels, place, work))
}

// The watershed of a picture; the value is 0.
#[unsafe(no_mangle)]
pub extern "C" fn controller_watershed_of(
    adjacency: u32,
    width: u32,
    height: u32,
    pixels: &[u8],
    out: &mut [u8],
    work: &mut [u16],
) -> u64
    ensures { WatershedSays (picture_of adjacency width height pixels.now) out.old out.new work.old work.new (answer_in result) }
{
    packed(watershed_of(adjacency, width, height, pixels, out, work))
}

// The picture with its dark parts of fewer than s pixels filled; the value is 0.
#[unsafe(no_mangle)]
pub extern "C" fn controller_fill_small_parts(
    adjacency: u32,
    width: u32,
    height: u32,
    pixels: &[u8],
    s: u32,
    out: &mut [u8],
    work: &mut [u16],
) -> u64
    ensures { FillSays (picture_of adjacency width height pixels.now) s out.old out.new work.old work.new (answer_in result) }
{
    packed(fill_small_parts(adjacency, width, height, pixels, s, out, work))
}

// The value of the pixel at a place, and the number of its patch, 0 for the line.
#[unsafe(no_mangle)]
pub extern "C" fn controller_query_place(
    adjacency: u32,
    width: u32,
    height: u32,
    pixels: &[u8],
    place: u32,
    work: &mut [u16],
) -> u64
    ensures { QuerySays (picture_of adjacency width height pixels.now) place work.old work.new (queried_in result) }
{
    packed_query(query_place(adjacency, width, height, pixels, place, work))
}

// The value of the pixel at a place, and the number of the patch that a touch there belongs to by a handbook, 0 for the line.
#[unsafe(no_mangle)]
pub extern "C" fn controller_touch_place(
    handbook: u32,
    adjacency: u32,
    width: u32,
    height: u32,
    pixels: &[u8],
    place: u32,
    work: &mut [u16],
) -> u64
    ensures { TouchSays handbook (picture_of adjacency width height pixels.now) place work.old work.new (queried_in result) }
{
    packed_query(touch_place(handbook, adjacency, width, height, pixels, place, work))
}

// The figures of the patches in their order, a list each; the value is the number of patches.
#[unsafe(no_mangle)]
pub extern "C" fn controller_list_patches(
    adjacency: u32,
    width: u32,
    height: u32,
    pixels: &[u8],
    sizes: &mut [u16],
    heights: &mut [u16],
    depths: &mut [u16],
    columns: &mut [u16],
    rows: &mut [u16],
    work: &mut [u16],
) -> u64
    ensures { FiguresSay (picture_of adjacency width height pixels.now) sizes.old sizes.new heights.old heights.new depths.old depths.new columns.old columns.new rows.old rows.new work.old work.new (answer_in result) }
{
    packed(list_figures(
        adjacency, width, height, pixels, sizes, heights, depths, columns, rows, work,
    ))
}

// Saves a picture as a P5 file with the shortest header; the value is the count of bytes, of a refusal 6 the place above 16
// bits.
#[unsafe(no_mangle)]
pub extern "C" fn controller_write_file(
    width: u32,
    height: u32,
    largest: u32,
    pixels: &[u8],
    out: &mut [u8],
) -> u64
    ensures { SaveSays width height largest pixels.now out.old out.new (saved_in result) }
{
    packed_saved(write_file(width, height, largest, pixels, out))
}

// The rows of a picture as they are stored; the value is 0.
#[unsafe(no_mangle)]
pub extern "C" fn controller_store_rows(
    width: u32,
    height: u32,
    pixels: &[u8],
    out: &mut [u8],
) -> u64
    ensures { StoreSays width height pixels.now out.old out.new (answer_in result) }
{
    packed(store_rows(width, height, pixels, out))
}

// The way back: the pixels of stored rows; the value is 0.
#[unsafe(no_mangle)]
pub extern "C" fn controller_restore_rows(
    width: u32,
    height: u32,
    stored: &[u8],
    out: &mut [u8],
) -> u64
    ensures { RestoreSays width height stored.now out.old out.new (answer_in result) }
{
    packed(restore_rows(width, height, stored, out))
}
