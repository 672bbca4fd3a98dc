// The climb from each leaf of a tree in cells to a leaf of a smaller number, put in the place of the leaf's father.
#![tactic(auto)]

ghost use Rattle.std.specs.Prelude.{◌≡◌, ◌*◌, ◌≤◌, ◌<◌, length};
ghost use Rattle.lists.specs.Blocks.{block_entry};
ghost use Rattle.least_labels.specs.LeastLabels.{FathersRise};
ghost use Rattle.climbs.specs.Climbs.{NodesLabelled, OwnLabels, height_or_most, ClimbPut, ClimbsBefore, Climbs};

use least_labels::hand_up;

// Labels each of count nodes with its own number.
fn label_nodes(n: usize, count: usize, work: &mut [u16])
    requires { (n ≤ 1600) × (length work.old ≡ 5 * n) × (count ≤ n) }
    ensures { NodesLabelled n count work.old work.new }
{
    for i in 0..count {
        work[4 * n + i] = i as u16;
    }
}

// The height of the node f; the largest value if f is no node.
#[tactic(auto, unfolding(crate::specs::Climbs::height_or_most))]
fn height_or_most(n: usize, most: u16, work: &[u16], f: usize) -> u16
    requires { length work.now ≡ 5 * n }
    ensures { result ≡ height_or_most n most work.now f }
{
    if f < n { work[f] } else { most }
}

// Puts the height of the father of the node i as the climb of the least leaf below i; it replaces what the nodes below i put.
fn put_climb(n: usize, i: usize, most: u16, work: &mut [u16])
    requires { (n ≤ 1600) × (length work.old ≡ 5 * n) × (i < n) × (block_entry work.old (4 * n) i < n) }
    ensures { ClimbPut n i most work.old work.new }
{
    let leaf = usize::from(work[4 * n + i]);
    let f = usize::from(work[n + i]);
    work[n + leaf] = height_or_most(n, most, work, f);
}

// Node by node, by rising number: each hands its least leaf to its father, and puts its climb.
fn put_by_labels(n: usize, count: usize, most: u16, work: &mut [u16])
    requires { (n ≤ 1600) × (length work.old ≡ 5 * n) × (count ≤ n) × FathersRise n count work.old × OwnLabels n count work.old }
    ensures { ClimbsBefore n count most count work.old work.new }
{
    for i in 0..count {
        hand_up(n, i, work);
        put_climb(n, i, most, work);
    }
}

// Puts the climb of each leaf of count nodes in the place of its father; the fifth block is overwritten.
pub fn put_climbs(n: usize, count: usize, most: u16, work: &mut [u16])
    requires { (n ≤ 1600) × (length work.old ≡ 5 * n) × (count ≤ n) × FathersRise n count work.old }
    ensures { Climbs n count most work.old work.new }
{
    label_nodes(n, count, work);
    put_by_labels(n, count, most, work);
}
