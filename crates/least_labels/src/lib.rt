// The least labels below the nodes of a tree in cells: each node hands its label to its father.
#![tactic(auto)]

ghost use Rattle.std.specs.Prelude.{◌≡◌, ◌*◌, ◌≤◌, ◌<◌, length};
ghost use Rattle.least_labels.specs.LeastLabels.{Handed, LeastLabel};

// Lowers the label of the father of the node i to that of i, where that is less; the root has no father.
pub fn hand_up(n: usize, i: usize, work: &mut [u16])
    requires { (n ≤ 1600) × (length work.old ≡ 5 * n) × (i < n) }
    ensures { Handed n i work.old work.new }
{
    let f = usize::from(work[n + i]);
    if f < n && work[4 * n + i] < work[4 * n + f] {
        work[4 * n + f] = work[4 * n + i];
    }
}

// The least label of the node m and the nodes below it. The nodes before m hand their labels up, by rising number.
pub fn least_label(n: usize, m: usize, work: &mut [u16]) -> u16
    requires { (n ≤ 1600) × (length work.old ≡ 5 * n) × (m < n) }
    ensures { LeastLabel n m work.old result }
{
    for i in 0..m {
        hand_up(n, i, work);
    }
    work[4 * n + m]
}
