// Where climbs meet in the cells of a tree: heights, fathers and the map, n cells each.
ghost use Rattle.std.specs.Prelude.{◌≤◌, ◌<◌};
ghost use Rattle.watershed_laws.proofs.Stopping.{Climbs, Meets};

use ancestors::nearest_common_ancestor;

// The height at which the climbs from the nodes of two places meet.
pub fn meeting_height(tree: &[u16], n: usize, y: usize, z: usize) -> usize
    requires { Climbs n tree.now × (n ≤ 1600) × (y < n) × (z < n) }
    ensures { Meets n tree.now y z result }
{
    let e = 2 * n;
    let a = usize::from(tree[e + y]);
    let b = usize::from(tree[e + z]);
    let top = nearest_common_ancestor(&tree[n..e], a, b);
    usize::from(tree[top])
}
