// The nearest common ancestor of two nodes of a tree, found by the list of fathers.
#![tactic(auto)]

ghost use Rattle.std.specs.Prelude.{get_or};
ghost use Rattle.topology.proofs.Climb.{Meet};
ghost use Rattle.ancestors.specs.Ancestors.{Climbing};

// The father of the root, which has none; a number, since fathers stand in 16-bit cells of lent memory (the scope document's lists).
pub const NO_FATHER: u16 = 65535;

// The nearest common ancestor of two nodes: a father's number is greater than its sons'.
pub fn nearest_common_ancestor(fathers: &[u16], a: usize, b: usize) -> usize
    requires { Climbing fathers.now a b }
    ensures { Meet (λ i. get_or fathers.now i 0) a b result }
{
    let mut c = a;
    let mut d = b;
    while c != d {
        if c < d {
            c = usize::from(fathers[c]);
        } else {
            d = usize::from(fathers[d]);
        }
    }
    c
}
