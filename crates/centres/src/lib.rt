// The centre of a patch in tenths.
#![tactic(auto)]

ghost use Rattle.std.specs.Prelude.{◌≡◌, ◌≤◌};
ghost use Rattle.centres.specs.Centres.{centre};

// A centre in tenths, from a sum of columns or rows and the size: the nearest tenth, at a half the even one.
pub fn centre(sum: u32, size: u32) -> u32
    requires { (1 ≤ size) × (sum ≤ 65535) }
    ensures { result ≡ centre sum size }
{
    let lower = 10 * sum / size;
    let twice = 2 * (10 * sum % size);
    if twice < size {
        lower
    } else if size < twice {
        lower + 1
    } else {
        lower + lower % 2
    }
}
