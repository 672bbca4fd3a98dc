// The end of a call: what is the same in every call.
#![tactic(auto)]

ghost use Rattle.std.specs.Prelude.{◌≡◌, ◌*◌, ◌≤◌, length};
ghost use Rattle.answers.specs.Answers.{cleared};

// The first 5 n entries of work become 0.
pub fn clear_work(work: &mut [u16], n: usize)
    requires { (n ≤ 1600) × (5 * n ≤ length work.old) }
    ensures { work.new ≡ cleared n work.old }
{
    work[..5 * n].fill(0);
}
