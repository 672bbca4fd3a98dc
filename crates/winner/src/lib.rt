// The winner tree over the candidates: cell n + x is the leaf of the place x, cell i below n the better of the cells 2 i and 2 i + 1.
#![tactic(auto)]

ghost use Rattle.std.specs.Prelude.{◌≡◌, ◌⊎◌, ◌+◌, ◌*◌, ◌/◌, ◌≤◌, ◌<◌, if◌then◌else◌, length, get_or};
ghost use Rattle.watershed_laws.proofs.WinnerTree.{Better, Candidate, Played};
ghost use Rattle.watershed_laws.proofs.WinnerSteps.{WinnerReady, Replaying, Assigned, Filling, Building, MadeCandidate, MakingCandidates};
ghost use Rattle.watershed_laws.proofs.Stopping.{Places};

// The mark of no candidate; a number, since it stands in the 16-bit cells of lent memory.
pub const NO_CANDIDATE: u16 = 65535;

// The better of two candidates: of lesser value, then of smaller place.
fn better(pixels: &[u8], a: u16, b: u16) -> u16
    requires { Candidate (length pixels.now) a × Candidate (length pixels.now) b }
    ensures { Better pixels.now a b result }
{
    if a == NO_CANDIDATE {
        return b;
    }
    if b == NO_CANDIDATE {
        return a;
    }
    let first = usize::from(pixels[usize::from(a)]) * 65536 + usize::from(a);
    let second = usize::from(pixels[usize::from(b)]) * 65536 + usize::from(b);
    if first < second { a } else { b }
}

// Plays a cell again, and answers whether it has changed.
fn play(pixels: &[u8], cells: &mut [u16], i: usize) -> bool
    requires { (i < 1600) × (2 * i + 1 < length cells.old) × Candidate (length pixels.now) (get_or cells.old (2 * i) 0) × Candidate (length pixels.now) (get_or cells.old (2 * i + 1) 0) }
    ensures { Played pixels.now cells.old i cells.new (if result then i / 2 else 0) }
{
    let best = better(pixels, cells[2 * i], cells[2 * i + 1]);
    if cells[i] == best {
        false
    } else {
        cells[i] = best;
        true
    }
}

// Plays a cell and those above it again until one stays as it is.
fn replay(pixels: &[u8], cells: &mut [u16], n: usize, i: usize)
    requires { Replaying n pixels.now cells.old cells.old i × (n ≤ 1600) × (length pixels.now ≡ n) }
    ensures { Replaying n pixels.now cells.old cells.new 0 }
{
    let mut j = i;
    while 0 < j && play(pixels, cells, j) {
        j /= 2;
    }
}

// Sets the leaf of a place to the place or to no candidate.
pub fn assign(pixels: &[u8], cells: &mut [u16], n: usize, x: usize, c: u16)
    requires { WinnerReady n pixels.now cells.old × (x < n) × ((c ≡ x) ⊎ (c ≡ 65535)) }
    ensures { Assigned n pixels.now cells.old x c cells.new }
{
    cells[n + x] = c;
    replay(pixels, cells, n, (n + x) / 2);
}

// Sets every leaf to its place.
fn fill_leaves(cells: &mut [u16], n: usize)
    requires { (length cells.old ≡ 2 * n) × (n ≤ 1600) }
    ensures { Filling n cells.new n }
{
    for x in 0..n {
        cells[n + x] = x as u16;
    }
}

// Makes every place a candidate.
pub fn build_winners(pixels: &[u8], cells: &mut [u16], n: usize)
    requires { (length cells.old ≡ 2 * n) × (1 ≤ n) × (n ≤ 1600) × (length pixels.now ≡ n) }
    ensures { Building n pixels.now cells.new 1 }
{
    fill_leaves(cells, n);
    for i in (1..n).rev() {
        play(pixels, cells, i);
    }
}

// Makes a place a candidate if its value is above the stop and at most k.
fn make_candidate(pixels: &[u8], cells: &mut [u16], n: usize, y: usize, stop: usize, k: usize)
    requires { WinnerReady n pixels.now cells.old × (y < n) }
    ensures { MadeCandidate n pixels.now cells.old stop k y cells.new }
{
    let own = usize::from(pixels[y]);
    if stop < own && own <= k && usize::from(cells[n + y]) != y {
        assign(pixels, cells, n, y, y as u16);
    }
}

// Makes candidates of the neighbours whose value is above the stop and at most k.
pub fn make_candidates(
    pixels: &[u8],
    cells: &mut [u16],
    n: usize,
    near: &[u16],
    stop: usize,
    k: usize,
)
    requires { WinnerReady n pixels.now cells.old × Places n near.now (length near.now) }
    ensures { MakingCandidates n pixels.now cells.old stop k near.now cells.new (length near.now) }
{
    for y in near {
        make_candidate(pixels, cells, n, usize::from(*y), stop, k);
    }
}
