// The sides of a picture.
#![tactic(auto)]

ghost use Rattle.std.specs.Prelude.{◌≡◌, ◌&&◌};
ghost use Rattle.picture.specs.Pictures.{side_fits};

// Both sides are 1 to 40.
pub fn sides_fit(width: u32, height: u32) -> bool
    ensures { result ≡ side_fits width && side_fits height }
{
    (1..=40).contains(&width) && (1..=40).contains(&height)
}
