// The ranges of the largest sample and of the pixels.
ghost use Rattle.std.specs.Prelude.{◌≡◌, true, ◌&&◌, ◌*◌, eqb, nat_lt};
ghost use Rattle.std.specs.List.{position};
ghost use Rattle.picture.specs.Pictures.{side_fits};
ghost use Rattle.p5.specs.Files.{largest_fits};

// A largest sample from 1 to 255.
pub fn largest_fits(largest: u32) -> bool
    ensures { result ≡ largest_fits largest }
{
    (1..=255).contains(&largest)
}

// The pixels are as many as the places of a picture with these sides.
pub fn count_fits(width: u32, height: u32, count: usize) -> bool
    requires { side_fits width && side_fits height ≡ true }
    ensures { result ≡ eqb count (width * height) }
{
    count == (width * height) as usize
}

// The first place above the largest sample.
pub fn first_above(pixels: &[u8], largest: u32) -> Option<usize>
    ensures { result ≡ position (nat_lt largest) pixels.now }
{
    pixels.iter().position(|pixel| u32::from(*pixel) > largest)
}
