// Why a file or a call is refused.
#![tactic(auto)]

ghost use Rattle.std.specs.Prelude.{◌≡◌};
ghost use Rattle.refusals.specs.Refusals.{number_of, place_of};

// Why a file or a call is refused; the scope document gives each its number.
#[derive(Clone, Copy, PartialEq, Eq)]
pub enum Refusal {
    // 1: the file does not begin with P5.
    NotP5,
    // 2: the header is not well formed at this place.
    Malformed(usize),
    // 3: a side is outside 1 to 40.
    SideOutside,
    // 4: the largest sample is outside 1 to 255.
    LargestOutside,
    // 5: the pixels of a file are not as many as its places.
    CountDiffers,
    // 6: the pixel at this place is above the largest sample.
    PixelAbove(usize),
    // 7: the adjacency is neither 4 nor 8.
    AdjacencyUnknown,
    // 8: the lent pixels or stored bytes are not as many as the picture's places.
    LengthDiffers,
    // 9: lent memory is too short.
    MemoryShort,
    // 10: a place is n or more.
    PlaceOutside,
    // 11: the lent tree is not that of the picture.
    NotTheTree,
    // 12: the input is too long.
    InputTooLong,
    // 13: a least size is 0 or above n.
    SizeOutside,
    // 14: the handbook is neither 4 nor 5.
    HandbookUnknown,
}

impl Refusal {
    // The refusal's number.
    pub fn number(self) -> u8
        ensures { result ≡ number_of self }
    {
        match self {
            Refusal::NotP5 => 1,
            Refusal::Malformed(_) => 2,
            Refusal::SideOutside => 3,
            Refusal::LargestOutside => 4,
            Refusal::CountDiffers => 5,
            Refusal::PixelAbove(_) => 6,
            Refusal::AdjacencyUnknown => 7,
            Refusal::LengthDiffers => 8,
            Refusal::MemoryShort => 9,
            Refusal::PlaceOutside => 10,
            Refusal::NotTheTree => 11,
            Refusal::InputTooLong => 12,
            Refusal::SizeOutside => 13,
            Refusal::HandbookUnknown => 14,
        }
    }

    // The place that the refusal names, 0 where it names none.
    pub fn place(self) -> usize
        ensures { result ≡ place_of self }
    {
        match self {
            Refusal::Malformed(place) | Refusal::PixelAbove(place) => place,
            _ => 0,
        }
    }
}
