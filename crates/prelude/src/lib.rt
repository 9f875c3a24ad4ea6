// What every layer shares: the form of a refusal, and numbers as the files write them.
#![tactic(auto)]

pub mod search; // search.rt: the first number at which a test holds
pub mod set; // set.rt: sets of numbers as numbers

ghost use Rattle.std.specs.Prelude.{◌≡◌, ◌^◌, ◌<◌};
ghost use Rattle.prelude.specs.Numbers.{word};
ghost use Rattle.prelude.specs.Refusals.{refused_by};
ghost use Rattle.prelude.specs.Search.{lesser};

// A refusal: its number in 01's table, which the calls answer and the programs print, and its place.
#[derive(Clone, Copy)]
pub struct Refusal {
    pub number: u32,
    pub place: u32,
}

impl Refusal {
    // The refusal of this row of the table, at this place.
    pub fn at(number: u32, place: usize) -> Refusal
        requires { place < 2 ^ 32 }
        ensures { result ≡ refused_by number place }
    {
        Refusal {
            number,
            place: place as u32,
        }
    }
}

// The number that two bytes of a file make, the high byte first.
pub fn word_of(high: u8, low: u8) -> u16
    ensures { result ≡ word high low }
{
    u16::from_be_bytes([high, low])
}

// A byte as a number that can be an index.
pub fn wide(x: u8) -> usize
    ensures { result ≡ x }
{
    usize::from(x)
}

pub fn lesser(a: usize, b: usize) -> usize
    ensures { result ≡ lesser a b }
{
    a.min(b)
}
