// The level book as it stands in its file: a checked book by value, sets of levels, and the book that bytes make.
#![tactic(auto)]

pub mod sets; // sets.rt: sets of levels as numbers
pub mod read; // read.rt: the book from its bytes

ghost use Rattle.std.specs.Prelude.{◌≡◌, ◌<◌};
ghost use Rattle.book.specs.LevelBook.{most_levels, at_or_below};

// The number of levels, and for each level the set of the levels that it is at or below: bit j for level j.
#[derive(Clone, Copy)]
pub struct Book {
    pub count: usize,
    pub rows: [u16; Book::MAX_LEVELS],
}

impl Book {
    // The most levels of a book.
    pub const MAX_LEVELS: usize = 16;

    // The places of pairs, i * MAX_LEVELS + j, are below this number.
    pub const PLACES: usize = Book::MAX_LEVELS * Book::MAX_LEVELS;

    // Level i is at or below level j.
    pub fn at_or_below(&self, i: usize, j: usize) -> bool
        requires { (i < most_levels) × (j < most_levels) }
        ensures { result ≡ at_or_below self.now.rows i j }
    {
        // By `prelude::set::has`, of 64 bits, a sweep over the pairs is slower.
        (self.rows[i] >> j) % 2 == 1
    }
}
