// A table of the pairs of levels.
ghost use Rattle.std.specs.Prelude.{◌≡◌, ◌<◌, length};
ghost use Rattle.book.specs.LevelBook.{most_levels};
ghost use Rattle.pairs.specs.Table.{kept, Keeps, new_level, stored, Stores};

use book::Book;
use std::marker::Model;

// A level for each pair of levels, at each of its two entries: any array.
#[derive(Clone, Copy)]
pub struct PairTable {
    pub levels: [[u8; Book::MAX_LEVELS]; Book::MAX_LEVELS],
}

impl Model for PairTable {
    ghost use Rattle.std.specs.Prelude.{List, ℕ};
    ghost use Rattle.book.specs.LevelBook.{most_levels};
    ghost use Rattle.pairs.specs.Table.{Square};

    ghost Value = { List (List ℕ) };

    ghost view = { λ t. t.levels };

    ghost invariant = { λ t. Square most_levels t.levels };

    ghost inverse = { λ levels. record { levels = levels } };
}

impl PairTable {
    // The table of this array. It is gone over by rows, since the length of a row is known where the row is handed on alone.
    pub fn of(levels: [[u8; Book::MAX_LEVELS]; Book::MAX_LEVELS]) -> PairTable
        ensures { result ≡ levels }
    {
        PairTable {
            levels: levels.map(
                |row|
                    ensures { (result ≡ row) × (length row ≡ most_levels) }
                { row },
            ),
        }
    }

    // The same level for every pair.
    pub fn filled(level: u8) -> PairTable
        ensures { Keeps result most_levels (λ _ _. level) }
    {
        PairTable {
            levels: [[level; Book::MAX_LEVELS]; Book::MAX_LEVELS],
        }
    }

    // The level that a table keeps for the pair of i and j.
    pub fn level_at(&self, i: usize, j: usize) -> usize
        requires { (i < most_levels) × (j < most_levels) }
        ensures { result ≡ kept self.now i j }
    {
        usize::from(self.levels[i][j])
    }

    // Keeps a level at both entries of the pair of i and j.
    pub fn store(&mut self, i: usize, j: usize, level: usize)
        requires { (i < most_levels) × ((j < most_levels) × (level < most_levels)) }
        ensures stored { self.new ≡ stored self.old i j level }
        ensures entries { Stores self.old i j level self.new }
    {
        self.levels[i][j] = level as u8;
        self.levels[j][i] = level as u8;
    }

    // A new table: each level is kept for itself, and 0 for every pair of two.
    pub fn new() -> PairTable
        ensures { Keeps result most_levels new_level }
    {
        let mut table = PairTable::filled(0);
        for i in 0..Book::MAX_LEVELS {
            table.store(i, i, i);
        }
        table
    }
}

// The join and the meet of each pair of levels.
#[derive(Clone, Copy)]
pub struct Tables {
    pub join: PairTable,
    pub meet: PairTable,
}

impl Tables {
    // Each level is kept for itself, and 0 for every pair of two.
    pub fn new() -> Tables
        ensures joins { Keeps result.join most_levels new_level }
        ensures meets { Keeps result.meet most_levels new_level }
    {
        let table = PairTable::new();
        Tables {
            join: table,
            meet: table,
        }
    }
}
