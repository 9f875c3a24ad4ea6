// The levels of a book, as the walk looks them up.
ghost use Rattle.std.specs.Prelude.{◌≡◌, ◌<◌};
ghost use Rattle.pairs.specs.Promises.{KeepsAll};
ghost use Rattle.flow.specs.Flow.{levels_of, lattice_by, Ordered};

use book::Book;
use pairs::table::Tables;

// A checked book, the tables of its joins and its meets, its greatest and its least level.
#[derive(Clone, Copy)]
pub struct LevelTables<'a> {
    pub book: Book,
    pub tables: &'a Tables,
    pub top: usize,
    pub bottom: usize,
    ghost ordered: { Ordered (levels_of book) },
    ghost kept: { KeepsAll book tables.now },
    ghost greatest: { top ≡ (lattice_by book).top },
    ghost least: { bottom ≡ (lattice_by book).bottom },
}

impl LevelTables<'_> {
    // The join of levels i and j.
    pub fn join(&self, i: usize, j: usize) -> usize
        requires { (i < self.now.book.count) × (j < self.now.book.count) }
        ensures same { result ≡ (lattice_by self.now.book).join i j }
        ensures inside { result < self.now.book.count }
    {
        self.tables.join.level_at(i, j)
    }
}
