// The pairs of a book's levels: the join and the meet of each, found once and kept; refusal 3.
#![tactic(auto)]

pub mod table; // table.rt: a level for each pair of levels
mod sides; // sides.rt: both levels of a pair

ghost use Rattle.std.specs.Prelude.{◌≡◌, ◌+◌, ◌<◌};
ghost use Rattle.prelude.specs.Promises.{Answers, outcome};
ghost use Rattle.order.specs.Rows.{order_of};
ghost use Rattle.pairs.specs.Promises.{taken_before, SweepsLevel, KeepsAll, pair_refusal, place_or_end};
ghost use Rattle.pairs.specs.Refusals.{lack_refusal};
ghost use Rattle.pairs.specs.Sweeping.{Sweeps};

use crate::sides::Sides;
use crate::table::Tables;
use book::Book;
use order::OrderedBook;
use prelude::Refusal;

// What a sweep gives: how many pairs it took up, and the place of the last of them if that lacks a level.
#[derive(Clone, Copy)]
pub struct Swept {
    pub taken: usize,
    pub place: Option<u32>,
}

// Refusal 3, of the place of the first pair that lacks a level: none from PLACES on, where no pair stands.
pub fn lack_refusal(place: Option<u32>) -> Result<(), Refusal>
    ensures { result ≡ outcome (lack_refusal (place_or_end place)) tt }
{
    match place {
        Some(place) if (place as usize) < Book::PLACES => Err(Refusal { number: 3, place }),
        _ => Ok(()),
    }
}

// Takes up the pairs of level i with the levels behind it, when `taken` of the first `most` pairs are taken up.
fn sweep_level(both: &Sides, i: usize, most: usize, mut taken: usize, tables: &mut Tables) -> Swept
    requires { (i < both.now.up.book.count) × (taken ≡ taken_before both.now.up.book.count most i (i + 1)) }
    ensures { SweepsLevel both.now.up.book most i taken tables.old tables.new result }
{
    for j in i + 1..both.up.book.count {
        if most <= taken {
            break;
        }
        taken += 1;
        let Some(bounds) = both.bounds(i, j) else {
            let place = Book::MAX_LEVELS * i + j;
            return Swept {
                taken,
                place: Some(place as u32),
            };
        };
        tables.join.store(i, j, bounds.upper);
        tables.meet.store(i, j, bounds.lower);
    }
    Swept { taken, place: None }
}

// Takes up the first `most` pairs i < j of a book in order, by i, then by j, up to the first that lacks its upper or its lower
// level. Each of the others gets both at both of its entries; no other entry changes.
pub fn sweep(levels: &OrderedBook, most: usize, tables: &mut Tables) -> Swept
    ensures { Sweeps (order_of levels.now.book) levels.now.book.count most tables.old tables.new result }
{
    let both = Sides::of(*levels);
    let mut swept = Swept {
        taken: 0,
        place: None,
    };
    'pairs: for i in 0..levels.book.count {
        if most <= swept.taken {
            break 'pairs;
        }
        swept = sweep_level(&both, i, most, swept.taken, tables);
        if swept.place.is_some() {
            break 'pairs;
        }
    }
    swept
}

// Both levels of every pair of a book in order, or refusal 3.
pub fn find_tables(levels: &OrderedBook) -> Result<Tables, Refusal>
    ensures { Answers (pair_refusal levels.now.book) (KeepsAll levels.now.book) result }
{
    let mut tables = Tables::new();
    // All pairs: there are no more of them than places.
    let swept = sweep(levels, Book::PLACES, &mut tables);
    // Behind `?` each function that hands the tables on would move them in small parts.
    match lack_refusal(swept.place) {
        Ok(()) => Ok(tables),
        Err(refusal) => Err(refusal),
    }
}
