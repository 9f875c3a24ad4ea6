// Both levels of a pair: its join and its meet.
ghost use Rattle.std.specs.Prelude.{◌≡◌, ◌<◌, MatchOption};
ghost use Rattle.order.specs.Rows.{order_of, converse_of};
ghost use Rattle.pairs.specs.Promises.{found_upper, LacksOne, HasBoth};

use book::sets;
use order::OrderedBook;

// The least common upper level of i and j. In an order it is the level whose row is what the rows of the two share, and no
// level below the lowest of these can be it. In the order upside down it is the greatest common lower level, so that one search
// serves both.
fn least_upper(levels: &OrderedBook, i: usize, j: usize) -> Option<usize>
    requires { (i < levels.now.book.count) × (j < levels.now.book.count) }
    ensures { result ≡ found_upper (order_of levels.now.book) levels.now.book.count i j }
{
    let rows = &levels.book.rows;
    let uppers = rows[i] & rows[j];
    for k in sets::lowest(uppers)..levels.book.count {
        if rows[k] == uppers {
            return Some(k);
        }
    }
    None
}

// An order, and beside it the order upside down.
#[derive(Clone, Copy)]
pub struct Sides {
    pub up: OrderedBook,
    pub down: OrderedBook,
    ghost turned: { down.book ≡ converse_of up.book },
}

// Both levels of a pair.
#[derive(Clone, Copy)]
pub struct Bounds {
    pub upper: usize,
    pub lower: usize,
}

impl Sides {
    pub fn of(levels: OrderedBook) -> Sides
        ensures { result.up.book ≡ levels.book }
    {
        Sides {
            up: levels,
            down: levels.converse(),
        }
    }

    // Of two levels in order the upper one is the join and the lower one the meet; only for two that stand side by side is there
    // a search.
    #[tactic(auto, using(crate::proofs::Bounds::searched, crate::proofs::Bounds::no_upper, crate::proofs::Bounds::no_lower))]
    pub fn bounds(&self, i: usize, j: usize) -> Option<Bounds>
        requires { (i < self.now.up.book.count) × (j < self.now.up.book.count) }
        ensures { MatchOption result (LacksOne self.now.up.book i j) (λ b. HasBoth self.now.up.book i j b.upper b.lower) }
    {
        if self.up.book.at_or_below(j, i) {
            return Some(Bounds { upper: i, lower: j });
        }
        if self.up.book.at_or_below(i, j) {
            return Some(Bounds { upper: j, lower: i });
        }
        Some(Bounds {
            upper: least_upper(&self.up, i, j)?,
            lower: least_upper(&self.down, i, j)?,
        })
    }
}
