// The lattice of a level book: the greatest and the least level of all; refusals 1 to 3 together, and the laws of a book that
// they let through.
#![tactic(auto)]

ghost use Rattle.std.specs.Prelude.{◌≡◌, ◌≤◌};
ghost use Rattle.prelude.specs.Search.{all};
ghost use Rattle.prelude.specs.Sets.{IsSet};
ghost use Rattle.order.specs.Order.{top, bottom};
ghost use Rattle.order.specs.Rows.{InOrder};
ghost use Rattle.book.specs.Load.{book_of};
ghost use Rattle.pairs.specs.Promises.{KeepsAll};
ghost use Rattle.prelude.specs.Promises.{Answers};
ghost use Rattle.book.specs.LevelBook.{most_levels, at_or_below};
ghost use Rattle.lattice.specs.Refusals.{refusal};

use book::{Book, sets};
use order::OrderedBook;
use pairs::table::Tables;
use prelude::{Refusal, search};

// The levels that every level is at or below.
#[tactic(auto, using(prelude::proofs::Sets::has_both, prelude::proofs::Searches::all_more))]
fn common(b: &Book) -> u16
    requires { b.now.count ≤ most_levels }
    ensures { IsSet most_levels (λ t. all (λ i. at_or_below b.now.rows i t) b.now.count) result }
{
    let mut set = !0u16;
    for i in 0..b.count {
        set &= b.rows[i];
    }
    set
}

// The greatest level of all, that every level is at or below. (It need not be the last.)
pub fn top_of(b: Book) -> usize
    requires { b.count ≤ most_levels }
    ensures { result ≡ top (at_or_below b.rows) b.count }
{
    sets::lowest(common(&b)).min(b.count)
}

// The least level of all, that is at or below every level. (It need not be the first.)
pub fn bottom_of(b: Book) -> usize
    requires { b.count ≤ most_levels }
    ensures { result ≡ bottom (at_or_below b.rows) b.count }
{
    search::first(b.count, |t| !sets::any_outside(!0u16, b.rows[t], b.count)).unwrap_or(b.count)
}

// A book that refusals 1 to 3 let through, with both levels of every pair.
#[derive(Clone, Copy)]
pub struct CheckedBook {
    pub book: Book,
    pub tables: Tables,
    ghost in_order: { InOrder book.rows book.count },
    ghost keeps_all: { KeepsAll book tables },
}

// Refusals 1 to 3, of any bytes.
#[tactic(auto, unfolding(crate::specs::Refusals::refusal))]
pub fn load(s: &[u8]) -> Result<CheckedBook, Refusal>
    ensures { Answers (refusal s.now) (λ c. c.book ≡ book_of s.now) result }
{
    let book = order::load(s)?;
    let tables = pairs::find_tables(&OrderedBook { book })?;
    Ok(CheckedBook { book, tables })
}
