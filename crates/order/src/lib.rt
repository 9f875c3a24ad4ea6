// The order of a level book: any bytes in; out comes a book in order, or refusal 1 or 2.
#![tactic(auto)]

mod disorder; // disorder.rt: the faults of refusal 2
pub mod converse; // converse.rt: the order upside down

ghost use Rattle.std.specs.Prelude.{◌≡◌, IfOk};
ghost use Rattle.prelude.specs.Promises.{outcome};
ghost use Rattle.book.specs.Load.{book_of};
ghost use Rattle.order.specs.Refusals.{refusal};
ghost use Rattle.order.specs.Rows.{InOrder, converse_of};

use book::{Book, read};
use prelude::Refusal;

// A book in order.
#[derive(Clone, Copy)]
pub struct OrderedBook {
    pub book: Book,
    ghost in_order: { InOrder book.rows book.count },
}

impl OrderedBook {
    // The order upside down.
    pub fn converse(&self) -> OrderedBook
        ensures { result.book ≡ converse_of self.now.book }
    {
        OrderedBook {
            book: Book {
                count: self.book.count,
                rows: converse::converse_rows(&self.book),
            },
        }
    }
}

// Checks the size and the order of a level book of any bytes.
#[tactic(auto, using(crate::proofs::Loads::unread, crate::proofs::Loads::faulty, crate::proofs::Loads::faultless))]
pub fn load(s: &[u8]) -> Result<Book, Refusal>
    ensures checked { result ≡ outcome (refusal s.now) (book_of s.now) }
    ensures in_order { IfOk result (λ b. InOrder b.rows b.count) }
{
    let Some(b) = read::read_book(s) else {
        return Err(Refusal::at(1, 0));
    };
    match disorder::first_faulty(&b) {
        Some(i) => Err(Refusal::at(2, i)),
        None => Ok(b),
    }
}
