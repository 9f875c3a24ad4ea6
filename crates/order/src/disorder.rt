// The order of a book: the faults of refusal 2.
ghost use Rattle.std.specs.Prelude.{◌≡◌, ◌&&◌, ◌^◌, ◌<◌, ◌≤◌, get_or};
ghost use Rattle.prelude.specs.Promises.{found};
ghost use Rattle.prelude.specs.Search.{any};
ghost use Rattle.prelude.specs.Sets.{has, outside};
ghost use Rattle.book.specs.LevelBook.{most_levels};
ghost use Rattle.order.specs.Refusals.{is_faulty};

use book::{Book, sets};
use prelude::search;

// `others` are the other levels that a level is at or below. One of them is at or below a level that is none of them:
// then it holds both ways with the level, or the relation is not transitive.
fn any_fault(b: &Book, others: u16) -> bool
    requires { (b.now.count ≤ most_levels) × (others < 2 ^ b.now.count) }
    ensures { result ≡ any (λ j. has others j && outside (get_or b.now.rows j 0) others b.now.count) b.now.count }
{
    // Only the members of the set: a search over all levels takes longer.
    let mut left = others;
    while left != 0 {
        let j = sets::lowest(left);
        if sets::any_outside(b.rows[j], others, b.count) {
            return true;
        }
        left = sets::without(left, j);
    }
    false
}

#[tactic(auto, using(crate::proofs::Faultless::faults_by_sets), unfolding(crate::specs::Refusals::is_faulty))]
fn is_faulty(b: &Book, i: usize) -> bool
    requires { (i < b.now.count) × (b.now.count ≤ most_levels) }
    ensures { result ≡ is_faulty b.now.rows b.now.count i }
{
    let row = b.rows[i];
    !b.at_or_below(i, i) || sets::any_beyond(row, b.count) || any_fault(b, sets::without(row, i))
}

// The smallest level at fault.
pub fn first_faulty(b: &Book) -> Option<usize>
    requires { b.now.count ≤ most_levels }
    ensures { result ≡ found (is_faulty b.now.rows b.now.count) b.now.count }
{
    search::first(b.count, |i| is_faulty(b, i))
}
