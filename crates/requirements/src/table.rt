// The flows found so far: for each level the set of the levels to which it must be let flow.
ghost use Rattle.std.specs.Prelude.{◌≡◌, not, ◌&&◌, eqb, get_or, length, ◌<◌};
ghost use Rattle.prelude.specs.Sets.{has, set_of};
ghost use Rattle.prelude.specs.Table.{table};
ghost use Rattle.book.specs.LevelBook.{most_levels};
ghost use Rattle.requirements.specs.Promises.{Adds};

use book::{Book, sets};
use prelude::set;

// For each level a set of levels.
#[derive(Clone, Copy)]
pub struct FlowTable {
    pub sets: [u16; Book::MAX_LEVELS],
    ghost long: { length sets ≡ most_levels },
}

// The set without level i.
#[tactic(auto, using(crate::proofs::Others::taken, crate::proofs::Others::left))]
fn others(set: u16, i: usize) -> u16
    requires { i < most_levels }
    ensures { result ≡ set_of (λ j. not (eqb i j) && has set j) most_levels }
{
    if set::has(u64::from(set), i) {
        sets::without(set, i)
    } else {
        set
    }
}

impl FlowTable {
    // Adds the flows from each level of `from` to each level of `to`.
    #[tactic(auto, using(crate::proofs::Additions::lowest_below, crate::proofs::Additions::lowest_in))]
    pub fn add(&mut self, from: u16, to: u16)
        ensures { Adds self.old.sets (λ i j. has from i && has to j) self.new.sets }
    {
        let mut left = from;
        while left != 0 {
            let i = sets::lowest(left);
            self.sets[i] = sets::union(self.sets[i], to);
            left = sets::without(left, i);
        }
    }

    // The flows from a level to another.
    pub fn between_others(self) -> [u16; Book::MAX_LEVELS]
        ensures { result ≡ table (λ i. set_of (λ j. not (eqb i j) && has (get_or self.sets i 0) j) most_levels) most_levels }
    {
        let mut between = self.sets;
        for i in 0..Book::MAX_LEVELS {
            between[i] = others(self.sets[i], i);
        }
        between
    }
}
