// Sets of levels as numbers: bit j says that level j is in the set.
ghost use Rattle.std.specs.Prelude.{◌≡◌, true, ◌||◌, ◌-◌, ◌/◌, ◌^◌, ◌<◌, ◌≤◌, eqb, ltb};
ghost use Rattle.prelude.specs.Search.{first};
ghost use Rattle.prelude.specs.Sets.{has, IsSet, outside};
ghost use Rattle.book.specs.LevelBook.{most_levels};

// The set of level j alone.
#[tactic(auto, using(prelude::proofs::Sets::has_one, crate::proofs::Shifts::shifted_one))]
pub fn only(j: usize) -> u16
    requires { j < most_levels }
    ensures { IsSet most_levels (eqb j) result }
{
    1 << j
}

// The levels of two sets together.
#[tactic(auto, using(prelude::proofs::Sets::has_either))]
pub fn union(set: u16, other: u16) -> u16
    ensures { IsSet most_levels (λ j. has set j || has other j) result }
{
    set | other
}

// The smallest level of the set, or the most levels of a book.
#[tactic(auto, using(prelude::proofs::Sets::trailing_is))]
pub fn lowest(set: u16) -> usize
    ensures { result ≡ first (has set) most_levels }
{
    u16::trailing_zeros(set) as usize
}

// The set without level j, which it has.
pub fn without(set: u16, j: usize) -> u16
    requires { (j < most_levels) × (has set j ≡ true) }
    ensures { result ≡ set - 2 ^ j }
{
    set - (1 << j)
}

// A number from n on is in the set.
pub fn any_beyond(set: u16, n: usize) -> bool
    requires { n ≤ most_levels }
    ensures { result ≡ ltb 0 (set / 2 ^ n) }
{
    0 < u32::from(set) >> n
}

// Of the first n levels, one is in `set` and not in `other`.
pub fn any_outside(set: u16, other: u16, n: usize) -> bool
    requires { n ≤ most_levels }
    ensures { result ≡ outside set other n }
{
    let end: u32 = 1 << n;
    let all = u32::from(set);
    let both = all & u32::from(other);
    both % end != all % end
}
