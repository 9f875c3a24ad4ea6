// Sets of numbers below 64 as numbers: bit x says that x is in the set.
ghost use Rattle.std.specs.Prelude.{◌≡◌, ◌||◌, eqb, ◌<◌};
ghost use Rattle.prelude.specs.Sets.{has, IsSet};

// The set has x.
pub fn has(set: u64, x: usize) -> bool
    requires { x < 64 }
    ensures { result ≡ has set x }
{
    (set >> x) % 2 == 1
}

// The set with x.
pub fn with(set: u64, x: usize) -> u64
    requires { x < 64 }
    ensures { IsSet 64 (λ y. eqb x y || has set y) result }
{
    set | (1 << x)
}
