// Searches over the numbers below n, by a test.
ghost use Rattle.std.specs.Prelude.{◌≡◌, ℕ, Bool, ◌<◌};
ghost use Rattle.prelude.specs.Search.{first, any, all};
ghost use Rattle.prelude.specs.Promises.{Covers, Computes, found};

// The smallest number below n at which the test holds.
pub fn first<F: Fn(usize) -> bool>(n: usize, test: F) -> Option<usize>
    requires { Covers (F.pre test) n }
    ensures { (f : ℕ → Bool) → Computes (F.post test) n f → result ≡ found f n }
{
    for i in 0..n {
        if test(i) {
            return Some(i);
        }
    }
    None
}

// The test holds at some number below n.
pub fn any<F: Fn(usize) -> bool>(n: usize, test: F) -> bool
    requires { Covers (F.pre test) n }
    ensures { (f : ℕ → Bool) → Computes (F.post test) n f → result ≡ any f n }
{
    first(n, test).is_some()
}

// The test holds at every number below n.
pub fn all<F: Fn(usize) -> bool>(n: usize, test: F) -> bool
    requires { Covers (F.pre test) n }
    ensures { (f : ℕ → Bool) → Computes (F.post test) n f → result ≡ all f n }
{
    !any(
        n,
        |i|
            requires { F.pre test i }
        { !test(i) },
    )
}
