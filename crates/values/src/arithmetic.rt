// Operators on signed 32-bit values: worked in 64 bits, where every result is exact, then clamped.
ghost use Rattle.std.specs.Prelude.{◌≡◌, false, nat_abs};
ghost use Rattle.values.specs.Values.{clamped, sum, difference, product, is_zero, rounded, quotient};

use std::cmp::Ordering;

// The nearest of the values of 32 bits.
#[tactic(auto, unfolding(crate::specs::Values::clamped))]
fn clamp(x: i64) -> i32
    ensures { result ≡ clamped x }
{
    x.clamp(i64::from(i32::MIN), i64::from(i32::MAX)) as i32
}

pub fn add(a: i32, b: i32) -> i32
    ensures { result ≡ sum a b }
{
    clamp(i64::from(a) + i64::from(b))
}

pub fn subtract(a: i32, b: i32) -> i32
    ensures { result ≡ difference a b }
{
    clamp(i64::from(a) - i64::from(b))
}

pub fn multiply(a: i32, b: i32) -> i32
    ensures { result ≡ product a b }
{
    clamp(i64::from(a) * i64::from(b))
}

// How far a / b is from 0, to the nearest whole number, a tie to the even one: the one place that knows how a quotient is
// rounded.
#[tactic(auto, unfolding(crate::specs::Values::rounded))]
fn round(a: i32, b: i32) -> u32
    requires { is_zero b ≡ false }
    ensures { result ≡ rounded (nat_abs a) (nat_abs b) }
{
    let m = a.unsigned_abs();
    let n = b.unsigned_abs();
    let cut = m / n;
    let twice = 2 * (m % n);
    match twice.cmp(&n) {
        Ordering::Less => cut,
        Ordering::Equal => cut + cut % 2,
        Ordering::Greater => cut + 1,
    }
}

// Division by zero gives 0.
#[tactic(auto, unfolding(crate::specs::Values::quotient))]
pub fn divide(a: i32, b: i32) -> i32
    ensures { result ≡ quotient a b }
{
    if b == 0 {
        return 0;
    }
    let size = i64::from(round(a, b));
    if (a < 0) == (b < 0) {
        return clamp(size);
    }
    clamp(0 - size)
}
