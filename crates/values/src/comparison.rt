// Operators on signed 32-bit values that give 1 or 0.
ghost use Rattle.std.specs.Prelude.{◌≡◌};
ghost use Rattle.values.specs.Values.{less_than, equal_to, negation};

pub fn less(a: i32, b: i32) -> i32
    ensures { result ≡ less_than a b }
{
    i32::from(a < b)
}

pub fn equal(a: i32, b: i32) -> i32
    ensures { result ≡ equal_to a b }
{
    i32::from(a == b)
}

pub fn not(a: i32) -> i32
    ensures { result ≡ negation a }
{
    i32::from(a == 0)
}
