// The places of parts in refusals 7 to 10.
ghost use Rattle.std.specs.Prelude.{◌≡◌, ◌+◌, ◌≤◌, ◌<◌};
ghost use Rattle.layout.specs.Layout.{most_expressions, most_nodes};
ghost use Rattle.layout.specs.Places.{place_of_part, at_part};

use crate::Script;
use prelude::Refusal;

// The place of part q, where e parts are expressions.
pub fn place_of_part(e: usize, q: usize) -> usize
    requires { q < e + most_nodes }
    ensures { result ≡ place_of_part e q }
{
    if q < e {
        return q;
    }
    Script::MAX_EXPRESSIONS + (q - e)
}

// The refusal at part q, the smallest at fault among the first n, of which e are expressions; none if q is not one of them.
pub fn at_part(number: u32, e: usize, n: usize, q: usize) -> Refusal
    requires { (e ≤ most_expressions) × (n ≤ e + most_nodes) }
    ensures { result ≡ at_part number e n q }
{
    if n <= q {
        return Refusal::at(0, 0);
    }
    Refusal::at(number, place_of_part(e, q))
}
