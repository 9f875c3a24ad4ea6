// Refusal 15: the list of signals.
ghost use Rattle.std.specs.Prelude.{◌≡◌, not};
ghost use Rattle.prelude.specs.Search.{lesser};
ghost use Rattle.inputs.specs.Lists.{pairs_begun};
ghost use Rattle.prelude.specs.Promises.{found, outcome};
ghost use Rattle.arguments.specs.Refusals.{is_session_signal, pair_is_right, last_place, list_refusal};

use layout::file::File;
use layout::parts::SESSION;
use prelude::Refusal;
use prelude::search::first;

// The greatest place that 32 bits hold.
const LAST_PLACE: usize = 4294967295;

fn is_session_signal(file: &File<'_>, a: usize) -> bool
    ensures { result ≡ is_session_signal file.now.bytes.now a }
{
    if file.layout.names <= a {
        return false;
    }
    let name = file.name(a);
    name.owner == SESSION && name.kind == 1
}

// Whether pair k is whole and names a session signal, for an instant that is neither 0 nor less than the one before.
fn pair_is_right(file: &File<'_>, list: &[u32], k: usize) -> bool
    ensures { result ≡ pair_is_right file.now.bytes.now list.now k }
{
    if inputs::pair_count(list) <= k {
        return false;
    }
    let instant = inputs::instant_at(list, k);
    if instant == 0 {
        return false;
    }
    if 0 < k && instant < inputs::instant_at(list, k - 1) {
        return false;
    }
    let a = inputs::signal_at(list, k);
    is_session_signal(file, a)
}

// How many pairs there are, with a half one at the end.
fn pairs_begun(list: &[u32]) -> usize
    ensures { result ≡ pairs_begun list.now }
{
    list.len() / 2 + list.len() % 2
}

// The first pair at fault.
fn first_faulty(file: &File<'_>, list: &[u32]) -> Option<usize>
    ensures { result ≡ found (λ k. not (pair_is_right file.now.bytes.now list.now k)) (pairs_begun list.now) }
{
    first(pairs_begun(list), |k| !pair_is_right(file, list, k))
}

// The place of pair k: 32 bits hold no greater one.
fn place_of(k: usize) -> usize
    ensures { result ≡ lesser k last_place }
{
    k.min(LAST_PLACE)
}

// Row 15: every pair is right.
pub fn check_list(file: &File<'_>, list: &[u32]) -> Result<(), Refusal>
    ensures { result ≡ outcome (list_refusal file.now.bytes.now list.now) tt }
{
    match first_faulty(file, list) {
        Some(k) => Err(Refusal::at(15, place_of(k))),
        None => Ok(()),
    }
}
