// The list of a run: which signals the instrument makes present in which instant, in pairs of two words.
#![tactic(auto)]

ghost use Rattle.std.specs.Prelude.{◌≡◌, ◌<◌};
ghost use Rattle.inputs.specs.Lists.{pair_count, instant_at, signal_at};
ghost use Rattle.inputs.specs.Promises.{Cursor, CanPass};

// How many whole pairs there are.
pub fn pair_count(list: &[u32]) -> usize
    ensures { result ≡ pair_count list.now }
{
    list.len() / 2
}

pub fn instant_at(list: &[u32], k: usize) -> usize
    requires { k < pair_count list.now }
    ensures { result ≡ instant_at list.now k }
{
    list[2 * k] as usize
}

pub fn signal_at(list: &[u32], k: usize) -> usize
    requires { k < pair_count list.now }
    ensures { result ≡ signal_at list.now k }
{
    list[2 * k + 1] as usize
}

// The cursor moves on from pair `from`, past the pairs of this instant and of earlier ones.
#[tactic(auto, using(crate::proofs::Lists::stops_at, crate::proofs::Lists::stops_past))]
pub fn pass(list: &[u32], from: usize, instant: usize) -> usize
    requires { CanPass list.now from instant }
    ensures { Cursor list.now instant result }
{
    let n = pair_count(list);
    for k in from..n {
        if instant < instant_at(list, k) {
            return k;
        }
    }
    n
}
