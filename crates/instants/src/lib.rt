// Instant changes, and what an instant begins with.
#![tactic(auto)]

pub mod suspension; // suspension.rt: whether what is left of a node is suspended

ghost use Rattle.std.specs.Prelude.{◌≡◌, ℕ, Bool, length};
ghost use Rattle.prelude.specs.Promises.{Covers, Computes};
ghost use Rattle.language.specs.Steps.{change, no_signal, instant_start};
ghost use Rattle.language.specs.Calls.{given_back};
ghost use Rattle.program.specs.Program.{names_of};
ghost use Rattle.residual.specs.Nodes.{Valued, NodeIn, residual_of};
ghost use Rattle.instants.specs.Promises.{some_signal_present, cleared_by, NextInstant, CanSet, MadePresent};

use program::forms::{find_front, find_rear, form_at};
use program::{WORDS, forms};

// The instant change of node k, which goes into what is in front and reads the signals of the instant that ends.
fn change_instant(program: &[usize; WORDS], values: &[i32], state: &mut [u8], k: usize)
    requires { NodeIn program.now k state.old values.now }
    ensures { residual_of program.now k state.new ≡ change (residual_of program.now k state.old) values.now }
{
    // Only a watching ends with an instant: a node without one stays as it is.
    if !program::watches_at(program, k) {
        return;
    }
    let tag = state[0];
    let form = form_at(program, k, tag);
    if form <= forms::ITSELF {
        return;
    }
    if form == forms::WATCHED && evaluation::signal_is_present(program, values, k) {
        state[0] = forms::OVER;
        return;
    }
    if form == forms::GUARDED && !evaluation::signal_is_present(program, values, k) {
        return;
    }
    let len = state.len();
    let f = find_front(program, k, tag, len);
    let from = f.from;
    let to = f.to;
    change_instant(program, values, &mut state[from..to], f.child);
    if forms::BESIDE <= form {
        let g = find_rear(program, k, len, form);
        let start = g.from;
        let end = g.to;
        change_instant(program, values, &mut state[start..end], g.child);
    }
}

pub fn some_signal_present(program: &[usize; WORDS], values: &[i32]) -> bool
    requires { Valued program.now values.now }
    ensures { result ≡ some_signal_present (names_of program.now) values.now }
{
    prelude::search::any(values.len(), |x| {
        program::is_signal(program, x) && evaluation::is_present(values, x)
    })
}

// The names for which the test holds become 0.
fn clear<F: Fn(usize) -> bool>(values: &mut [i32], cleared: F)
    requires { Covers (F.pre cleared) (length values.old) }
    ensures { (f : ℕ → Bool) → Computes (F.post cleared) (length values.old) f → values.new ≡ cleared_by f values.old }
{
    for x in 0..values.len() {
        if cleared(x) {
            values[x] = 0;
        }
    }
}

// Every signal is absent.
fn clear_signals(program: &[usize; WORDS], values: &mut [i32])
    requires { Valued program.now values.old }
    ensures { values.new ≡ instant_start (names_of program.now) no_signal values.old }
{
    clear(values, |x| program::is_signal(program, x));
}

// The instant ends: what is left of node k changes, by the signals of the instant that ends, and the next one begins.
pub fn begin_instant(program: &[usize; WORDS], values: &mut [i32], state: &mut [u8], k: usize)
    requires { NodeIn program.now k state.old values.old }
    ensures { NextInstant program.now k state.old state.new values.old values.new }
{
    change_instant(program, values, state, k);
    clear_signals(program, values);
}

// The signals of the pairs from `from` up to `to` become present.
pub fn make_present(list: &[u32], from: usize, to: usize, values: &mut [i32])
    requires { CanSet list.now from to values.old }
    ensures { MadePresent list.now from to values.old values.new }
{
    for k in from..to {
        let a = inputs::signal_at(list, k);
        values[a] = 1;
    }
}

// Every owned name is 0.
pub fn clear_owned(program: &[usize; WORDS], values: &mut [i32])
    requires { Valued program.now values.old }
    ensures { values.new ≡ given_back (names_of program.now) values.old }
{
    clear(values, |x| !program::is_session(program, x));
}
