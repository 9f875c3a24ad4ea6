// Whether what is left of a node is suspended.
ghost use Rattle.std.specs.Prelude.{◌≡◌};
ghost use Rattle.language.specs.Steps.{suspended};
ghost use Rattle.residual.specs.Nodes.{NodeIn, residual_of};
ghost use Rattle.instants.specs.Promises.{RearAsked, RearWaits};

use program::forms::{find_front, find_rear, form_at};
use program::{WORDS, forms};

// Of a parallel both parts are asked, first the one behind: after a move it is the one that can more often move.
#[cycle(is_suspended_rear_waits)]
pub fn is_suspended(program: &[usize; WORDS], values: &[i32], state: &[u8], k: usize) -> bool
    requires { NodeIn program.now k state.now values.now }
    ensures { result ≡ suspended (residual_of program.now k state.now) values.now }
{
    let tag = state[0];
    let form = form_at(program, k, tag);
    if form <= forms::ITSELF {
        return false;
    }
    if form == forms::GUARDED && !evaluation::signal_is_present(program, values, k) {
        return true;
    }
    if !rear_waits(program, values, state, k, form) {
        return false;
    }
    let f = find_front(program, k, tag, state.len());
    let from = f.from;
    let to = f.to;
    is_suspended(program, values, &state[from..to], f.child)
}

// Whether nothing behind the part in front of node k could move in its place: k is no parallel, or its other part
// is suspended.
#[cycle(is_suspended_rear_waits)]
pub fn rear_waits(
    program: &[usize; WORDS],
    values: &[i32],
    state: &[u8],
    k: usize,
    form: u8,
) -> bool
    requires { RearAsked program.now k state.now values.now form }
    ensures { RearWaits program.now k state.now values.now form result }
{
    if form < forms::BESIDE {
        return true;
    }
    let g = find_rear(program, k, state.len(), form);
    let start = g.from;
    let end = g.to;
    is_suspended(program, values, &state[start..end], g.child)
}
