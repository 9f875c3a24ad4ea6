// A node is run as far as it goes within the instant: what comes next is found, the node or its part in front is run, and
// the node is left, or it goes on.
#![tactic(auto)]

mod around; // around.rt: the moves around a part that is nil or suspended
mod next; // next.rt: what comes next at a node

ghost use Rattle.moves.specs.Promises.{CanMove, Makes};
ghost use Rattle.advance.specs.Promises.{Advances, CanMovePart, TurnMade};

use moves::counts::{Counts, Moved, Rested};
use next::Next;
use program::WORDS;
use program::forms::Front;

// A turn of a node: its part in front stands alone in its place, and nothing is made; or this has become of the node.
#[derive(Clone, Copy)]
pub enum Turned {
    Inside(Front),
    Made(Moved),
}

// One turn of node k: what comes next is found, and made.
#[cycle(advance_advance_part_turn)]
fn turn(
    program: &[usize; WORDS],
    values: &mut [i32],
    state: &mut [u8],
    log: &mut [u32],
    limit: usize,
    at: Counts,
    k: usize,
) -> Turned
    requires { CanMove program.now k state.old values.old log.old limit at }
    ensures { TurnMade program.now limit k state.old values.old log.old at state.new values.new log.new result }
{
    let next = next::find_next(program, values, state, k);
    match next {
        Next::Rests(why) => Turned::Made(Moved::Rests(why, at)),
        Next::Inside(f) => Turned::Inside(f),
        Next::Part(f, moving) => {
            let from = f.from;
            let to = f.to;
            let part = &mut state[from..to];
            let r = advance_part(program, values, part, log, limit, at, f.child, moving);
            Turned::Made(around::leave(program, values, state, limit, k, f.form, r))
        }
    }
}

// Runs node k as far as it goes within the instant. A part that stands alone takes its place, with no further call.
#[cycle(advance_advance_part_turn)]
pub fn advance(
    program: &[usize; WORDS],
    values: &mut [i32],
    state: &mut [u8],
    log: &mut [u32],
    limit: usize,
    from: Counts,
    k: usize,
) -> Rested
    requires { CanMove program.now k state.old values.old log.old limit from }
    ensures { Advances program.now limit k state.old values.old log.old from state.new values.new log.new result }
{
    let mut at = from;
    let mut node = k;
    let mut start: usize = 0;
    let mut end = state.len();
    loop {
        let part = &mut state[start..end];
        let r = turn(program, values, part, log, limit, at, node);
        match r {
            Turned::Inside(f) => {
                node = f.child;
                end = start + f.to;
                start = start + f.from;
            }
            Turned::Made(m) => match m {
                Moved::Again(c) => {
                    at = c;
                }
                Moved::Rests(why, c) => {
                    return Rested { why, at: c };
                }
            },
        }
    }
}

// The part in front, node k: one move, or as far as it goes.
#[cycle(advance_advance_part_turn)]
fn advance_part(
    program: &[usize; WORDS],
    values: &mut [i32],
    state: &mut [u8],
    log: &mut [u32],
    limit: usize,
    at: Counts,
    k: usize,
    moving: bool,
) -> Moved
    requires { CanMovePart program.now k state.old values.old log.old limit at moving }
    ensures { Makes program.now limit k state.old values.old log.old at state.new values.new log.new result }
{
    if moving {
        return moves::move_own(program, values, state, log, limit, at, k);
    }
    let r = advance(program, values, state, log, limit, at, k);
    let why = r.why;
    let reached = r.at;
    Moved::Rests(why, reached)
}
