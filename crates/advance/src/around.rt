// What becomes of a node whose part in front has moved: the moves around a part that is nil or suspended.
ghost use Rattle.std.specs.Prelude.{◌≡◌};
ghost use Rattle.advance.specs.Promises.{Byte, byte_dropped, CanMoveAround, MovesAround, CanLeave, Leaves};

use instants::suspension;
use moves::counts::{Counts, Moved, Reason};
use program::{WORDS, forms};

// The node's own byte when a nil part in front of it is dropped. A watching or a when is nil with its part.
fn byte_dropped(form: u8, tag: u8) -> u8
    requires { Byte form tag }
    ensures { result ≡ byte_dropped form tag }
{
    if form == forms::BEFORE {
        return 1 - tag;
    }
    if form < forms::BESIDE {
        return forms::OVER;
    }
    3 - tag
}

// A move that gives a node this byte, if there is a step left for it.
fn move_around(state: &mut [u8], limit: usize, at: Counts, byte: u8) -> Moved
    requires { CanMoveAround state.old limit }
    ensures { MovesAround state.old limit at byte state.new result }
{
    if limit <= at.steps {
        return Moved::Rests(Reason::Spent, at);
    }
    state[0] = byte;
    Moved::Again(at.after_move(at.lines))
}

// Node k had this form, and its part in front has come to `part`. A nil part is dropped; a suspended one trades places, if
// the other can move; else the node rests as its part does. Without a frame around it that is all.
pub fn leave(
    program: &[usize; WORDS],
    values: &[i32],
    state: &mut [u8],
    limit: usize,
    k: usize,
    form: u8,
    part: Moved,
) -> Moved
    requires { CanLeave program.now k state.old values.now limit form part }
    ensures { Leaves program.now k state.old values.now limit form part state.new result }
{
    if form < forms::BEFORE {
        return part;
    }
    match part {
        Moved::Again(_) => part,
        Moved::Rests(why, at) => match why {
            Reason::Nil => {
                let byte = byte_dropped(form, state[0]);
                move_around(state, limit, at, byte)
            }
            Reason::Suspended => {
                if suspension::rear_waits(program, values, state, k, form) {
                    return part;
                }
                let byte = 1 - state[0];
                move_around(state, limit, at, byte)
            }
            Reason::Spent => part,
            Reason::Full => part,
        },
    }
}
