// A node's own moves: assign, let, if, while, emit, local.
#![tactic(auto)]

pub mod counts; // counts.rt: what is counted, and why there is no further move
mod log; // log.rt: the lines of the log

ghost use Rattle.std.specs.Prelude.{◌≡◌, ◌<◌, length, replicate};
ghost use Rattle.language.specs.Kinds.{let_in, if_then_else, while, local};
ghost use Rattle.program.specs.Program.{most_names, seen_by};
ghost use Rattle.moves.specs.Promises.{needs_line, Unmoved, MovesSilently, IsSilent, WriterAt, Written, CanMoveItself, Makes};

use counts::{Counts, Moved, Reason};
use language::process_kinds;
use program::{WORDS, forms};

// The bytes of a loop's body. That of one node needs no loop of its own.
fn clear_body(state: &mut [u8])
    ensures { state.new ≡ replicate (length state.old) 0 }
{
    if state.len() == 1 {
        state[0] = forms::WRITTEN;
        return;
    }
    state.fill(forms::WRITTEN);
}

// A let sets its name and leaves its body.
fn move_let(program: &[usize; WORDS], values: &mut [i32], state: &mut [u8], k: usize)
    requires { Unmoved program.now k state.old values.old let_in }
    ensures { MovesSilently program.now k state.old values.old state.new values.new }
{
    let x = program::a_at(program, k);
    let v = evaluation::value_of(program, values, program::b_at(program, k));
    values[x] = v;
    state[0] = forms::ENTERED;
}

// A local makes its signal absent and leaves its body.
fn move_local(program: &[usize; WORDS], values: &mut [i32], state: &mut [u8], k: usize)
    requires { Unmoved program.now k state.old values.old local }
    ensures { MovesSilently program.now k state.old values.old state.new values.new }
{
    let a = program::a_at(program, k);
    values[a] = 0;
    state[0] = forms::ENTERED;
}

// An if leaves a branch.
fn move_if(program: &[usize; WORDS], values: &[i32], state: &mut [u8], k: usize)
    requires { Unmoved program.now k state.old values.now if_then_else }
    ensures { MovesSilently program.now k state.old values.now state.new values.now }
{
    if evaluation::test_holds(program, values, program::a_at(program, k)) {
        state[0] = forms::ENTERED;
    } else {
        state[0] = forms::OTHERWISE;
    }
}

// A while leaves its body, as it is written, and then itself; or nil.
fn move_while(program: &[usize; WORDS], values: &[i32], state: &mut [u8], k: usize)
    requires { Unmoved program.now k state.old values.now while }
    ensures { MovesSilently program.now k state.old values.now state.new values.now }
{
    if evaluation::test_holds(program, values, program::a_at(program, k)) {
        state[0] = forms::ENTERED;
        clear_body(&mut state[1..]);
    } else {
        state[0] = forms::OVER;
    }
}

// The moves of let, if, while and local call for no line.
fn move_silently(
    program: &[usize; WORDS],
    values: &mut [i32],
    state: &mut [u8],
    k: usize,
    kind: usize,
)
    requires unmoved { Unmoved program.now k state.old values.old kind }
    requires silent { IsSilent kind }
    ensures { MovesSilently program.now k state.old values.old state.new values.new }
{
    if kind == process_kinds::WHILE {
        move_while(program, values, state, k);
    } else if kind == process_kinds::IF {
        move_if(program, values, state, k);
    } else if kind == process_kinds::LET {
        move_let(program, values, state, k);
    } else {
        move_local(program, values, state, k);
    }
}

// What node k, an assignment or an emission, gives its name.
fn written(program: &[usize; WORDS], values: &[i32], k: usize, kind: usize) -> i32
    requires { WriterAt program.now k values.now kind }
    ensures { Written program.now k values.now result }
{
    if kind == process_kinds::EMIT {
        return 1;
    }
    evaluation::value_of(program, values, program::b_at(program, k))
}

// Whether a node of this kind that writes x needs a line: not where it emits a signal that is present, and else if the
// reader sees x.
fn needs_line(program: &[usize; WORDS], values: &[i32], x: usize, kind: usize) -> bool
    requires { (x < most_names) × (x < length values.now) }
    ensures { result ≡ needs_line (seen_by program.now) kind values.now x }
{
    if kind == process_kinds::EMIT && evaluation::is_present(values, x) {
        return false;
    }
    program::is_seen(program, x)
}

// Node k makes its own move, if there is a step left for it.
pub fn move_own(
    program: &[usize; WORDS],
    values: &mut [i32],
    state: &mut [u8],
    log: &mut [u32],
    limit: usize,
    at: Counts,
    k: usize,
) -> Moved
    requires { CanMoveItself program.now k state.old values.old log.old limit at }
    ensures { Makes program.now limit k state.old values.old log.old at state.new values.new log.new result }
{
    if limit <= at.steps {
        return Moved::Rests(Reason::Spent, at);
    }
    let kind = program::kind_at(program, k);
    if process_kinds::is_writer(kind) {
        let x = program::a_at(program, k);
        let v = written(program, values, k, kind);
        let needed = needs_line(program, values, x, kind);
        let Some(lines) = log::note(log, at, needed, x, v) else {
            return Moved::Rests(Reason::Full, at);
        };
        values[x] = v;
        state[0] = forms::OVER;
        return Moved::Rests(Reason::Nil, at.after_move(lines));
    }
    move_silently(program, values, state, k, kind);
    Moved::Again(at.after_move(at.lines))
}
