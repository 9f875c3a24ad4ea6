// Runs a program with its list, as far as the step limit and the log let it, from wherever it has come to.
#![tactic(auto)]

pub mod ending; // ending.rt: how a run ended

ghost use Rattle.std.specs.Prelude.{◌≡◌, ◌≤◌};
ghost use Rattle.program.specs.Program.{node_count};
ghost use Rattle.runner.specs.Promises.{root, CanRun, InstantMade, CanChange, Begins, CanIdle, Idles, CanRunListed, Runs};

use ending::Ending;
use moves::counts::{Counts, Reason, Rested};
use program::WORDS;

// How a run ended, and what it has counted.
#[derive(Clone, Copy)]
pub struct Ran {
    pub ending: Ending,
    pub at: Counts,
}

// The node of the script.
fn root_of(program: &[usize; WORDS]) -> usize
    requires { 1 ≤ node_count program.now }
    ensures { result ≡ root program.now }
{
    program::node_count(program) - 1
}

// Runs the script as far as it goes within the instant.
pub fn run_instant(
    program: &[usize; WORDS],
    values: &mut [i32],
    state: &mut [u8],
    log: &mut [u32],
    limit: usize,
    at: Counts,
) -> Rested
    requires { CanRun program.now state.old values.old log.old limit at }
    ensures { InstantMade program.now limit state.old values.old log.old at state.new values.new log.new result }
{
    let k = root_of(program);
    advance::advance(program, values, state, log, limit, at, k)
}

// The instant ends and the next one begins, which is a step. The pairs from `from` up to `to` are those of the next one.
pub fn next_instant(
    program: &[usize; WORDS],
    values: &mut [i32],
    state: &mut [u8],
    list: &[u32],
    from: usize,
    to: usize,
    at: Counts,
) -> Counts
    requires { CanChange program.now state.old values.old list.now from to at }
    ensures { Begins program.now list.now state.old values.old at state.new values.new result }
{
    let k = root_of(program);
    instants::begin_instant(program, values, state, k);
    instants::make_present(list, from, to, values);
    at.after_changes(1)
}

// How many instant changes change nothing, of a suspended script: none if a signal is present; else those up to the
// instant before the next one that the list names, or to the limit. They are counted and not made.
fn idle_changes(
    program: &[usize; WORDS],
    values: &[i32],
    list: &[u32],
    cursor: usize,
    limit: usize,
    at: Counts,
) -> usize
    requires { CanIdle program.now values.now list.now cursor limit at }
    ensures { Idles program.now values.now list.now cursor limit at result }
{
    if instants::some_signal_present(program, values) {
        return 0;
    }
    let rest = limit - at.steps;
    if inputs::pair_count(list) <= cursor {
        return rest;
    }
    let ahead = inputs::instant_at(list, cursor) - at.instants - 1;
    ahead.min(rest)
}

// Runs a program from these bytes, values and counts, under a limit on all steps. What is left stands in the bytes, so that
// a run can go on from there.
pub fn run(
    program: &[usize; WORDS],
    values: &mut [i32],
    state: &mut [u8],
    list: &[u32],
    log: &mut [u32],
    limit: usize,
    from: Counts,
) -> Ran
    requires { CanRunListed program.now state.old values.old list.now log.old limit from }
    ensures { Runs program.now list.now limit state.old values.old log.old from state.new values.new log.new result }
{
    let mut at = from;
    let mut cursor = inputs::pass(list, 0, from.instants);
    loop {
        let r = run_instant(program, values, state, log, limit, at);
        let ending = Ending::from(r.why);
        if r.why != Reason::Suspended || limit <= r.at.steps {
            return Ran { ending, at: r.at };
        }
        let idle = idle_changes(program, values, list, cursor, limit, r.at);
        let waited = r.at.after_changes(idle);
        if limit <= waited.steps {
            return Ran { ending, at: waited };
        }
        let to = inputs::pass(list, cursor, waited.instants + 1);
        at = next_instant(program, values, state, list, cursor, to, waited);
        cursor = to;
    }
}
