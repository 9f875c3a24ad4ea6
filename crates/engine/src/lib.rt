// The calls on a level book and a script file, or on a script file alone. They take any bytes and numbers.
#![tactic(auto)]

pub mod interface; // interface.rt: the calls for C

ghost use Rattle.std.specs.Prelude.{◌≡◌};
ghost use Rattle.prelude.specs.Promises.{Answers};
ghost use Rattle.checker.specs.Promises.{Prepares};
ghost use Rattle.arguments.specs.Refusals.{run_refusal};
ghost use Rattle.engine.specs.Answers.{verdict, flows_found, left};
ghost use Rattle.engine.specs.Promises.{CanStart, run_for, Returns};

use book::Book;
use checker::Prepared;
use layout::Script;
use moves::counts::Counts;
use prelude::Refusal;
use results::{Flows, RunResult, Verdict, result_of};
use runner::Ran;
use script::CheckedFile;

// Checks a script under a book. Of an accepted script, also finds how many moves it can make.
pub fn check(book: &[u8], script: &[u8]) -> Verdict
    ensures { result ≡ verdict book.now script.now }
{
    match checker::prepare(book, script) {
        Ok(p) => Verdict {
            number: 0,
            place: 0,
            write: p.write as u32,
            test: p.test as u32,
            moves: bound::find_bound(&p.checked.file),
        },
        Err(refusal) => Verdict::from(refusal),
    }
}

// Finds the flows between levels that a script needs, whatever the book: for each level the set of the other levels to
// which data must be let flow. Names may have the levels of a full book.
pub fn flows(script: &[u8]) -> Flows
    ensures { result ≡ flows_found script.now }
{
    match script::load(script, Book::MAX_LEVELS) {
        Ok(checked) => Flows {
            number: 0,
            place: 0,
            to: requirements::find_flows(&checked),
        },
        Err(refusal) => Flows::from(refusal),
    }
}

// Runs a script that no row of the table refuses, from its start. Owned names are then 0.
fn run_checked(
    checked: &CheckedFile<'_>,
    b: &Book,
    reader: usize,
    values: &mut [i32],
    limit: u32,
    list: &[u32],
    log: &mut [u32],
) -> Ran
    requires { CanStart checked.now.file.bytes.now b.now reader values.old limit list.now }
    ensures { Returns (run_for b.now checked.now.file.bytes.now reader values.old limit list.now log.old) log.old result values.new log.new }
{
    let program = plan::find_plan(checked, b, reader);
    let mut state = [0u8; Script::MAX_NODES];
    let from = Counts {
        steps: 0,
        instants: 0,
        lines: 0,
    };
    let part = &mut state[..checked.file.layout.nodes];
    let ran = runner::run(&program, values, part, list, log, limit as usize, from);
    instants::clear_owned(&program, values);
    ran
}

// What is to be run: a book and a script that no row refuses, for a call that none refuses.
fn admit<'a>(
    book: &[u8],
    script: &'a [u8],
    reader: u32,
    values: &[i32],
    limit: u32,
    list: &[u32],
) -> Result<Prepared<'a>, Refusal>
    ensures { Answers (run_refusal book.now script.now reader values.now limit list.now) (Prepares book.now script.now) result }
{
    let prepared = checker::prepare(book, script)?;
    let levels = prepared.book.count;
    arguments::check_call(&prepared.checked.file, levels, reader, values, limit, list)?;
    Ok(prepared)
}

// Runs a script under a book for a reader, from these values, for at most `limit` steps. The list names signals that are
// present as an instant begins: pairs of an instant and a signal. A refused call changes nothing. Else the values are
// those after the counted steps, with owned names 0, and the log begins with the run's lines.
pub fn run(
    book: &[u8],
    script: &[u8],
    reader: u32,
    values: &mut [i32],
    limit: u32,
    list: &[u32],
    log: &mut [u32],
) -> RunResult
    ensures value { result ≡ (left book.now script.now reader values.old limit list.now log.old).result }
    ensures values_after { values.new ≡ (left book.now script.now reader values.old limit list.now log.old).values }
    ensures log_after { log.new ≡ (left book.now script.now reader values.old limit list.now log.old).log }
{
    match admit(book, script, reader, values, limit, list) {
        Ok(p) => {
            let ran = run_checked(
                &p.checked,
                &p.book,
                reader as usize,
                values,
                limit,
                list,
                log,
            );
            let at = ran.at;
            result_of(
                u32::from(ran.ending),
                at.steps as u32,
                at.instants as u32,
                at.lines,
            )
        }
        Err(refusal) => RunResult::from(refusal),
    }
}
