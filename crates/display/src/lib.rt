// What the calls answer of a script, printed in the form that 01 gives; and the bound on its moves.
#![tactic(auto)]

ghost use Rattle.std.specs.Prelude.{◌≡◌, OnOk, length};
ghost use Rattle.std.specs.Io.KnownBytes.{Appends};
ghost use Rattle.text.specs.Written.{pair_text};
ghost use Rattle.engine.specs.Answers.{verdict};
ghost use Rattle.display.specs.Shown.{line_text, lines_text, ending_word, answers_text, left_with, run_text, moves_text, bound_text};

use results::{RunResult, Verdict};
use std::io;
use std::io::Write;
use text::say_refusal;

// A line of a log: of its four words the last is a signed value, in two's complement.
fn say_line<W: Write>(out: &mut W, line: &[u32]) -> io::Result<()>
    requires { length line.now ≡ 4 }
    ensures { OnOk result (Appends (W.contents out.old) (W.contents out.new) (line_text line.now)) }
{
    let value = line[3].cast_signed();
    writeln!(out, "{} {} {} {value}", line[0], line[1], line[2])
}

// The first lines of a log that has so many.
fn say_lines<W: Write>(out: &mut W, log: &[u32], lines: u32) -> io::Result<()>
    ensures { OnOk result (Appends (W.contents out.old) (W.contents out.new) (lines_text log.now lines)) }
{
    let n = 4 * (lines as usize);
    if log.len() < n {
        return Ok(());
    }
    for line in log[..n].chunks_exact(4) {
        say_line(out, line)?;
    }
    Ok(())
}

fn say_ending<W: Write>(out: &mut W, ending: u32, steps: u32, instants: u32) -> io::Result<()>
    ensures { OnOk result (Appends (W.contents out.old) (W.contents out.new) (pair_text (ending_word ending) steps instants)) }
{
    let word = match ending {
        0 => "finished",
        1 => "spent",
        _ => "log full",
    };
    writeln!(out, "{word} {steps} {instants}")
}

// What the two calls answered of a script. A refusal is all that is printed of a refused call of run; else W and T,
// the lines, the ending, steps and instants.
#[tactic(auto, unfolding(crate::specs::Shown::answers_text))]
fn say_answers<W: Write>(out: &mut W, v: Verdict, r: RunResult, log: &[u32]) -> io::Result<()>
    ensures { OnOk result (Appends (W.contents out.old) (W.contents out.new) (answers_text v r log.now)) }
{
    if r.number != 0 {
        return say_refusal(out, r.number, r.place);
    }
    writeln!(out, "accepted {} {}", v.write, v.test)?;
    say_lines(out, log, r.lines)?;
    say_ending(out, r.ending, r.steps, r.instants)
}

// Checks and runs a script with a list for the reader 0, with a log of 256 lines, and prints what comes of it.
pub fn show_run<W: Write>(
    out: &mut W,
    book: &[u8],
    script: &[u8],
    values: &mut [i32],
    limit: u32,
    list: &[u32],
) -> io::Result<()>
    ensures shown { OnOk result (Appends (W.contents out.old) (W.contents out.new) (run_text book.now script.now values.old limit list.now)) }
    ensures values_after { values.new ≡ (left_with book.now script.now values.old limit list.now).values }
{
    let mut log = [0u32; 1024];
    let v = engine::check(book, script);
    let r = engine::run(book, script, 0, values, limit, list, &mut log);
    say_answers(out, v, r, &log)
}

fn say_bound<W: Write>(out: &mut W, bound: Option<u32>) -> io::Result<()>
    ensures { OnOk result (Appends (W.contents out.old) (W.contents out.new) (moves_text bound)) }
{
    match bound {
        Some(moves) => writeln!(out, "at most {moves} moves"),
        None => writeln!(out, "no bound"),
    }
}

// Checks a script and prints how many moves it can make.
#[tactic(auto, unfolding(crate::specs::Shown::bound_text))]
pub fn show_bound<W: Write>(out: &mut W, book: &[u8], script: &[u8]) -> io::Result<()>
    ensures { OnOk result (Appends (W.contents out.old) (W.contents out.new) (bound_text (verdict book.now script.now))) }
{
    let v = engine::check(book, script);
    if v.number != 0 {
        return say_refusal(out, v.number, v.place);
    }
    say_bound(out, v.moves)
}
