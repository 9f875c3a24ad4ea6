// Runs the examples of 01 that are not proved, those of the report and some of 02, as the file stdin has them. For each it
// prints a title and what comes of the script, for the reader 0; of some, also the bound on the moves. What it prints is held
// to the file stdout, which was worked out from the papers alone.
#![tactic(auto)]

ghost use Rattle.std.specs.Prelude.{◌≤◌, ◌<◌, length, IfOk};

use std::io;
use std::io::Write;
use text::{hex, input};

// The most bytes that are read of the examples.
const TEXT: usize = 65536;

const SCRIPT: usize = 512;

// The bytes of a call: five for the book, two for the limit, and one for each value. With a list there is the number of values
// before them, and behind them a byte for each word of the list.
const CALL: usize = 72;

// Runs a script by the first n bytes of a call: its values begin at index `from`, its list at index `end`.
fn call<W: Write>(
    out: &mut W,
    script: &[u8],
    bytes: &[u8; CALL],
    from: usize,
    end: usize,
    n: usize,
) -> io::Result<()>
    requires { (from ≤ end) × (end ≤ n) × (n ≤ 72) }
{
    let mut numbers = [0; CALL];
    let mut words = [0; CALL];
    for (i, byte) in bytes[..n].iter().enumerate() {
        numbers[i] = i32::from(*byte);
        words[i] = u32::from(*byte);
    }
    let limit = u16::from_be_bytes([bytes[5], bytes[6]]);
    display::show_run(
        out,
        &bytes[..5],
        script,
        &mut numbers[from..end],
        u32::from(limit),
        &words[end..n],
    )
}

fn run<W: Write>(out: &mut W, line: &[u8], script: &[u8]) -> io::Result<()> {
    let mut bytes = [0u8; CALL];
    let n = hex::read(line, &mut bytes, 0);
    if 7 <= n {
        call(out, script, &bytes, 7, n, n)?;
    }
    writeln!(out)
}

fn run_listed<W: Write>(out: &mut W, line: &[u8], script: &[u8]) -> io::Result<()> {
    let mut bytes = [0u8; CALL];
    let n = hex::read(line, &mut bytes, 0);
    let end = 8 + usize::from(bytes[7]);
    if end <= n {
        call(out, script, &bytes, 8, end, n)?;
    }
    writeln!(out)
}

fn bound<W: Write>(out: &mut W, line: &[u8], script: &[u8]) -> io::Result<()> {
    let mut book = [0u8; CALL];
    let n = hex::read(line, &mut book, 0);
    display::show_bound(out, &book[0..n], script)
}

// A line's first byte says what it is: a title, the start of a script, a part of it, a run, a run with a list, or the bound on
// the moves of the script's runs. Answers how many bytes of the script there are.
fn take_line<W: Write>(out: &mut W, line: &[u8], script: &mut [u8], end: usize) -> io::Result<usize>
    requires { (0 < length line.now) × (end ≤ length script.old) }
    ensures { IfOk result (λ n. n ≤ length script.old) }
{
    match line[0] {
        b'>' => out.write_all(&line[1..])?,
        b'n' => return Ok(0),
        b's' => return Ok(hex::read(line, script, end)),
        b'r' => run(out, line, &script[0..end])?,
        b'l' => run_listed(out, line, &script[0..end])?,
        b'b' => bound(out, line, &script[0..end])?,
        _ => {}
    }
    Ok(end)
}

fn show_examples<W: Write>(out: &mut W, text: &[u8]) -> io::Result<()> {
    let mut script = [0u8; SCRIPT];
    let mut end: usize = 0;
    let mut at: usize = 0;
    while at < text.len() {
        let next = hex::line_end(text, at);
        end = take_line(out, &text[at..next], &mut script, end)?;
        at = next;
    }
    Ok(())
}

fn main(rt: HostRuntime) -> io::Result<()> {
    let mut text = [0u8; TEXT];
    let n = input::read_full(&mut rt.stdin(), &mut text)?;
    show_examples(&mut rt.stdout(), &text[..n])
}
