// Prints what the library makes of the level books and script files that the file stdin has. What it prints is held to the file
// stdout.
#![tactic(auto)]

mod books; // books.rt: level books
mod scripts; // scripts.rt: script files

ghost use Rattle.std.specs.Prelude.{◌<◌, length};

use std::io;
use std::io::Write;
use text::{hex, input};

// The most bytes that are read of the files.
const TEXT: usize = 4096;

// The number of pairs, and a level book.
fn show_first<W: Write>(out: &mut W, bytes: &[u8]) -> io::Result<()> {
    if let Some((most, file)) = bytes.split_first() {
        books::show_first(out, file, usize::from(*most))?;
    }
    Ok(())
}

// A line's first byte says what it is.
fn take_line<W: Write>(out: &mut W, line: &[u8]) -> io::Result<()>
    requires { 0 < length line.now }
{
    let mut bytes = [0u8; 64];
    let n = hex::read(line, &mut bytes, 0);
    let file = &bytes[0..n];
    match line[0] {
        b'b' => books::show_all(out, file),
        b'f' => show_first(out, file),
        b's' => scripts::show(out, file),
        _ => Ok(()),
    }
}

fn show_files<W: Write>(out: &mut W, text: &[u8]) -> io::Result<()> {
    let mut at: usize = 0;
    while at < text.len() {
        let next = hex::line_end(text, at);
        take_line(out, &text[at..next])?;
        at = next;
    }
    Ok(())
}

fn main(rt: HostRuntime) -> io::Result<()> {
    let mut text = [0u8; TEXT];
    let n = input::read_full(&mut rt.stdin(), &mut text)?;
    show_files(&mut rt.stdout(), &text[..n])
}
