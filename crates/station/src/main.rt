// Runs the script of the folder that it is run in: levels.lvl, script.scr and values.val.
#![tactic(auto)]

mod file_values; // file_values.rt: the values that a file holds

ghost use Rattle.std.specs.Prelude.{◌≤◌, length, IfOk};

use layout::Script;
use std::fs::File;
use std::io;
use std::io::Write;
use std::rt::Files;

// The most bytes that are read of a file.
const SIZE: usize = 65536;

// The first bytes of a file, as many as there is room for; none of a file that cannot be opened.
fn load<'a, R: Files>(rt: &R, path: &str, room: &'a mut [u8; SIZE]) -> io::Result<&'a [u8]>
    ensures { IfOk result (λ s. length s.now ≤ 65536) }
{
    let n = match File::open(rt, path) {
        Ok(mut file) => text::input::read_full(&mut file, room)?,
        Err(_) => 0,
    };
    Ok(&room[..n])
}

// Runs a script from the values of a file, for 1000 steps. No signal is listed.
fn show<W: Write>(out: &mut W, book: &[u8], script: &[u8], bytes: &[u8]) -> io::Result<()> {
    let mut values = [0i32; Script::MAX_NAMES + 1];
    // No script has as many names as there is room for: all of it is a wrong length.
    let n = file_values::read_values(bytes, &mut values).unwrap_or(values.len());
    display::show_run(out, book, script, &mut values[..n], 1000, &[])
}

fn main(rt: HostRuntime) -> io::Result<()> {
    let mut book = [0u8; SIZE];
    let mut script = [0u8; SIZE];
    let mut values = [0u8; SIZE];
    let book = load(&rt, "levels.lvl", &mut book)?;
    let script = load(&rt, "script.scr", &mut script)?;
    let values = load(&rt, "values.val", &mut values)?;
    show(&mut rt.stdout(), book, script, values)
}
