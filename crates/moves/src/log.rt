// The log: four words make a line.
ghost use Rattle.std.specs.Prelude.{◌≡◌, ◌/◌, ◌+◌, ◌≤◌, length};
ghost use Rattle.moves.specs.Moves.{put_words};
ghost use Rattle.moves.specs.Promises.{line_of, CanNote, Notes};

use crate::counts::Counts;

fn put_line(log: &mut [u32], at: usize, step: u32, instant: u32, name: u32, value: u32)
    requires { at + 4 ≤ length log.old }
    ensures { log.new ≡ put_words log.old at step instant name value }
{
    log[at] = step;
    log[at + 1] = instant;
    log[at + 2] = name;
    log[at + 3] = value;
}

// Writes the line of a move that gives x this value, if it needs one: how many lines there are then, or none if it has no
// room.
pub fn note(log: &mut [u32], at: Counts, needed: bool, x: usize, value: i32) -> Option<usize>
    requires { CanNote log.old at x }
    ensures { Notes (length log.old / 4) (line_of needed at x value) at.lines log.old result log.new }
{
    let lines = at.lines;
    if !needed {
        return Some(lines);
    }
    if log.len() / 4 <= lines {
        return None;
    }
    let word = values::words::word_of(value);
    let step = (at.steps + 1) as u32;
    put_line(log, 4 * lines, step, at.instants as u32, x as u32, word);
    Some(lines + 1)
}
