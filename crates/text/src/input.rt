// Bytes from a reader, into room that the caller has.
ghost use Rattle.std.specs.Prelude.{◌≤◌, ◌<◌, length, take, IfOk};
ghost use Rattle.std.specs.Io.KnownBytes.{Consumes, IsAtEnd};

use std::io;
use std::io::Read;

// Reads until the room is full or nothing is left, and answers how many bytes of the room that took.
pub fn read_full<R: Read>(input: &mut R, room: &mut [u8]) -> io::Result<usize>
    ensures within { IfOk result (λ n. n ≤ length room.new) }
    ensures bytes { IfOk result (λ n. Consumes (R.remaining input.old) (R.remaining input.new) (take n room.new)) }
    ensures all { IfOk result (λ n. n < length room.new → IsAtEnd (R.remaining input.new)) }
{
    let mut end: usize = 0;
    while end < room.len() {
        let n = input.read(&mut room[end..])?;
        if n == 0 {
            return Ok(end);
        }
        end += n;
    }
    Ok(end)
}
