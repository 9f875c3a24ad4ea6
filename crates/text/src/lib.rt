// What programs write and read: the line of a refusal, and bytes that are written down in hexadecimal.
#![tactic(auto)]

pub mod hex; // hex.rt: lines of hexadecimal digits
pub mod input; // input.rt: bytes from a reader

ghost use Rattle.std.specs.Prelude.{OnOk, codes};
ghost use Rattle.std.specs.Io.KnownBytes.{Appends};
ghost use Rattle.text.specs.Written.{pair_text};

use std::io;
use std::io::Write;

// The line of a refusal: the word, its number and its place.
pub fn say_refusal<W: Write>(out: &mut W, number: u32, place: u32) -> io::Result<()>
    ensures { OnOk result (Appends (W.contents out.old) (W.contents out.new) (pair_text (codes "refused ") number place)) }
{
    writeln!(out, "refused {number} {place}")
}
