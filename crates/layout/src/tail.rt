// The tail of a script file: refusal 4.
ghost use Rattle.std.specs.Prelude.{◌≡◌};
ghost use Rattle.layout.specs.Layout.{offsets_are_right, tail_is_right};

use crate::parts::word_at;

// The last two bytes of a file.
const MARK: usize = 0x5354;

fn offsets_are_right(expressions: usize, nodes: usize, tail: usize) -> bool
    ensures { result ≡ offsets_are_right expressions nodes tail }
{
    expressions <= nodes
        && nodes <= tail
        && expressions % 4 == 0
        && (nodes - expressions) % 8 == 0
        && (tail - nodes) % 8 == 0
}

// The tail points at itself and at lists of whole entries that touch each other.
pub fn tail_is_right(s: &[u8]) -> bool
    ensures { result ≡ tail_is_right s.now }
{
    let Some(tail) = s.len().checked_sub(8) else {
        return false;
    };
    word_at(s, tail + 6) == MARK
        && word_at(s, tail + 4) == tail
        && offsets_are_right(word_at(s, tail), word_at(s, tail + 2), tail)
}
