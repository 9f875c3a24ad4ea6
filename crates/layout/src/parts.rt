// Names, and the parts, which are the expressions and then the nodes.
ghost use Rattle.std.specs.Prelude.{◌≡◌, eqb, ◌+◌, ◌*◌, ◌<◌, ◌≤◌, length};
ghost use Rattle.layout.specs.Layout.{word_at};
ghost use Rattle.layout.specs.Entries.{session, name_of, part_of};
ghost use Rattle.layout.specs.Promises.{PartWithin, SmallFields};

// The kinds of names, in the order of their numbers in files.
#[derive(Clone, Copy, PartialEq, Eq)]
pub enum NameKind {
    Register,
    Signal,
}

// Of a name: its bytes, which any file may hold.
#[derive(Clone, Copy)]
pub struct Name {
    pub kind: usize,
    pub level: usize,
    pub owner: usize,
}

impl Name {
    // The owner of a name says that it is a session name.
    pub fn is_session(self) -> bool
        ensures { result ≡ eqb self.owner session }
    {
        self.owner == SESSION
    }
}

// Of an expression or a node: its bytes.
#[derive(Clone, Copy)]
pub struct Part {
    pub kind: usize,
    pub zero: usize,
    pub a: usize,
    pub b: usize,
    pub c: usize,
}

impl Part {
    // a, b and c.
    pub const FIELDS: usize = 3;
}

// The owner of a session name.
pub const SESSION: usize = 65535;

// A number of two bytes.
pub fn word_at(s: &[u8], i: usize) -> usize
    requires { i + 2 ≤ length s.now }
    ensures word { result ≡ word_at s.now i }
    ensures small { result < 65536 }
{
    usize::from(u16::from_be_bytes([s[i], s[i + 1]]))
}

pub fn name_at(s: &[u8], x: usize) -> Name
    requires { 4 * x + 4 ≤ length s.now }
    ensures name { result ≡ name_of s.now x }
    ensures small { result.owner < 65536 }
{
    let at = 4 * x;
    Name {
        kind: usize::from(s[at]),
        level: usize::from(s[at + 1]),
        owner: word_at(s, at + 2),
    }
}

// Part q, where the parts begin at this offset.
pub fn part_at(s: &[u8], offset: usize, q: usize) -> Part
    requires { PartWithin s.now offset q }
    ensures part { result ≡ part_of s.now q }
    ensures small { SmallFields result }
{
    let at = offset + 8 * q;
    Part {
        kind: usize::from(s[at]),
        zero: usize::from(s[at + 1]),
        a: word_at(s, at + 2),
        b: word_at(s, at + 4),
        c: word_at(s, at + 6),
    }
}
