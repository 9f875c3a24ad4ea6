// The kinds of processes, in the order of their numbers in files and programs.
ghost use Rattle.std.specs.Prelude.{◌≡◌, ◌||◌, eqb, ◌<◌};
ghost use Rattle.language.specs.KindGroups.{has_signal, has_test, has_write};
ghost use Rattle.language.specs.KindNumbers.{process_kinds, process_number};

pub const NIL: usize = 0;

pub const ASSIGN: usize = 1;

pub const LET: usize = 2;

pub const IF: usize = 3;

pub const WHILE: usize = 4;

pub const SEQUENCE: usize = 5;

pub const EMIT: usize = 6;

pub const LOCAL: usize = 7;

pub const WATCHING: usize = 8;

pub const WHEN: usize = 9;

pub const PARALLEL: usize = 10;

// The kind is one of these two.
pub fn is_either(kind: usize, one: usize, other: usize) -> bool
    ensures { result ≡ (eqb kind one || eqb kind other) }
{
    kind == one || kind == other
}

// An assignment or an emission: its move calls for a line.
pub fn is_writer(kind: usize) -> bool
    ensures { result ≡ has_write kind }
{
    kind == ASSIGN || kind == EMIT
}

// A process of this kind has a signal.
pub fn has_signal(kind: usize) -> bool
    ensures { result ≡ has_signal kind }
{
    is_either(kind, EMIT, LOCAL) || is_either(kind, WATCHING, WHEN)
}

// A process of this kind tests its expression or its signal.
pub fn has_test(kind: usize) -> bool
    ensures { result ≡ has_test kind }
{
    is_either(kind, IF, WHILE) || is_either(kind, WATCHING, WHEN)
}

#[derive(Clone, Copy, PartialEq, Eq)]
pub enum ProcessKind {
    Nil,
    Assign,
    Let,
    If,
    While,
    Sequence,
    Emit,
    Local,
    Watching,
    When,
    Parallel,
}

impl ProcessKind {
    // The kind of this number.
    pub fn from_number(number: usize) -> ProcessKind
        requires { number < process_kinds }
        ensures { process_number result ≡ number }
    {
        match number {
            0 => ProcessKind::Nil,
            1 => ProcessKind::Assign,
            2 => ProcessKind::Let,
            3 => ProcessKind::If,
            4 => ProcessKind::While,
            5 => ProcessKind::Sequence,
            6 => ProcessKind::Emit,
            7 => ProcessKind::Local,
            8 => ProcessKind::Watching,
            9 => ProcessKind::When,
            10 => ProcessKind::Parallel,
            _ => unreachable!(),
        }
    }

    // An assignment or an emission: its move calls for a line.
    pub fn is_writer(self) -> bool
        ensures { result ≡ has_write (process_number self) }
    {
        matches!(self, ProcessKind::Assign | ProcessKind::Emit)
    }

    // A process of this kind has a signal.
    pub fn has_signal(self) -> bool
        ensures { result ≡ has_signal (process_number self) }
    {
        matches!(
            self,
            ProcessKind::Emit | ProcessKind::Local | ProcessKind::Watching | ProcessKind::When
        )
    }

    // A process of this kind tests its expression or its signal.
    pub fn has_test(self) -> bool
        ensures { result ≡ has_test (process_number self) }
    {
        matches!(
            self,
            ProcessKind::If | ProcessKind::While | ProcessKind::Watching | ProcessKind::When
        )
    }
}
