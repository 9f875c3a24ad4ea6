// What a run has counted, and why it makes no further move.
ghost use Rattle.std.specs.Prelude.{◌≡◌, ◌+◌, ◌<◌, ◌≤◌};
ghost use Rattle.language.specs.Calls.{most_steps};
ghost use Rattle.moves.specs.Promises.{after_move, after_changes};

// The steps, the instants and the lines of a run. What a call returns is copied from each call to the one above: whole
// words leave no gaps, which would be copied too.
#[derive(Clone, Copy)]
pub struct Counts {
    pub steps: usize,
    pub instants: usize,
    pub lines: usize,
}

// Why there is no further move: the node is nil; it is suspended; the limit is reached; the next line has no room.
#[derive(Clone, Copy, PartialEq, Eq)]
pub enum Reason {
    Nil,
    Suspended,
    Spent,
    Full,
}

// What became of a node: it has moved and may go on, or it makes no further move.
#[derive(Clone, Copy)]
pub enum Moved {
    Again(Counts),
    Rests(Reason, Counts),
}

// A node that makes no further move.
#[derive(Clone, Copy)]
pub struct Rested {
    pub why: Reason,
    pub at: Counts,
}

impl Counts {
    // After a move, with so many lines.
    pub fn after_move(self, lines: usize) -> Self
        requires { self.steps < most_steps }
        ensures { result ≡ after_move self lines }
    {
        Counts {
            steps: self.steps + 1,
            instants: self.instants,
            lines,
        }
    }

    // After so many instant changes.
    pub fn after_changes(self, n: usize) -> Self
        requires { (self.steps + n ≤ most_steps) × (self.instants + n ≤ most_steps) }
        ensures { result ≡ after_changes self n }
    {
        Counts {
            steps: self.steps + n,
            instants: self.instants + n,
            lines: self.lines,
        }
    }
}
