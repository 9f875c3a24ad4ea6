// How a run ended.
ghost use Rattle.std.specs.Prelude.{◌≡◌};
ghost use Rattle.language.specs.Calls.{ending_number};
ghost use Rattle.runner.specs.Promises.{meant, ending_by};

use moves::counts::Reason;

#[derive(Clone, Copy, PartialEq, Eq)]
pub enum Ending {
    Finished,
    Spent,
    LogFull,
}

// The ending of a run whose script makes no further move for this reason. A suspended script at its limit is spent.
impl From<Reason> for Ending {
    ghost from_gives = { λ why r. meant r ≡ ending_by why };

    fn from(why: Reason) -> Ending {
        match why {
            Reason::Nil => Ending::Finished,
            Reason::Suspended => Ending::Spent,
            Reason::Spent => Ending::Spent,
            Reason::Full => Ending::LogFull,
        }
    }
}

// Its number in 01.
impl From<Ending> for u32 {
    ghost from_gives = { λ ending r. r ≡ ending_number (meant ending) };

    fn from(ending: Ending) -> u32 {
        match ending {
            Ending::Finished => 0,
            Ending::Spent => 1,
            Ending::LogFull => 2,
        }
    }
}
