// What the calls answer, and the words of it for C.
#![tactic(auto)]

pub mod words; // words.rt: the answers' words for C

ghost use Rattle.std.specs.Prelude.{◌≡◌, ◌^◌, ◌<◌};
ghost use Rattle.results.specs.Results.{refused_verdict, refused_result, refused_flows, result_by};

use book::Book;
use prelude::Refusal;

// What check answers: number and place of the refusal, W and T, and the most moves that the script makes, none where it
// holds a while.
#[derive(Clone, Copy)]
pub struct Verdict {
    pub number: u32,
    pub place: u32,
    pub write: u32,
    pub test: u32,
    pub moves: Option<u32>,
}

// What run answers: number and place of the refusal, how the run ended, and what it counted.
#[derive(Clone, Copy)]
pub struct RunResult {
    pub number: u32,
    pub place: u32,
    pub ending: u32,
    pub steps: u32,
    pub instants: u32,
    pub lines: u32,
}

// What flows answers: number and place of the refusal, and for each level the set of the other levels to which data must
// be let flow, with bit j for level j.
#[derive(Clone, Copy)]
pub struct Flows {
    pub number: u32,
    pub place: u32,
    pub to: [u16; Book::MAX_LEVELS],
}

impl From<Refusal> for Verdict {
    ghost from_gives = { λ refusal v. v ≡ refused_verdict refusal };

    fn from(refusal: Refusal) -> Verdict {
        Verdict {
            number: refusal.number,
            place: refusal.place,
            write: 0,
            test: 0,
            moves: None,
        }
    }
}

impl From<Refusal> for RunResult {
    ghost from_gives = { λ refusal r. r ≡ refused_result refusal };

    fn from(r: Refusal) -> RunResult {
        RunResult {
            number: r.number,
            place: r.place,
            ending: 0,
            steps: 0,
            instants: 0,
            lines: 0,
        }
    }
}

impl From<Refusal> for Flows {
    ghost from_gives = { λ refusal f. f ≡ refused_flows refusal };

    fn from(refusal: Refusal) -> Flows {
        let Refusal { number, place } = refusal;
        Flows {
            number,
            place,
            to: [0u16; Book::MAX_LEVELS],
        }
    }
}

pub fn result_of(ending: u32, steps: u32, instants: u32, lines: usize) -> RunResult
    requires { lines < 2 ^ 32 }
    ensures { result ≡ result_by ending steps instants lines }
{
    RunResult {
        number: 0,
        place: 0,
        ending,
        steps,
        instants,
        lines: lines as u32,
    }
}
