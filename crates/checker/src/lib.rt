// A level book and a script file are checked: refusals 1 to 11.
#![tactic(auto)]

ghost use Rattle.prelude.specs.Promises.{Answers};
ghost use Rattle.checker.specs.Refusals.{check_refusal};
ghost use Rattle.checker.specs.Promises.{Prepares};

use book::Book;
use prelude::Refusal;
use script::CheckedFile;

// A book and a script that no row refuses, with the script's W and T.
#[derive(Clone, Copy)]
pub struct Prepared<'a> {
    pub book: Book,
    pub checked: CheckedFile<'a>,
    pub write: usize,
    pub test: usize,
}

// Refusals 1 to 11.
pub fn prepare<'a>(b: &[u8], s: &'a [u8]) -> Result<Prepared<'a>, Refusal>
    ensures { Answers (check_refusal b.now s.now) (Prepares b.now s.now) result }
{
    let levels = lattice::load(b)?;
    let checked = script::load(s, levels.book.count)?;
    let flow = flow::find_flow(&checked, levels.book, levels.tables);
    if flow.failing < checked.file.layout.nodes {
        return Err(Refusal::at(11, flow.failing));
    }
    Ok(Prepared {
        book: levels.book,
        checked,
        write: flow.write,
        test: flow.test,
    })
}
