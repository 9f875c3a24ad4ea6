// The program of a checked file for a reader, found once for a call.
#![tactic(auto)]

mod nodes; // nodes.rt: the words of the nodes
mod reading; // reading.rt: a script as a reader sees it, and the words of its names and expressions

ghost use Rattle.plan.specs.Plan.{CanPlan, sees_in, ProgramOf};

use crate::reading::Reading;
use book::Book;
use program::WORDS;
use script::CheckedFile;

// The whole program: the words of the names and of the expressions, then those of the nodes, then that of the counts.
pub fn find_plan(checked: &CheckedFile<'_>, book: &Book, reader: usize) -> [usize; WORDS]
    requires { CanPlan checked.now.file.bytes.now book.now reader }
    ensures { ProgramOf checked.now.file.bytes.now (sees_in book.now checked.now.file.bytes.now reader) result }
{
    let layout = &checked.file.layout;
    let reading = Reading {
        checked: *checked,
        book: *book,
        reader,
    };
    let sizes = tree::sizes::find_sizes(checked);
    let mut words = reading.expressions();
    for k in 0..layout.nodes {
        words[program::NODES + k] = reading.node_word(&sizes, &words, k);
    }
    words[0] = packing::pack_counts(layout.names, layout.expressions, layout.nodes);
    words
}
