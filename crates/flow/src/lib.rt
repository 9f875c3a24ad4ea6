// Write level, test level and refusal 11: one walk over the tree of a checked script.
#![tactic(auto)]

mod levels; // levels.rt: the levels of a book, as the walk looks them up
mod levelled; // levelled.rt: a checked script, and the levels of its expressions
mod own; // own.rt: what a node brings itself
mod walk; // walk.rt: the walk over the nodes
pub mod nodes; // nodes.rt: what a node has, from what its children have

ghost use Rattle.pairs.specs.Promises.{KeepsAll};
ghost use Rattle.script.specs.Checked.{Levelled};
ghost use Rattle.flow.specs.Flow.{levels_of, Ordered, FlowOf};

use crate::levelled::LevelledScript;
use crate::levels::LevelTables;
use crate::nodes::Flow;
use book::Book;
use pairs::table::Tables;
use script::CheckedFile;

// The write level and the test level of a checked script, whose levels the book has, and the smallest node whose need
// fails, or the number of nodes if none does.
pub fn find_flow(checked: &CheckedFile<'_>, book: Book, tables: Tables) -> Flow
    requires levelled { Levelled checked.now.file.bytes.now book.count }
    requires ordered { Ordered (levels_of book) }
    requires tables { KeepsAll book tables }
    ensures { FlowOf (levels_of book) checked.now.file.bytes.now result }
{
    let script = LevelledScript {
        checked: *checked,
        levels: LevelTables {
            book,
            tables: &tables,
            top: lattice::top_of(book),
            bottom: lattice::bottom_of(book),
        },
    };
    script.flow_at(checked.file.layout.nodes - 1)
}
