// The flows between levels that a script needs: for each level the set of other levels to which its data must be let
// flow. One walk over the tree of a checked script, with sets of levels as numbers.
#![tactic(auto)]

mod levelled; // levelled.rt: a checked script, and the levels of its names and expressions
mod own; // own.rt: what a node brings itself
pub mod nodes; // nodes.rt: what a node has, from what its children have
pub mod table; // table.rt: the flows found so far
mod walk; // walk.rt: the walk over the nodes

ghost use Rattle.std.specs.Prelude.{◌≡◌};
ghost use Rattle.book.specs.LevelBook.{most_levels};
ghost use Rattle.script.specs.Checked.{Levelled};
ghost use Rattle.requirements.specs.Flows.{flows_of};

use crate::levelled::LevelledScript;
use crate::table::FlowTable;
use book::Book;
use script::CheckedFile;

// The flows of a checked script, whose levels a full book has.
pub fn find_flows(checked: &CheckedFile<'_>) -> [u16; Book::MAX_LEVELS]
    requires { Levelled checked.now.file.bytes.now most_levels }
    ensures { result ≡ flows_of checked.now.file.bytes.now }
{
    let mut flows = FlowTable {
        sets: [0; Book::MAX_LEVELS],
    };
    let script = LevelledScript { checked: *checked };
    script.flows_at(&mut flows, checked.file.layout.nodes - 1);
    flows.between_others()
}
