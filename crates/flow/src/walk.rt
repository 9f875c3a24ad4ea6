// The walk over the nodes.
ghost use Rattle.std.specs.Prelude.{◌<◌};
ghost use Rattle.flow.specs.Flow.{FlowAt};

use crate::levelled::LevelledScript;
use crate::nodes::{Flow, Lookup, node_flow, pair_flow};
use fields::children::{Children, children_of};
use language::process_kinds::ProcessKind;

impl LevelledScript<'_, '_> {
    // The levels of node k, and the smallest failing node under it.
    pub fn flow_at(&self, k: usize) -> Flow
        requires { k < self.now.checked.file.layout.nodes }
        ensures { FlowAt self.now.levels.book self.now.checked.file.bytes.now k result }
    {
        let levels = Lookup {
            book: &self.levels.book,
            tables: self.levels.tables,
        };
        let file = &self.checked.file;
        let p = file.part(file.layout.expressions + k);
        let kind = ProcessKind::from_number(p.kind);
        let own = self.own_levels(kind, p);
        match children_of(p) {
            Children::None => {
                let none = Flow {
                    write: self.levels.top,
                    test: self.levels.bottom,
                    failing: file.layout.nodes,
                };
                node_flow(&levels, k, p.kind, own, none, true)
            }
            Children::One(i) => {
                let part = self.flow_at(i);
                node_flow(&levels, k, p.kind, own, part, true)
            }
            Children::Two(i, j) => {
                let first = self.flow_at(i);
                let second = self.flow_at(j);
                pair_flow(&levels, k, p.kind, own, first, second)
            }
        }
    }
}
