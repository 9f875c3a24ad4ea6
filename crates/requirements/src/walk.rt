// The walk over the nodes.
ghost use Rattle.std.specs.Prelude.{◌<◌};
ghost use Rattle.requirements.specs.Promises.{FlowsAt};

use crate::levelled::LevelledScript;
use crate::nodes::{Effects, node_flows, pair_flows};
use crate::table::FlowTable;
use fields::children::{Children, children_of};
use language::process_kinds::ProcessKind;

impl LevelledScript<'_> {
    // The levels that node k tests and writes; the flows that it and all under it need are added.
    pub fn flows_at(&self, flows: &mut FlowTable, k: usize) -> Effects
        requires { k < self.now.checked.file.layout.nodes }
        ensures { FlowsAt self.now.checked.file.bytes.now k flows.old.sets flows.new.sets result }
    {
        let file = &self.checked.file;
        let p = file.part(file.layout.expressions + k);
        let kind = ProcessKind::from_number(p.kind);
        let own = self.own_levels(kind, p);
        match children_of(p) {
            Children::None => {
                let none = Effects {
                    tested: 0,
                    written: 0,
                };
                node_flows(flows, p.kind, own, none)
            }
            Children::One(i) => {
                let part = self.flows_at(flows, i);
                node_flows(flows, p.kind, own, part)
            }
            Children::Two(i, j) => {
                let first = self.flows_at(flows, i);
                let second = self.flows_at(flows, j);
                pair_flows(flows, p.kind, own, first, second)
            }
        }
    }
}
