// What a node has, from what it brings itself and what its children have: 02's list of the flows.
ghost use Rattle.prelude.specs.Sets.{has, IsSet};
ghost use Rattle.book.specs.LevelBook.{most_levels};
ghost use Rattle.requirements.specs.Nodes.{tested_by, written_by, source_by, target_by};
ghost use Rattle.requirements.specs.Promises.{Adds, PartLeaves, pair_flows, PairLeaves};

use crate::table::FlowTable;
use book::sets;
use language::process_kinds;

// What a node brings itself: the levels of the registers of its expression, or that of the signal that it tests; and
// that of the name to which a value or an emission goes. What it has not is the empty set.
#[derive(Clone, Copy)]
pub struct Own {
    pub read: u16,
    pub name: u16,
}

// The levels that a node tests, and those that it writes, with all that lies under it.
#[derive(Clone, Copy)]
pub struct Effects {
    pub tested: u16,
    pub written: u16,
}

// The tests of a node: those of its children, and what it reads, if it tests that.
fn tested_of(kind: usize, own: Own, parts: Effects) -> u16
    ensures { IsSet most_levels (λ i. tested_by kind (has own.read i) (has parts.tested i)) result }
{
    if process_kinds::has_test(kind) {
        sets::union(own.read, parts.tested)
    } else {
        parts.tested
    }
}

// The writes of a node: its name, if it assigns or emits; else those of its children.
fn written_of(kind: usize, own: Own, parts: Effects) -> u16
    ensures { IsSet most_levels (λ j. written_by kind (has own.name j) (has parts.written j)) result }
{
    if process_kinds::is_writer(kind) {
        own.name
    } else {
        parts.written
    }
}

// The levels from which a node needs flows: those that it reads, and of a while all that its body tests.
fn source_of(kind: usize, own: Own, parts: Effects) -> u16
    ensures { IsSet most_levels (λ i. source_by kind (has own.read i) (has parts.tested i)) result }
{
    match kind {
        process_kinds::WHILE => sets::union(own.read, parts.tested),
        _ => own.read,
    }
}

// The levels to which it needs them: its name, if a value goes into that; else the writes of its children.
fn target_of(kind: usize, own: Own, parts: Effects) -> u16
    ensures { IsSet most_levels (λ j. target_by kind (has own.name j) (has parts.written j)) result }
{
    match kind {
        process_kinds::ASSIGN | process_kinds::LET => own.name,
        _ => parts.written,
    }
}

// A node of this kind, where `parts` has what its children have together.
pub fn node_flows(flows: &mut FlowTable, kind: usize, own: Own, parts: Effects) -> Effects
    ensures { PartLeaves kind own parts flows.old.sets flows.new.sets result }
{
    flows.add(source_of(kind, own, parts), target_of(kind, own, parts));
    Effects {
        tested: tested_of(kind, own, parts),
        written: written_of(kind, own, parts),
    }
}

// Adds the flows that a node of this kind needs between its two children.
fn add_pair(flows: &mut FlowTable, kind: usize, first: Effects, second: Effects)
    ensures { Adds flows.old.sets (pair_flows kind first second) flows.new.sets }
{
    match kind {
        process_kinds::IF => {}
        process_kinds::SEQUENCE => flows.add(first.tested, second.written),
        _ => {
            flows.add(first.tested, second.written);
            flows.add(second.tested, first.written);
        }
    }
}

// A node of this kind with two children.
pub fn pair_flows(
    flows: &mut FlowTable,
    kind: usize,
    own: Own,
    first: Effects,
    second: Effects,
) -> Effects
    ensures { PairLeaves kind own first second flows.old.sets flows.new.sets result }
{
    add_pair(flows, kind, first, second);
    let parts = Effects {
        tested: sets::union(first.tested, second.tested),
        written: sets::union(first.written, second.written),
    };
    node_flows(flows, kind, own, parts)
}
