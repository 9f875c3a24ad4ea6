// What a node has, from what it brings itself and what its children have: 01's list of W, T and the needs.
ghost use Rattle.std.specs.Prelude.{◌≡◌, ◌<◌};
ghost use Rattle.book.specs.LevelBook.{most_levels};
ghost use Rattle.flow.specs.Nodes.{looked_up, OwnWithin, FlowWithin, PairWithin, write_from, test_from, both_from, own_need, pair_need, flow_from, pair_from};

use book::Book;
use language::process_kinds;
use pairs::table::Tables;

// Where levels are looked up: the rows of a book, and tables of joins and of meets. Any will do: they
// need not be a lattice's.
#[derive(Clone, Copy)]
pub struct Lookup<'a> {
    pub book: &'a Book,
    pub tables: &'a Tables,
}

// What a node brings itself: D, which is the level of its expression or signal, and the level of its name. What it has
// not counts as bottom.
#[derive(Clone, Copy)]
pub struct Own {
    pub level: usize,
    pub name: usize,
}

// The write level and the test level of a node, and the smallest node under it whose need fails, or the number of
// nodes if none does.
#[derive(Clone, Copy)]
pub struct Flow {
    pub write: usize,
    pub test: usize,
    pub failing: usize,
}

// W and T of two children together, and the smaller of their failing nodes.
fn both_of(levels: &Lookup<'_>, first: Flow, second: Flow) -> Flow
    requires { FlowWithin most_levels first × FlowWithin most_levels second }
    ensures { result ≡ both_from (looked_up levels.now) first second }
{
    Flow {
        write: levels.tables.meet.level_at(first.write, second.write),
        test: levels.tables.join.level_at(first.test, second.test),
        failing: first.failing.min(second.failing),
    }
}

// What a node of this kind needs of its two children.
fn pair_need(levels: &Lookup<'_>, kind: usize, first: Flow, second: Flow) -> bool
    requires { FlowWithin most_levels first × FlowWithin most_levels second }
    ensures { result ≡ pair_need (looked_up levels.now) kind first second }
{
    match kind {
        process_kinds::IF => true,
        process_kinds::SEQUENCE => levels.book.at_or_below(first.test, second.write),
        _ => {
            levels.book.at_or_below(first.test, second.write)
                && levels.book.at_or_below(second.test, first.write)
        }
    }
}

// What a node of this kind with these levels needs itself.
fn own_need(levels: &Lookup<'_>, kind: usize, own: Own, write: usize, test: usize) -> bool
    requires { OwnWithin most_levels own × ((write < most_levels) × (test < most_levels)) }
    ensures { result ≡ own_need (looked_up levels.now) kind own write test }
{
    match kind {
        process_kinds::ASSIGN | process_kinds::LET => levels.book.at_or_below(own.level, own.name),
        process_kinds::WHILE => levels.book.at_or_below(test, write),
        process_kinds::IF | process_kinds::WATCHING | process_kinds::WHEN => {
            levels.book.at_or_below(own.level, write)
        }
        _ => true,
    }
}

// W of a node: that of its name, if it assigns or emits; else that of its children.
fn write_of(kind: usize, own: Own, parts: Flow) -> usize
    ensures { result ≡ write_from kind own parts }
{
    if process_kinds::is_writer(kind) {
        own.name
    } else {
        parts.write
    }
}

// T of a node: that of its children, joined with D, if it tests.
fn test_of(levels: &Lookup<'_>, kind: usize, own: Own, parts: Flow) -> usize
    requires { OwnWithin most_levels own × FlowWithin most_levels parts }
    ensures { result ≡ test_from (looked_up levels.now) kind own parts }
{
    if process_kinds::has_test(kind) {
        levels.tables.join.level_at(own.level, parts.test)
    } else {
        parts.test
    }
}

// Node k, of this kind: W and T, and the smallest failing node under it, where `parts` has what its children have
// together, and `pair` says that it has what it needs of its two children.
pub fn node_flow(
    levels: &Lookup<'_>,
    k: usize,
    kind: usize,
    own: Own,
    parts: Flow,
    pair: bool,
) -> Flow
    requires { OwnWithin most_levels own × (FlowWithin most_levels parts × (test_from (looked_up levels.now) kind own parts < most_levels)) }
    ensures { result ≡ flow_from (looked_up levels.now) k kind own parts pair }
{
    let write = write_of(kind, own, parts);
    let test = test_of(levels, kind, own, parts);
    let failing = if pair && own_need(levels, kind, own, write, test) {
        parts.failing
    } else {
        k.min(parts.failing)
    };
    Flow {
        write,
        test,
        failing,
    }
}

// The same of a node with two children.
pub fn pair_flow(
    levels: &Lookup<'_>,
    k: usize,
    kind: usize,
    own: Own,
    first: Flow,
    second: Flow,
) -> Flow
    requires { OwnWithin most_levels own × (FlowWithin most_levels first × (FlowWithin most_levels second × PairWithin most_levels (looked_up levels.now) kind own first second)) }
    ensures { result ≡ pair_from (looked_up levels.now) k kind own first second }
{
    let parts = both_of(levels, first, second);
    let pair = pair_need(levels, kind, first, second);
    node_flow(levels, k, kind, own, parts, pair)
}
