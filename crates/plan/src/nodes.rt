// The words of the nodes.
ghost use Rattle.std.specs.Prelude.{◌≡◌, ◌<◌};
ghost use Rattle.language.specs.KindNumbers.{process_number};
ghost use Rattle.tree.specs.Promises.{KeepsSizes};
ghost use Rattle.plan.specs.Plan.{Below, watches_by, field_b, fields_by, NodePacked, KeepsNodes};

use crate::reading::Reading;
use fields::children::{Children, children_of};
use language::process_kinds::{self, ProcessKind};
use layout::Script;
use layout::parts::Part;
use program::{WORDS, watches_at};

// A watching stands in a node of this kind with these children: it is one, or one stands in a child.
fn has_watching(words: &[usize; WORDS], kind: ProcessKind, children: Children) -> bool
    requires { Below children }
    ensures { result ≡ watches_by words.now (process_number kind) children }
{
    if kind == ProcessKind::Watching {
        return true;
    }
    match children {
        Children::None => false,
        Children::One(i) => watches_at(words, i),
        Children::Two(i, j) => watches_at(words, i) || watches_at(words, j),
    }
}

// Field b: up to a let an expression, past it the second child.
fn field_b(p: Part, second: usize) -> usize
    ensures { result ≡ field_b p second }
{
    if p.kind <= process_kinds::LET {
        return p.b;
    }
    second
}

// Field a; field b; the first child and its size. A node without a first child has 0 there, and the size of node 0.
fn node_fields(sizes: &[u16; Script::MAX_NODES], p: Part, children: Children) -> usize
    requires { Below children }
    ensures { result ≡ fields_by sizes.now p children }
{
    match children {
        Children::None => packing::pack_fields(p.a, field_b(p, 0), 0, usize::from(sizes[0])),
        Children::One(i) => packing::pack_fields(p.a, field_b(p, 0), i, usize::from(sizes[i])),
        Children::Two(i, j) => packing::pack_fields(p.a, field_b(p, j), i, usize::from(sizes[i])),
    }
}

impl Reading<'_> {
    // The word of node k; the words of the nodes before it stand.
    pub fn node_word(
        &self,
        sizes: &[u16; Script::MAX_NODES],
        words: &[usize; WORDS],
        k: usize,
    ) -> usize
        requires sized { KeepsSizes self.now.checked.file.bytes.now self.now.checked.file.layout.nodes sizes.now }
        requires before { KeepsNodes self.now.checked.file.bytes.now k words.now }
        requires known { k < self.now.checked.file.layout.nodes }
        ensures { NodePacked self.now.checked.file.bytes.now k result }
    {
        let file = &self.checked.file;
        let p = file.part(file.layout.expressions + k);
        let children = children_of(p);
        let watches = has_watching(words, ProcessKind::from_number(p.kind), children);
        packing::pack_node(
            program::forms::forms_of(p.kind),
            node_fields(sizes, p, children),
            packing::mark(p.kind, watches),
        )
    }
}
