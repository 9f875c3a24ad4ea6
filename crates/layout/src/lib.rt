// The layout of a script file by value, the limits of 01, and the entries that stand in it.
#![tactic(auto)]

pub mod parts; // parts.rt: names, and the parts: expressions and nodes
pub mod tail; // tail.rt: the tail, refusal 4
pub mod places; // places.rt: the places of parts
pub mod file; // file.rt: a file with its layout

ghost use Rattle.std.specs.Prelude.{◌≡◌, true};
ghost use Rattle.layout.specs.Layout.{tail_is_right, counts_are_right, layout_of};

use crate::parts::word_at;

// The counts of a script file, and the offset of its parts: the expressions, then the nodes. Names start at 0.
#[derive(Clone, Copy)]
pub struct Script {
    pub names: usize,
    pub expressions: usize,
    pub nodes: usize,
    pub offset: usize,
}

impl Script {
    pub const MAX_NAMES: usize = 64;

    pub const MAX_EXPRESSIONS: usize = 256;

    pub const MAX_NODES: usize = 256;

    pub const MAX_PARTS: usize = Script::MAX_EXPRESSIONS + Script::MAX_NODES;

    // The layout that a right tail gives.
    pub fn layout_of(s: &[u8]) -> Script
        requires { tail_is_right s.now ≡ true }
        ensures { result ≡ layout_of s.now }
    {
        let tail = s.len() - 8;
        let expressions = word_at(s, tail);
        let nodes = word_at(s, tail + 2);
        Script {
            names: expressions / 4,
            expressions: (nodes - expressions) / 8,
            nodes: (tail - nodes) / 8,
            offset: expressions,
        }
    }

    // Refusal 5.
    pub fn counts_are_right(self) -> bool
        ensures { result ≡ counts_are_right self }
    {
        self.names <= Script::MAX_NAMES
            && self.expressions <= Script::MAX_EXPRESSIONS
            && (1..=Script::MAX_NODES).contains(&self.nodes)
    }
}
