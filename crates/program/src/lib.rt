// A program: what a run goes by of each name, each expression and each node, in one word each. Its meaning is read off the
// words alone.
#![tactic(auto)]

pub mod forms; // forms.rt: the form that a node has come to

ghost use Rattle.std.specs.Prelude.{◌≡◌, ◌<◌};
ghost use Rattle.program.specs.Program.{most_names, most_expressions, most_nodes, name_count, node_count, name_word, seen_by, expression_word, node_word, kind_at, a_at, b_at};
ghost use Rattle.packing.specs.Packing.{watches_in, signal_in, session_in};

// Where the words stand: the counts, the names, the expressions, the nodes.
pub const MAX_NAMES: usize = 64;

pub const NAMES: usize = 1;

pub const EXPRESSIONS: usize = NAMES + MAX_NAMES;

pub const NODES: usize = EXPRESSIONS + 256;

pub const WORDS: usize = NODES + 256;

pub fn name_count(program: &[usize; WORDS]) -> usize
    ensures { result ≡ name_count program.now }
{
    packing::names_in(program[0])
}

pub fn node_count(program: &[usize; WORDS]) -> usize
    ensures { result ≡ node_count program.now }
{
    packing::nodes_in(program[0])
}

pub fn is_signal(program: &[usize; WORDS], x: usize) -> bool
    requires { x < most_names }
    ensures { result ≡ signal_in (name_word program.now x) }
{
    packing::is_signal_in(program[NAMES + x])
}

pub fn is_session(program: &[usize; WORDS], x: usize) -> bool
    requires { x < most_names }
    ensures { result ≡ session_in (name_word program.now x) }
{
    packing::is_session_in(program[NAMES + x])
}

pub fn is_seen(program: &[usize; WORDS], x: usize) -> bool
    requires { x < most_names }
    ensures { result ≡ seen_by program.now x }
{
    packing::is_seen_in(program[NAMES + x])
}

pub fn expression_at(program: &[usize; WORDS], e: usize) -> usize
    requires { e < most_expressions }
    ensures { result ≡ expression_word program.now e }
{
    program[EXPRESSIONS + e]
}

// The word of node k, and what it tells.
pub fn node_at(program: &[usize; WORDS], k: usize) -> usize
    requires { k < most_nodes }
    ensures { result ≡ node_word program.now k }
{
    program[NODES + k]
}

pub fn kind_at(program: &[usize; WORDS], k: usize) -> usize
    requires { k < most_nodes }
    ensures { result ≡ kind_at program.now k }
{
    packing::node_kind_in(node_at(program, k))
}

pub fn a_at(program: &[usize; WORDS], k: usize) -> usize
    requires { k < most_nodes }
    ensures { result ≡ a_at program.now k }
{
    packing::a_in(node_at(program, k))
}

pub fn b_at(program: &[usize; WORDS], k: usize) -> usize
    requires { k < most_nodes }
    ensures { result ≡ b_at program.now k }
{
    packing::b_in(node_at(program, k))
}

// Whether a watching stands in node k.
pub fn watches_at(program: &[usize; WORDS], k: usize) -> bool
    requires { k < most_nodes }
    ensures { result ≡ watches_in (node_word program.now k) }
{
    packing::watches_in(program[NODES + k])
}
