// The words of a program. From the lowest bit on the word of an expression has a constant (32 bits), or field a and field b
// (16 each), then the kind; that of a node the forms (four bits for each byte of state), field a (a name or an expression),
// field b (an expression or the second child), the first child, the size of the first (10 bits each), the kind (7 bits),
// and whether a watching stands in the node; that of a name its level (8 bits), whether it is a signal, whether it is the
// session's, whether the reader sees it; that of the counts how many names, expressions and nodes there are (16 bits each).
#![tactic(auto)]

ghost use Rattle.std.specs.Prelude.{◌≡◌, ◌<◌};
ghost use Rattle.packing.specs.Packing.{kind_in, constant_in, operand_in, later_in, packed_expression, form_in, a_in, b_in, first_in, size_in, node_kind_in, watches_in, packed_fields, marked, packed_node, signal_in, session_in, seen_in, bit, packed_name, names_in, nodes_in, packed_counts};

// The bit above the kind of a node: a watching stands in it.
const MARK: usize = 128;

// A bit that is set or not.
fn bit_of(b: bool) -> usize
    ensures { (result ≡ bit b) × (result < 2) }
{
    if b {
        return 1;
    }
    0
}

// What the word of an expression tells.
pub fn kind_in(w: usize) -> usize
    ensures { result ≡ kind_in w }
{
    w >> 32
}

pub fn constant_in(w: usize) -> usize
    ensures { result ≡ constant_in w }
{
    w % 4294967296
}

pub fn operand_in(w: usize) -> usize
    ensures { result ≡ operand_in w }
{
    w % 65536
}

pub fn later_in(w: usize) -> usize
    ensures { result ≡ later_in w }
{
    (w >> 16) % 65536
}

pub fn pack_expression(kind: usize, later: usize, operand: usize) -> usize
    requires { (kind < 256) × ((later < 65536) × (operand < 65536)) }
    ensures { result ≡ packed_expression kind later operand }
{
    4294967296 * kind + (65536 * later + operand)
}

// What the word of a node tells.
pub fn form_in(w: usize, tag: usize) -> usize
    requires { tag < 4 }
    ensures { result ≡ form_in w tag }
{
    (w >> (4 * tag)) % 16
}

pub fn a_in(w: usize) -> usize
    ensures { result ≡ a_in w }
{
    (w >> 16) % 1024
}

pub fn b_in(w: usize) -> usize
    ensures { result ≡ b_in w }
{
    (w >> 26) % 1024
}

pub fn first_in(w: usize) -> usize
    ensures { result ≡ first_in w }
{
    (w >> 36) % 1024
}

pub fn size_in(w: usize) -> usize
    ensures { result ≡ size_in w }
{
    (w >> 46) % 1024
}

pub fn node_kind_in(w: usize) -> usize
    ensures { result ≡ node_kind_in w }
{
    (w >> 56) % MARK
}

pub fn watches_in(w: usize) -> bool
    ensures { result ≡ watches_in w }
{
    w >> 63 == 1
}

// The word of a node without its kind and its forms: two fields, the first child and its size, each by its lowest ten bits.
pub fn pack_fields(a: usize, b: usize, first: usize, size: usize) -> usize
    ensures { result ≡ packed_fields a b first size }
{
    a % 1024 + 1024 * (b % 1024 + 1024 * (first % 1024 + 1024 * (size % 1024)))
}

// A kind, with the mark of a node in which a watching stands.
pub fn mark(kind: usize, watches: bool) -> usize
    requires { kind < 128 }
    ensures { result ≡ marked kind watches }
{
    kind + MARK * bit_of(watches)
}

pub fn pack_node(forms: usize, fields: usize, kind: usize) -> usize
    requires { (forms < 65536) × ((fields < 1099511627776) × (kind < 256)) }
    ensures { result ≡ packed_node forms fields kind }
{
    forms + 65536 * (fields + 1099511627776 * kind)
}

// What the word of a name tells.
pub fn is_signal_in(w: usize) -> bool
    ensures { result ≡ signal_in w }
{
    (w >> 8) % 2 == 1
}

pub fn is_session_in(w: usize) -> bool
    ensures { result ≡ session_in w }
{
    (w >> 9) % 2 == 1
}

pub fn is_seen_in(w: usize) -> bool
    ensures { result ≡ seen_in w }
{
    w >> 10 == 1
}

pub fn pack_name(level: usize, kind: usize, session: bool, seen: bool) -> usize
    requires { (level < 256) × (kind < 2) }
    ensures { result ≡ packed_name level kind session seen }
{
    let own = bit_of(session);
    let read = bit_of(seen);
    level + 256 * (kind + 2 * (own + 2 * read))
}

// What the word of the counts tells.
pub fn names_in(w: usize) -> usize
    ensures { result ≡ names_in w }
{
    w % 65536
}

pub fn nodes_in(w: usize) -> usize
    ensures { result ≡ nodes_in w }
{
    w >> 32
}

pub fn pack_counts(names: usize, expressions: usize, nodes: usize) -> usize
    requires { (names < 65536) × ((expressions < 65536) × (nodes < 65536)) }
    ensures { result ≡ packed_counts names expressions nodes }
{
    names + 65536 * (expressions + 65536 * nodes)
}
