// The form that a node has come to: what is in front, and what stands around it.
ghost use Rattle.std.specs.Prelude.{◌≡◌, ◌+◌, ◌<◌};
ghost use Rattle.packing.specs.Packing.{size_in};
ghost use Rattle.program.specs.Program.{most_nodes, node_count, kind_at};
ghost use Rattle.program.specs.Forms.{form_of, front_of, rear_of, forms_of};
ghost use Rattle.program.specs.Runnable.{Runnable};

use crate::WORDS;

// Nil.
pub const NOTHING: u8 = 0;
// The node's own move is next.
pub const ITSELF: u8 = 1;
// The first part alone, or the second.
pub const FIRST: u8 = 2;

pub const SECOND: u8 = 3;
// The first part, and after it something else.
pub const BEFORE: u8 = 4;
// The first part, watching a signal, or under a when.
pub const WATCHED: u8 = 5;

pub const GUARDED: u8 = 6;
// The first part in parallel with the second, or the other way round.
pub const BESIDE: u8 = 7;

pub const TURNED: u8 = 8;

// The forms of each kind of node, by the node's own byte of state: four bits for each byte, from the lowest on. Past them a
// node is nil. (A table that is looked up by a variable would be built at each call.)
const ONE: usize = 16;

const TWO: usize = 256;

const THREE: usize = 4096;

const WRITER: usize = ITSELF as usize;

const DECLARATION: usize = (ITSELF as usize) + ONE * (FIRST as usize);

const CHOICE: usize = (ITSELF as usize) + ONE * (FIRST as usize) + TWO * (SECOND as usize);

const LOOP: usize = (ITSELF as usize) + ONE * (BEFORE as usize);

const SEQUENCE: usize = (BEFORE as usize) + ONE * (SECOND as usize);

const WATCHING: usize = WATCHED as usize;

const WHEN: usize = GUARDED as usize;

const PARALLEL: usize = (BESIDE as usize)
    + ONE * (TURNED as usize)
    + TWO * (FIRST as usize)
    + THREE * (SECOND as usize);

// A node's own byte: as it is written; entered, which for an if is its first branch; an if's second branch. Past all forms
// the node is nil.
pub const WRITTEN: u8 = 0;

pub const ENTERED: u8 = 1;

pub const OTHERWISE: u8 = 2;

pub const OVER: u8 = 4;

// The part in front: its node, and where its bytes stand among those of its parent.
#[derive(Clone, Copy)]
pub struct Front {
    pub form: u8,
    pub child: usize,
    pub from: usize,
    pub to: usize,
}

pub fn forms_of(kind: usize) -> usize
    requires { kind < 11 }
    ensures { result ≡ forms_of kind }
{
    match kind {
        0 => 0,
        1 => WRITER,
        2 => DECLARATION,
        3 => CHOICE,
        4 => LOOP,
        5 => SEQUENCE,
        6 => WRITER,
        7 => DECLARATION,
        8 => WATCHING,
        9 => WHEN,
        10 => PARALLEL,
        _ => 0,
    }
}

// The form of node k whose own byte is `tag`.
pub fn form_at(program: &[usize; WORDS], k: usize, tag: u8) -> u8
    requires { Runnable program.now × (k < node_count program.now) }
    ensures { result ≡ form_of (kind_at program.now k) tag }
{
    if OVER <= tag {
        return NOTHING;
    }
    packing::form_in(crate::node_at(program, k), prelude::wide(tag)) as u8
}

// Where the bytes of the second part begin, of a node with word w.
fn middle_in(w: usize) -> usize
    ensures { result ≡ 1 + size_in w }
{
    1 + packing::size_in(w)
}

// The form of node k whose own byte is `tag` and which has so many bytes, with the part in front.
pub fn find_front(program: &[usize; WORDS], k: usize, tag: u8, len: usize) -> Front
    requires { Runnable program.now × (k < node_count program.now) }
    ensures { result ≡ front_of program.now k tag len }
{
    let form = form_at(program, k, tag);
    if form <= ITSELF {
        return Front {
            form,
            child: 0,
            from: 0,
            to: 0,
        };
    }
    let w = crate::node_at(program, k);
    let middle = middle_in(w);
    if form == SECOND || form == TURNED {
        return Front {
            form,
            child: packing::b_in(w),
            from: middle,
            to: len,
        };
    }
    Front {
        form,
        child: packing::first_in(w),
        from: 1,
        to: middle,
    }
}

// The other part of a parallel whose part in front has this form, and which has so many bytes.
pub fn find_rear(program: &[usize; WORDS], k: usize, len: usize, form: u8) -> Front
    requires { k < most_nodes }
    ensures { result ≡ rear_of program.now k form len }
{
    let w = crate::node_at(program, k);
    let middle = middle_in(w);
    if form == BESIDE {
        return Front {
            form: TURNED,
            child: packing::b_in(w),
            from: middle,
            to: len,
        };
    }
    Front {
        form: BESIDE,
        child: packing::first_in(w),
        from: 1,
        to: middle,
    }
}
