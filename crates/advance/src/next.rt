// What comes next at a node.
ghost use Rattle.std.specs.Prelude.{◌≡◌, ◌&&◌, eqb, ◌<◌};
ghost use Rattle.program.specs.Program.{most_nodes, kind_at};
ghost use Rattle.residual.specs.Nodes.{NodeIn};
ghost use Rattle.language.specs.KindGroups.{has_write};
ghost use Rattle.advance.specs.Promises.{own_next, Follows};

use language::process_kinds;
use moves::counts::Reason;
use program::forms::Front;
use program::{WORDS, forms};

// Nothing, since the node is nil or suspended; or its part in front takes its place, since it stands alone; or that part is
// to be run, by one move if that is all it has. A node whose own move is next counts as its own part.
#[derive(Clone, Copy)]
pub enum Next {
    Rests(Reason),
    Inside(Front),
    Part(Front, bool),
}

// Node k, whose own byte is `tag`, is an assignment or an emission, and that is next.
fn writes_next(program: &[usize; WORDS], k: usize, tag: u8) -> bool
    requires { k < most_nodes }
    ensures { result ≡ (eqb tag 0 && has_write (kind_at program.now k)) }
{
    if tag != forms::WRITTEN {
        return false;
    }
    process_kinds::is_writer(program::kind_at(program, k))
}

// At node k, which has so many bytes and no part in front.
fn own_next(form: u8, k: usize, len: usize) -> Next
    ensures { result ≡ own_next form k len }
{
    if form == forms::ITSELF {
        let f = Front {
            form,
            child: k,
            from: 0,
            to: len,
        };
        return Next::Part(f, true);
    }
    Next::Rests(Reason::Nil)
}

pub fn find_next(program: &[usize; WORDS], values: &[i32], state: &[u8], k: usize) -> Next
    requires { NodeIn program.now k state.now values.now }
    ensures { Follows program.now k state.now values.now result }
{
    let tag = state[0];
    let form = forms::form_at(program, k, tag);
    if form <= forms::ITSELF {
        return own_next(form, k, state.len());
    }
    let front = forms::find_front(program, k, tag, state.len());
    if form == forms::GUARDED && !evaluation::signal_is_present(program, values, k) {
        return Next::Rests(Reason::Suspended);
    }
    let from = front.from;
    if writes_next(program, front.child, state[from]) {
        return Next::Part(front, true);
    }
    if form < forms::BEFORE {
        return Next::Inside(front);
    }
    Next::Part(front, false)
}
