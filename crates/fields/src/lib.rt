// The fields of the parts: what each is for, and what it holds.
#![tactic(auto)]

pub mod roles; // roles.rt: what the fields of each kind hold
pub mod children; // children.rt: the children of a node

ghost use Rattle.std.specs.Prelude.{◌≡◌, ◌+◌, ◌<◌};
ghost use Rattle.layout.specs.Promises.{IsPart};
ghost use Rattle.fields.specs.Fields.{field_count, role_of, field_of};

use crate::roles::{Role, expression_role, node_role};
use layout::file::File;
use layout::parts::word_at;

// One of the fields a, b, c.
#[derive(Clone, Copy)]
pub struct Field {
    pub role: Role,
    pub value: usize,
}

fn role_of(expressions: usize, q: usize, kind: usize, f: usize) -> Role
    requires { f < field_count }
    ensures { result ≡ role_of expressions q kind f }
{
    if q < expressions {
        return expression_role(kind, f);
    }
    node_role(kind, f)
}

// Field f of part q.
pub fn field_at(file: &File<'_>, q: usize, f: usize) -> Field
    requires { IsPart file.now.layout q × (f < field_count) }
    ensures field { result ≡ field_of file.now.bytes.now q f }
    ensures small { result.value < 65536 }
{
    let at = file.layout.offset + 8 * q;
    Field {
        role: role_of(file.layout.expressions, q, file.part(q).kind, f),
        value: word_at(file.bytes, at + 2 * (f + 1)),
    }
}
