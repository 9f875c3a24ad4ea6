// What is wrong with an expression or a node by itself: refusals 7 and 8.
ghost use Rattle.std.specs.Prelude.{◌≡◌, not, ◌+◌, ◌<◌, ◌≤◌};
ghost use Rattle.prelude.specs.Search.{all};
ghost use Rattle.prelude.specs.Promises.{found};
ghost use Rattle.layout.specs.Layout.{expression_count, node_count};
ghost use Rattle.layout.specs.Entries.{kind_number, node};
ghost use Rattle.layout.specs.Promises.{IsPart};
ghost use Rattle.fields.specs.Fields.{field_count, field_of};
ghost use Rattle.entries.specs.Faults.{kind_for, holds_name, field_is_right, kinds_for, part_is_right};

use fields::roles::{EXPRESSION_KINDS, NODE_KINDS, Role};
use fields::{Field, field_at};
use layout::Script;
use layout::file::File;
use layout::parts::{NameKind, Part};
use prelude::search::{all, first};

// The kind of the names that a field of this role holds.
fn kind_for(role: Role) -> NameKind
    ensures { kind_number result ≡ kind_for role }
{
    match role {
        Role::Register | Role::NewRegister => NameKind::Register,
        _ => NameKind::Signal,
    }
}

// A field of part q holds a name of the right kind, and its own name where it declares one.
fn holds_name(file: &File<'_>, q: usize, field: Field) -> bool
    ensures { result ≡ holds_name file.now.bytes.now q field }
{
    if file.layout.names <= field.value {
        return false;
    }
    let name = file.name(field.value);
    name.kind == kind_for(field.role) as usize
        && (!field.role.is_new() || file.layout.expressions + name.owner == q)
}

// Field f of part q holds what its role asks for.
#[tactic(auto, unfolding(crate::specs::Faults::field_is_right))]
fn field_is_right(file: &File<'_>, q: usize, f: usize) -> bool
    requires { IsPart file.now.layout q × (f < field_count) }
    ensures { result ≡ field_is_right file.now.bytes.now q (field_of file.now.bytes.now q f) }
{
    let field = field_at(file, q, f);
    // One role after the other: a match over all of them is a jump, which is slower.
    if field.role == Role::Unused {
        return field.value == 0;
    }
    if field.role == Role::Half {
        return true;
    }
    if field.role == Role::Expression {
        return field.value < file.layout.expressions && field.value < q;
    }
    if field.role == Role::Child {
        return file.layout.expressions + field.value < q;
    }
    holds_name(file, q, field)
}

fn kinds_for(layout: Script, q: usize) -> usize
    ensures { result ≡ kinds_for layout.expressions q }
{
    if q < layout.expressions {
        EXPRESSION_KINDS
    } else {
        NODE_KINDS
    }
}

fn fields_are_right(file: &File<'_>, q: usize) -> bool
    requires { IsPart file.now.layout q }
    ensures { result ≡ all (λ f. field_is_right file.now.bytes.now q (field_of file.now.bytes.now q f)) field_count }
{
    all(Part::FIELDS, |f| field_is_right(file, q, f))
}

fn part_is_right(file: &File<'_>, q: usize) -> bool
    requires { IsPart file.now.layout q }
    ensures { result ≡ part_is_right file.now.bytes.now q }
{
    let p = file.part(q);
    p.kind < kinds_for(file.layout, q) && p.zero == 0 && fields_are_right(file, q)
}

// Of the n parts from part `from` on, the smallest at fault, by its number among these n.
pub fn first_wrong_part(file: &File<'_>, from: usize, n: usize) -> Option<usize>
    requires { from + n ≤ file.now.layout.expressions + file.now.layout.nodes }
    ensures { result ≡ found (λ k. not (part_is_right file.now.bytes.now (from + k))) n }
{
    first(n, |k| !part_is_right(file, from + k))
}

// The smallest expression at fault.
pub fn first_wrong_expression(file: &File<'_>) -> Option<usize>
    ensures { result ≡ found (λ e. not (part_is_right file.now.bytes.now e)) (expression_count file.now.bytes.now) }
{
    first_wrong_part(file, 0, file.layout.expressions)
}

// The smallest node at fault.
pub fn first_wrong_node(file: &File<'_>) -> Option<usize>
    ensures { result ≡ found (λ k. not (part_is_right file.now.bytes.now (node file.now.bytes.now k))) (node_count file.now.bytes.now) }
{
    first_wrong_part(file, file.layout.expressions, file.layout.nodes)
}
