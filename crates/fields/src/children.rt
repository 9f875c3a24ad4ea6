// The children of a node, by the table of roles.
ghost use Rattle.fields.specs.Children.{AreChildren};

use crate::roles::{Role, node_roles};
use layout::parts::Part;

// The nodes that a node's fields use, in their order.
#[derive(Clone, Copy, PartialEq, Eq)]
pub enum Children {
    None,
    One(usize),
    Two(usize, usize),
}

#[tactic(auto, unfolding(crate::specs::Children::first_child, crate::specs::Children::second_child))]
pub fn children_of(p: Part) -> Children
    ensures { AreChildren p result }
{
    match node_roles(p.kind) {
        [Role::Child, Role::Child, _] => Children::Two(p.a, p.b),
        [_, Role::Child, Role::Child] => Children::Two(p.b, p.c),
        [_, Role::Child, _] => Children::One(p.b),
        [_, _, Role::Child] => Children::One(p.c),
        _ => Children::None,
    }
}
