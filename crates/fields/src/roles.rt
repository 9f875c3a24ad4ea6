// What the fields of each kind of entry hold: no other place says it.
ghost use Rattle.std.specs.Prelude.{◌≡◌, ◌<◌, get_or};
ghost use Rattle.fields.specs.declared.roles.Role.TheVariants.{Unused};
ghost use Rattle.fields.specs.Roles.{expression_rows, node_rows, row_of, role_in, is_use, is_new};

use layout::parts::Part;

#[derive(Clone, Copy, PartialEq, Eq)]
pub enum Role {
    // Nothing: the field is 0.
    Unused,
    // The number of a register, or of a signal, that is used.
    Register,
    Signal,
    // The number of a register, or of a signal, that is declared.
    NewRegister,
    NewSignal,
    // The number of an expression.
    Expression,
    // The number of a child node.
    Child,
    // Half of a constant.
    Half,
}

impl Role {
    // A field of this role uses a name.
    pub fn is_use(self) -> bool
        ensures { result ≡ is_use self }
    {
        matches!(self, Role::Register | Role::Signal)
    }

    // A field of this role declares a name.
    pub fn is_new(self) -> bool
        ensures { result ≡ is_new self }
    {
        matches!(self, Role::NewRegister | Role::NewSignal)
    }
}

pub const EXPRESSION_KINDS: usize = 9;

pub const NODE_KINDS: usize = 11;

// What fields a, b and c of each kind of expression hold. The tables are statics, which are data in one place.
static EXPRESSION_ROWS: [[Role; Part::FIELDS]; EXPRESSION_KINDS] = [
    [Role::Unused, Role::Half, Role::Half],
    [Role::Register, Role::Unused, Role::Unused],
    [Role::Expression, Role::Expression, Role::Unused],
    [Role::Expression, Role::Expression, Role::Unused],
    [Role::Expression, Role::Expression, Role::Unused],
    [Role::Expression, Role::Expression, Role::Unused],
    [Role::Expression, Role::Expression, Role::Unused],
    [Role::Expression, Role::Expression, Role::Unused],
    [Role::Expression, Role::Unused, Role::Unused],
];

// What fields a, b and c of each kind of node hold.
static NODE_ROWS: [[Role; Part::FIELDS]; NODE_KINDS] = [
    [Role::Unused, Role::Unused, Role::Unused],
    [Role::Register, Role::Expression, Role::Unused],
    [Role::NewRegister, Role::Expression, Role::Child],
    [Role::Expression, Role::Child, Role::Child],
    [Role::Expression, Role::Child, Role::Unused],
    [Role::Child, Role::Child, Role::Unused],
    [Role::Signal, Role::Unused, Role::Unused],
    [Role::NewSignal, Role::Child, Role::Unused],
    [Role::Signal, Role::Child, Role::Unused],
    [Role::Signal, Role::Child, Role::Unused],
    [Role::Child, Role::Child, Role::Unused],
];

// The row of an expression of this kind. Each kind has an arm of its own, so that what is asked of a role is decided together
// with the kind: a look-up by a number that varies is slower. A kind past the table has no roles.
pub fn expression_roles(kind: usize) -> [Role; Part::FIELDS]
    ensures { result ≡ row_of expression_rows kind }
{
    match kind {
        0 => EXPRESSION_ROWS[0],
        1 => EXPRESSION_ROWS[1],
        2 => EXPRESSION_ROWS[2],
        3 => EXPRESSION_ROWS[3],
        4 => EXPRESSION_ROWS[4],
        5 => EXPRESSION_ROWS[5],
        6 => EXPRESSION_ROWS[6],
        7 => EXPRESSION_ROWS[7],
        8 => EXPRESSION_ROWS[8],
        _ => [Role::Unused; Part::FIELDS],
    }
}

// The row of a node of this kind.
pub fn node_roles(kind: usize) -> [Role; Part::FIELDS]
    ensures { result ≡ row_of node_rows kind }
{
    match kind {
        0 => NODE_ROWS[0],
        1 => NODE_ROWS[1],
        2 => NODE_ROWS[2],
        3 => NODE_ROWS[3],
        4 => NODE_ROWS[4],
        5 => NODE_ROWS[5],
        6 => NODE_ROWS[6],
        7 => NODE_ROWS[7],
        8 => NODE_ROWS[8],
        9 => NODE_ROWS[9],
        10 => NODE_ROWS[10],
        _ => [Role::Unused; Part::FIELDS],
    }
}

// Field f of a row: each by its own index, since one that varies would keep the row in memory.
fn role_at(row: [Role; Part::FIELDS], f: usize) -> Role
    requires { f < 3 }
    ensures { result ≡ get_or row f Unused }
{
    match f {
        0 => row[0],
        1 => row[1],
        _ => row[2],
    }
}

// The role of field f of an expression of this kind.
pub fn expression_role(kind: usize, f: usize) -> Role
    requires { f < 3 }
    ensures { result ≡ role_in expression_rows kind f }
{
    role_at(expression_roles(kind), f)
}

// The role of field f of a node of this kind.
pub fn node_role(kind: usize, f: usize) -> Role
    requires { f < 3 }
    ensures { result ≡ role_in node_rows kind f }
{
    role_at(node_roles(kind), f)
}
