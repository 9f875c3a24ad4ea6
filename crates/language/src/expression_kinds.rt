// The kinds of expressions, in the order of their numbers in files and programs: up to a register they have no operand,
// 'not' has one, the others two.
ghost use Rattle.std.specs.Prelude.{◌≡◌, ◌<◌};
ghost use Rattle.language.specs.KindNumbers.{expression_kinds, expression_number};

pub const CONSTANT: usize = 0;

pub const REGISTER: usize = 1;

pub const ADD: usize = 2;

pub const SUBTRACT: usize = 3;

pub const MULTIPLY: usize = 4;

pub const DIVIDE: usize = 5;

pub const LESS: usize = 6;

pub const EQUAL: usize = 7;

pub const NOT: usize = 8;

#[derive(Clone, Copy, PartialEq, Eq)]
pub enum ExpressionKind {
    Constant,
    Register,
    Add,
    Subtract,
    Multiply,
    Divide,
    Less,
    Equal,
    Not,
}

impl ExpressionKind {
    // The kind of this number.
    pub fn from_number(number: usize) -> ExpressionKind
        requires { number < expression_kinds }
        ensures { expression_number result ≡ number }
    {
        match number {
            0 => ExpressionKind::Constant,
            1 => ExpressionKind::Register,
            2 => ExpressionKind::Add,
            3 => ExpressionKind::Subtract,
            4 => ExpressionKind::Multiply,
            5 => ExpressionKind::Divide,
            6 => ExpressionKind::Less,
            7 => ExpressionKind::Equal,
            8 => ExpressionKind::Not,
            _ => unreachable!(),
        }
    }
}
