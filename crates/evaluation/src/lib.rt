// What the names hold, and the values of expressions.
#![tactic(auto)]

ghost use Rattle.std.specs.Prelude.{◌≡◌, ◌<◌, length};
ghost use Rattle.language.specs.Steps.{value, present, test};
ghost use Rattle.packing.specs.Packing.{kind_in, operand_in};
ghost use Rattle.program.specs.Program.{most_nodes, a_at, expression_of};
ghost use Rattle.evaluation.specs.Evaluation.{applied, leaf_value, Evaluable};

use language::expression_kinds;
use program::WORDS;

pub fn is_present(values: &[i32], a: usize) -> bool
    requires { a < length values.now }
    ensures { result ≡ present values.now a }
{
    values[a] != 0
}

// Whether the signal in field a of node k is present.
pub fn signal_is_present(program: &[usize; WORDS], values: &[i32], k: usize) -> bool
    requires { (k < most_nodes) × (a_at program.now k < length values.now) }
    ensures { result ≡ present values.now (a_at program.now k) }
{
    is_present(values, program::a_at(program, k))
}

// A constant, or what a register holds.
fn leaf_value(values: &[i32], w: usize) -> i32
    requires { 0 < kind_in w → operand_in w < length values.now }
    ensures { result ≡ leaf_value values.now w }
{
    if packing::kind_in(w) == expression_kinds::CONSTANT {
        return values::words::value_of_word(packing::constant_in(w) as u32);
    }
    let x = packing::operand_in(w);
    values[x]
}

// The result of a binary operator; equality is the last one.
fn operate(kind: usize, a: i32, b: i32) -> i32
    ensures { result ≡ applied kind a b }
{
    if kind == expression_kinds::ADD {
        return values::arithmetic::add(a, b);
    }
    if kind == expression_kinds::SUBTRACT {
        return values::arithmetic::subtract(a, b);
    }
    if kind == expression_kinds::MULTIPLY {
        return values::arithmetic::multiply(a, b);
    }
    if kind == expression_kinds::DIVIDE {
        return values::arithmetic::divide(a, b);
    }
    if kind == expression_kinds::LESS {
        return values::comparison::less(a, b);
    }
    values::comparison::equal(a, b)
}

// The value of expression e as an operand. Most operands are constants and registers: they need no further call.
#[cycle(operand_value_of)]
fn operand(program: &[usize; WORDS], values: &[i32], e: usize) -> i32
    requires { Evaluable program.now values.now e }
    ensures { result ≡ value (expression_of program.now e) values.now }
{
    let w = program::expression_at(program, e);
    if packing::kind_in(w) <= expression_kinds::REGISTER {
        return leaf_value(values, w);
    }
    value_of(program, values, e)
}

// The value of expression e.
#[cycle(operand_value_of)]
pub fn value_of(program: &[usize; WORDS], values: &[i32], e: usize) -> i32
    requires { Evaluable program.now values.now e }
    ensures { result ≡ value (expression_of program.now e) values.now }
{
    let w = program::expression_at(program, e);
    let kind = packing::kind_in(w);
    if kind <= expression_kinds::REGISTER {
        return leaf_value(values, w);
    }
    let a = operand(program, values, packing::operand_in(w));
    if kind == expression_kinds::NOT {
        return values::comparison::not(a);
    }
    let b = operand(program, values, packing::later_in(w));
    operate(kind, a, b)
}

// Whether the test of expression e holds.
pub fn test_holds(program: &[usize; WORDS], values: &[i32], e: usize) -> bool
    requires { Evaluable program.now values.now e }
    ensures { result ≡ test (expression_of program.now e) values.now }
{
    value_of(program, values, e) != 0
}
