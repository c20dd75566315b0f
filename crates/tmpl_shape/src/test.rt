//! What tests show of values.
ghost use Rattle.std.specs.Prelude.{◌≡◌};
ghost use Rattle.tmpl_grammar.specs.View.{operands_in};
ghost use Rattle.tmpl_shape.specs.Shape.{value_of};
ghost use Rattle.tmpl_shape.specs.computed.Shapes.{is_constant, least_of, lets_value, shows_there};
ghost use Rattle.tmpl_shape.specs.computed.View.{test_seen};

use crate::constant::Constant;
use tmpl_grammar::Operand;

/// What is shown of a value.
#[derive(Clone, Copy)]
pub enum Test<'t> {
    /// It is neither nothing nor null, has at least as many items if it is a list, and is not empty where that is one or more.
    There(u64),
    /// It is one of these constants, none of which is `nil`.
    Among(&'t [Operand]),
    /// It is none of the constants among these.
    Apart(&'t [Operand]),
}

/// Whether a value is neither nothing nor null.
pub fn shows_there(test: Test<'_>) -> bool
    ensures { result ≡ shows_there (test_seen test.entry) }
{
    match test {
        Test::There(_) | Test::Among(_) => true,
        Test::Apart(_) => false,
    }
}

/// How many items a list has at least.
pub(crate) fn least_of(test: Test<'_>) -> u64
    ensures { result ≡ least_of (test_seen test.entry) }
{
    match test {
        Test::There(least) => least,
        Test::Among(_) | Test::Apart(_) => 0,
    }
}

/// Whether it is one of the constants among these.
fn is_constant(constant: &Constant, operands: &[Operand]) -> bool
    ensures { result ≡ is_constant (value_of constant.now) (operands_in operands.now) }
{
    match operands {
        [] => false,
        [first, rest @ ..] => constant.is_named(first) || is_constant(constant, rest),
    }
}

/// Whether a value may be this constant.
pub(crate) fn lets_value(test: Test<'_>, constant: &Constant) -> bool
    ensures { result ≡ lets_value (test_seen test.entry) (value_of constant.now) }
{
    match test {
        Test::There(least) => least == 0 || constant.is_true(),
        Test::Among(operands) => is_constant(constant, operands),
        Test::Apart(operands) => !is_constant(constant, operands),
    }
}
