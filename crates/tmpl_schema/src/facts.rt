//! What a call that gives what is empty or not tells of operands, and which places these are.
#![tactic(auto, using(tmpl_grammar::proofs::ViewLemmas::group_seen, crate::proofs::FactLemmas::rests))]

ghost use Rattle.std.specs.Prelude.{◌≡◌, ◌^◌, ◌<◌, IfSome, false, true};
ghost use Rattle.std.specs.Option.{option_map};
ghost use Rattle.tmpl_grammar.specs.View.{commands_in, operand_of, operands_in};
ghost use Rattle.tmpl_schema.specs.computed.Check.{are_constants, are_texts, bounds_of, call_fact, call_place, chain_place, command_call, compare_fact, constant_test, count_of, counts_in, equal_test, first_fact, group_counts, group_place, head_of, index_place, is_nil_alone, key_of};
ghost use Rattle.tmpl_schema.specs.computed.Check.{head_place, least_by, length_fact, mirror, more_than, one_of, operand_counts, pair_fact, piped_fact, pipeline_call, pipeline_place, place_of, tells, text_of, texts_in, turned_by, turned_fact};
ghost use Rattle.tmpl_schema.specs.computed.View.{call_seen, fact_seen, head_seen, place_seen};
ghost use Rattle.tmpl_shape.specs.computed.View.{key_seen, shape_seen, test_seen};

use std::slice::from_ref;
use tmpl_funcs::Func;
use tmpl_grammar::{Command, Operand};
use tmpl_shape::{Key, Shape, Test};
use tmpl_values::Bytes;

/// What the first operand of a command is.
#[derive(Clone, Copy)]
pub(crate) enum Head {
    /// A function that is called.
    Function(Func),
    Nil,
    /// What gives a value.
    Value,
}

/// A chain of fields from dot or from the variable of a name, and of those that keys name after it.
#[derive(Clone, Copy)]
pub(crate) struct Place<'p> {
    pub(crate) root: Option<&'p [u8]>,
    pub(crate) fields: &'p [Bytes],
    pub(crate) keys: &'p [Operand],
}

/// That an operand has a value of which a test shows what it does.
#[derive(Clone, Copy)]
pub(crate) struct Fact<'p> {
    pub(crate) test: Test<'p>,
    pub(crate) about: &'p Operand,
}

/// What the first operand of a command is.
pub(crate) fn head_of(operand: &Operand) -> Head
    ensures { head_seen result ≡ head_of (operand_of operand.now) }
{
    match operand {
        Operand::Function(func) => Head::Function(*func),
        Operand::Nil => Head::Nil,
        Operand::Dot | Operand::Fields(_) | Operand::Variable { .. } => Head::Value,
        Operand::Bool(_) | Operand::Number(_) | Operand::Text(_) => Head::Value,
        Operand::Group { .. } => Head::Value,
    }
}

/// The text of a constant.
pub(crate) fn text_of(operand: &Operand) -> Option<&Bytes>
    ensures { option_map (λ k. k.now) result ≡ text_of (operand_of operand.now) }
{
    match operand {
        Operand::Text(text) => Some(text),
        Operand::Dot | Operand::Fields(_) | Operand::Variable { .. } => None,
        Operand::Bool(_) | Operand::Number(_) | Operand::Nil | Operand::Function(_) => None,
        Operand::Group { .. } => None,
    }
}

/// The number of a constant that counts from 0 on.
pub(crate) fn count_of(operand: &Operand) -> Option<u64>
    ensures value { result ≡ count_of (operand_of operand.now) }
    ensures small { IfSome result (λ n. n < 2 ^ 63) }
{
    match operand {
        Operand::Number(number) => {
            let number = *number;
            if number < 0 {
                return None;
            }
            Some(number as u64)
        }
        Operand::Dot | Operand::Fields(_) | Operand::Variable { .. } => None,
        Operand::Bool(_) | Operand::Text(_) | Operand::Nil | Operand::Function(_) => None,
        Operand::Group { .. } => None,
    }
}

/// The key that a constant is.
pub(crate) fn key_of(operand: &Operand) -> Option<Key<'_>>
    ensures { option_map key_seen result ≡ key_of (operand_of operand.now) }
{
    match operand {
        Operand::Text(text) => Some(Key::Name(text.as_slice())),
        Operand::Number(_) => Some(Key::Place(count_of(operand)?)),
        Operand::Dot | Operand::Fields(_) | Operand::Variable { .. } => None,
        Operand::Bool(_) | Operand::Nil | Operand::Function(_) | Operand::Group { .. } => None,
    }
}

/// The bounds of a part that are written out: where it begins, and where it ends if not where the whole does.
pub(crate) fn bounds_of(operands: &[Operand], piped: Option<&Shape>) -> Option<(u64, Option<u64>)>
    ensures { result ≡ bounds_of (shape_seen piped.entry) (operands_in operands.now) }
{
    match piped {
        Some(_) => None,
        None => match operands {
            [] => Some((0, None)),
            [from] => Some((count_of(from)?, None)),
            [from, to] => Some((count_of(from)?, Some(count_of(to)?))),
            [_, _, _, ..] => None,
        },
    }
}

/// The operand, where there is one.
fn one_of(operands: &[Operand]) -> Option<&Operand>
    ensures { option_map (λ o. operand_of o.now) result ≡ one_of (operands_in operands.now) }
{
    match operands {
        [only] => Some(only),
        [] => None,
        [_, _, ..] => None,
    }
}

/// Whether an operand is a constant, or else whether it is `nil`.
fn tells(constant: bool, operand: &Operand) -> bool
    ensures { result ≡ tells constant (operand_of operand.now) }
{
    match operand {
        Operand::Bool(_) | Operand::Number(_) | Operand::Text(_) => constant,
        Operand::Nil => !constant,
        Operand::Dot | Operand::Fields(_) | Operand::Variable { .. } => false,
        Operand::Function(_) | Operand::Group { .. } => false,
    }
}

/// Whether the operands are constants of texts.
fn are_texts(operands: &[Operand]) -> bool
    ensures { result ≡ are_texts (operands_in operands.now) }
{
    match operands {
        [] => true,
        [first, rest @ ..] => text_of(first).is_some() && are_texts(rest),
    }
}

/// The place at the end of a chain of fields from dot or a variable, and of these keys after it.
fn chain_place<'p>(operand: &'p Operand, keys: &'p [Operand]) -> Option<Place<'p>>
    ensures { option_map place_seen result
        ≡ chain_place (operand_of operand.now) (texts_in (operands_in keys.now)) }
{
    match operand {
        Operand::Dot => Some(Place {
            root: None,
            fields: &[],
            keys,
        }),
        Operand::Fields(names) => Some(Place {
            root: None,
            fields: names.as_slice(),
            keys,
        }),
        Operand::Variable { name, fields } => Some(Place {
            root: Some(name.as_slice()),
            fields: fields.as_slice(),
            keys,
        }),
        Operand::Bool(_) | Operand::Number(_) | Operand::Text(_) => None,
        Operand::Nil | Operand::Function(_) | Operand::Group { .. } => None,
    }
}

/// The place of what `index` gives by keys that are written out.
pub(crate) fn index_place(operands: &[Operand]) -> Option<Place<'_>>
    ensures { option_map place_seen result ≡ index_place (operands_in operands.now) }
{
    match operands {
        [] => None,
        [first, keys @ ..] => {
            if are_texts(keys) {
                return chain_place(first, keys);
            }
            None
        }
    }
}

/// The place of what a call gives.
fn call_place(func: Func, operands: &[Operand]) -> Option<Place<'_>>
    ensures { option_map place_seen result ≡ call_place func (operands_in operands.now) }
{
    match func {
        Func::Index => index_place(operands),
        _ => None,
    }
}

/// The function that a command calls, with its operands.
pub(crate) fn command_call(operands: &[Operand]) -> Option<(Func, &[Operand])>
    ensures { option_map call_seen result ≡ command_call (operands_in operands.now) }
{
    match operands {
        [] => None,
        [first, rest @ ..] => match head_of(first) {
            Head::Function(func) => Some((func, rest)),
            Head::Nil | Head::Value => None,
        },
    }
}

/// The function that a pipeline calls whose only command is the call.
fn pipeline_call(commands: &[Command]) -> Option<(Func, &[Operand])>
    ensures { option_map call_seen result ≡ pipeline_call (commands_in commands.now) }
{
    match commands {
        [only] => command_call(only.operands.as_slice()),
        [] => None,
        [_, _, ..] => None,
    }
}

/// The place of a pipeline in parentheses with the chain of fields after it.
fn group_place<'p>(commands: &'p [Command], fields: &[Bytes]) -> Option<Place<'p>>
    ensures { option_map place_seen result ≡ group_place (commands_in commands.now) fields.now }
{
    match fields {
        [] => match pipeline_call(commands) {
            Some((func, operands)) => call_place(func, operands),
            None => None,
        },
        [_, ..] => None,
    }
}

/// The place whose value is that of an operand, but for nothing and null.
pub(crate) fn place_of(operand: &Operand) -> Option<Place<'_>>
    ensures { option_map place_seen result ≡ place_of (operand_of operand.now) }
{
    match operand {
        Operand::Group { commands, fields } => group_place(commands.as_slice(), fields.as_slice()),
        _ => chain_place(operand, &[]),
    }
}

/// The operand of which a call gives the length.
pub(crate) fn counts_in<'p>(call: Option<(Func, &'p [Operand])>) -> Option<&'p Operand>
    ensures { option_map (λ o. operand_of o.now) result ≡ counts_in (option_map call_seen call.entry) }
{
    match call {
        Some((Func::Len, operands)) => one_of(operands),
        Some(_) => None,
        None => None,
    }
}

/// The operand of which a pipeline in parentheses gives the length.
fn group_counts<'p>(commands: &'p [Command], fields: &[Bytes]) -> Option<&'p Operand>
    ensures { option_map (λ o. operand_of o.now) result ≡ group_counts (commands_in commands.now) fields.now }
{
    match fields {
        [] => counts_in(pipeline_call(commands)),
        [_, ..] => None,
    }
}

/// The operand of which an operand is the length.
fn operand_counts(operand: &Operand) -> Option<&Operand>
    ensures { option_map (λ o. operand_of o.now) result ≡ operand_counts (operand_of operand.now) }
{
    match operand {
        Operand::Group { commands, fields } => group_counts(commands.as_slice(), fields.as_slice()),
        Operand::Dot | Operand::Fields(_) | Operand::Variable { .. } => None,
        Operand::Bool(_) | Operand::Number(_) | Operand::Text(_) => None,
        Operand::Nil | Operand::Function(_) => None,
    }
}

/// One, where that is more than the number.
fn more_than(number: u64) -> Option<u64>
    ensures { result ≡ more_than number }
{
    if number == 0 { Some(1) } else { None }
}

/// How many items there are at least where their number compared with this one gives true, or else where it gives false.
fn least_by(truth: bool, func: Func, number: u64) -> Option<u64>
    requires { number < 2 ^ 63 }
    ensures { result ≡ least_by truth func number }
{
    match (truth, func) {
        (true, Func::Eq | Func::Ge) | (false, Func::Ne | Func::Lt) => Some(number),
        (true, Func::Ne) | (false, Func::Eq) => more_than(number),
        (true, Func::Gt) | (false, Func::Le) => Some(number + 1),
        _ => None,
    }
}

/// The comparison of the second with the first that a comparison of the first with the second is.
fn mirror(func: Func) -> Func
    ensures { result ≡ mirror func }
{
    match func {
        Func::Lt => Func::Gt,
        Func::Le => Func::Ge,
        Func::Gt => Func::Lt,
        Func::Ge => Func::Le,
        _ => func,
    }
}

/// By a comparison of the length of an operand with a number.
fn length_fact<'p>(
    truth: bool,
    func: Func,
    counted: Option<&'p Operand>,
    number: Option<u64>,
) -> Option<Fact<'p>>
    requires { IfSome number (λ n. n < 2 ^ 63) }
    ensures { option_map fact_seen result
        ≡ length_fact truth func (option_map (λ o. operand_of o.now) counted.entry) number }
{
    let about = counted?;
    let least = least_by(truth, func, number?)?;
    Some(Fact {
        test: Test::There(least),
        about,
    })
}

/// Whether each operand is a constant, and not `nil`.
fn are_constants(operands: &[Operand]) -> bool
    ensures { result ≡ are_constants (operands_in operands.now) }
{
    match operands {
        [] => true,
        [first, rest @ ..] => tells(true, first) && are_constants(rest),
    }
}

/// Whether `nil` is the only operand.
fn is_nil_alone(operands: &[Operand]) -> bool
    ensures { result ≡ is_nil_alone (operands_in operands.now) }
{
    match one_of(operands) {
        Some(only) => tells(false, only),
        None => false,
    }
}

/// The test of what equals one of these, or else none.
fn equal_test(is_equal: bool, operands: &[Operand]) -> Option<Test<'_>>
    ensures { option_map test_seen result ≡ equal_test is_equal (operands_in operands.now) }
{
    if is_equal {
        if are_constants(operands) {
            return Some(Test::Among(operands));
        }
        return None;
    }
    if is_nil_alone(operands) {
        return Some(Test::There(0));
    }
    Some(Test::Apart(operands))
}

/// The test by `eq` or `ne`.
fn constant_test(truth: bool, func: Func, operands: &[Operand]) -> Option<Test<'_>>
    ensures { option_map test_seen result ≡ constant_test truth func (operands_in operands.now) }
{
    match func {
        Func::Eq => equal_test(truth, operands),
        Func::Ne => equal_test(!truth, operands),
        _ => None,
    }
}

/// The first that there is.
fn first_fact<'p>(first: Option<Fact<'p>>, more: Option<Fact<'p>>) -> Option<Fact<'p>>
    ensures { option_map fact_seen result
        ≡ first_fact (option_map fact_seen first.entry) (option_map fact_seen more.entry) }
{
    match first {
        Some(fact) => Some(fact),
        None => more,
    }
}

/// By a comparison of two operands of which one is a length.
fn pair_fact<'p>(
    truth: bool,
    func: Func,
    first: &'p Operand,
    second: &'p Operand,
) -> Option<Fact<'p>>
    ensures { option_map fact_seen result
        ≡ pair_fact truth func (operand_of first.now) (operand_of second.now) }
{
    let by_first = length_fact(truth, func, operand_counts(first), count_of(second));
    let by_second = length_fact(truth, mirror(func), operand_counts(second), count_of(first));
    first_fact(by_first, by_second)
}

/// By a comparison of a string that is written out with an operand.
fn turned_by<'p>(
    truth: bool,
    func: Func,
    constant: &'p Operand,
    about: &'p Operand,
) -> Option<Fact<'p>>
    ensures { option_map fact_seen result
        ≡ turned_by truth func (operand_of constant.now) (operand_of about.now) }
{
    match constant {
        Operand::Text(_) => match constant_test(truth, func, from_ref(constant)) {
            Some(test) => Some(Fact { test, about }),
            None => None,
        },
        Operand::Function(_) | Operand::Nil | Operand::Dot | Operand::Fields(_) => None,
        Operand::Variable { .. } | Operand::Bool(_) | Operand::Number(_) => None,
        Operand::Group { .. } => None,
    }
}

/// The same of the operand with the string, where it is the only other one.
fn turned_fact<'p>(
    truth: bool,
    func: Func,
    constant: &'p Operand,
    others: &'p [Operand],
) -> Option<Fact<'p>>
    ensures { option_map fact_seen result
        ≡ turned_fact truth func (operand_of constant.now) (operands_in others.now) }
{
    turned_by(truth, func, constant, one_of(others)?)
}

/// By a comparison of an operand with these.
fn compare_fact<'p>(
    truth: bool,
    func: Func,
    about: &'p Operand,
    others: &'p [Operand],
) -> Option<Fact<'p>>
    ensures { option_map fact_seen result
        ≡ compare_fact truth func (operand_of about.now) (operands_in others.now) }
{
    let by_length = match one_of(others) {
        Some(other) => pair_fact(truth, func, about, other),
        None => None,
    };
    let by_constants = match constant_test(truth, func, others) {
        Some(test) => Some(Fact { test, about }),
        None => None,
    };
    let by_string = turned_fact(truth, func, about, others);
    first_fact(by_string, first_fact(by_length, by_constants))
}

/// By a call that gives what is not empty, or else what is.
pub(crate) fn call_fact(full: bool, func: Func, operands: &[Operand]) -> Option<Fact<'_>>
    ensures { option_map fact_seen result ≡ call_fact full func (operands_in operands.now) }
{
    match func {
        Func::Len => {
            if !full {
                return None;
            }
            let about = one_of(operands)?;
            Some(Fact {
                test: Test::There(1),
                about,
            })
        }
        _ => match operands {
            [] => None,
            [first, rest @ ..] => compare_fact(full, func, first, rest),
        },
    }
}

/// By a call to which a length is piped.
pub(crate) fn piped_fact<'p>(
    full: bool,
    counted: Option<&'p Operand>,
    call: Option<(Func, &[Operand])>,
) -> Option<Fact<'p>>
    ensures { option_map fact_seen result
        ≡ piped_fact full (option_map (λ o. operand_of o.now) counted.entry)
        (option_map call_seen call.entry) }
{
    let (func, operands) = call?;
    let number = match one_of(operands) {
        Some(operand) => count_of(operand),
        None => None,
    };
    length_fact(full, mirror(func), counted, number)
}

/// The place of what a command gives whose operand after the first are these.
fn command_place<'p>(first: &'p Operand, rest: &'p [Operand]) -> Option<Place<'p>>
    ensures { option_map place_seen result
        ≡ head_place (head_of (operand_of first.now)) (operand_of first.now) (operands_in rest.now) }
{
    match head_of(first) {
        Head::Function(func) => call_place(func, rest),
        Head::Nil | Head::Value => match rest {
            [] => place_of(first),
            [_, _more @ ..] => None,
        },
    }
}

/// The place of what a pipeline gives, but for nothing and null.
pub(crate) fn pipeline_place(commands: &[Command]) -> Option<Place<'_>>
    ensures { option_map place_seen result ≡ pipeline_place (commands_in commands.now) }
{
    match commands {
        [only] => match only.operands.as_slice() {
            [] => None,
            [first, rest @ ..] => command_place(first, rest),
        },
        [] => None,
        [_, _, ..] => None,
    }
}
