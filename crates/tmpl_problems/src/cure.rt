//! What is wrong with a command that fails at each run that gets to it, in words, and what to write instead.

use crate::failing::{Failing, failing_in_reading};
use std::alloc::{AllocError, Global};
use std::str::from_utf8;
use tmpl_funcs::Func;
use tmpl_grammar::{Command, Operand, Reading, read_action};
use tmpl_hints::Sentence;
use tmpl_lex::{Rest, first_part};
use tmpl_values::{Bytes, Val, add_quote, add_text};

/// The most operands of a command that is written anew, the most parentheses that are added around one another, and the
/// most bytes of what is written.
const MOST_OPERANDS: usize = 30;

const MOST_LEVELS: u64 = 8;

const MOST_BYTES: usize = 200;

/// The message about what fails at each run that gets to it.
pub(crate) fn failing_text(alloc: Global, failing: Failing<'_>) -> Result<String, AllocError> {
    let said = Sentence::new(alloc).say("always fails: ");
    match failing {
        Failing::Command(operands, is_piped) => {
            let said = say_command(alloc, said, operands, is_piped)?;
            if is_piped {
                return said.finish();
            }
            say_cure(alloc, said, operands)?.finish()
        }
        Failing::Argument(operands, func) => {
            say_cure(alloc, say_misplaced(said, func), operands)?.finish()
        }
    }
}

/// Says what is wrong with a command.
fn say_command(
    alloc: Global,
    said: Sentence,
    operands: &[Operand],
    is_piped: bool,
) -> Result<Sentence, AllocError> {
    match operands {
        [Operand::Function(func), arguments @ ..] => {
            let count = arguments.len() as u64 + u64::from(is_piped);
            if func.takes(count) {
                return say_refused(alloc, said, *func, arguments);
            }
            Ok(say_counts(said, *func, count))
        }
        [Operand::Nil] if !is_piped => Ok(said.say("\"nil\" is no command")),
        [first] => {
            let mut text = Vec::new(alloc);
            print_operand(first, &mut text)?;
            let said = said.say("nothing can be piped to ").quote(text.as_slice());
            Ok(said.say(", which is no function"))
        }
        [first, rest @ ..] => say_no_function(alloc, said, first, rest),
        [] => Ok(said),
    }
}

/// Says that a command begins with what is no function.
fn say_no_function(
    alloc: Global,
    said: Sentence,
    first: &Operand,
    rest: &[Operand],
) -> Result<Sentence, AllocError> {
    for operand in rest {
        if let Operand::Function(func) = operand {
            return Ok(say_misplaced(said, *func));
        }
    }
    let mut text = Vec::new(alloc);
    print_operand(first, &mut text)?;
    let said = match first {
        Operand::Text(_) => said.show(text.as_slice()),
        _ => said.quote(text.as_slice()),
    };
    Ok(said.say(" is no function, and has an argument"))
}

/// Says that a function stands after its first argument, or without parentheses around it and its own.
fn say_misplaced(said: Sentence, func: Func) -> Sentence {
    said.quote(func.name().as_bytes())
        .say(" stands among arguments")
}

/// Says that a function refuses its arguments.
fn say_refused(
    alloc: Global,
    said: Sentence,
    func: Func,
    arguments: &[Operand],
) -> Result<Sentence, AllocError> {
    let mut text = Vec::new(alloc);
    print_operands(arguments, &mut text)?;
    let said = said.quote(func.name().as_bytes()).say(" refuses ");
    Ok(said.show(text.as_slice()))
}

/// Says how many arguments a function takes, and how many it has.
fn say_counts(said: Sentence, func: Func, count: u64) -> Sentence {
    let said = said.quote(func.name().as_bytes()).say(" takes ");
    let takes = (func.takes(1), func.takes(2), func.takes(3), func.takes(4));
    let said = said.say(match takes {
        (true, false, _, _) => "1 argument",
        (false, true, false, _) => "2 arguments",
        (true, _, true, false) => "1 to 3 arguments",
        (false, _, _, _) => "2 or more arguments",
        _ => "1 or more arguments",
    });
    match count {
        0 => said.say(" and has none"),
        _ => said.say(" and has ").count(count),
    }
}

/// Says what to write for a command, where that is seen.
fn say_cure(alloc: Global, said: Sentence, operands: &[Operand]) -> Result<Sentence, AllocError> {
    if operands.len() > MOST_OPERANDS {
        return Ok(said);
    }
    let is_choice = is_choice(operands);
    if joins_constant(operands) && !is_choice {
        return Ok(said);
    }
    let mut text = Vec::new(alloc);
    text.extend_from_slice(b"{{")?;
    if is_choice {
        write_choice(operands, &mut text)?;
    } else {
        write_command(MOST_LEVELS, operands, &mut text)?;
    }
    let end = text.len();
    text.extend_from_slice(b"}}")?;
    if text.len() > MOST_BYTES || !is_sound(alloc, text.as_slice())? {
        return Ok(said);
    }
    let cure = text.as_slice().get(2..end).unwrap_or(&[]);
    Ok(said.say(": write ").say(from_utf8(cure).unwrap_or("")))
}

/// Whether a file is an action in which nothing fails at each run.
fn is_sound(alloc: Global, file: &[u8]) -> Result<bool, AllocError> {
    let mut tokens = Vec::new(alloc);
    first_part(file, Rest::of(file), &mut tokens)?;
    let reading = read_action(alloc, tokens.as_slice())?;
    let is_read = matches!(reading, Reading::Read(_));
    Ok(is_read && failing_in_reading(alloc, &reading)?.is_none())
}

/// Whether a constant alone stands on a side of an `and` or an `or` among these, as in `eq .a 1 or 2`.
fn joins_constant(operands: &[Operand]) -> bool {
    let mut after_joint = false;
    let mut is_alone = false;
    for operand in operands {
        match operand {
            Operand::Function(Func::And | Func::Or) => {
                if after_joint && is_alone {
                    return true;
                }
                after_joint = true;
                is_alone = false;
            }
            Operand::Text(_) | Operand::Number(_) => {
                is_alone = after_joint && !is_alone;
            }
            _ => {
                is_alone = false;
                after_joint = false;
            }
        }
    }
    after_joint && is_alone
}

/// Whether operands ask whether a value equals one of several constants, as in `eq .a 1 or 2` and `.a eq 1 or 2`.
fn is_choice(operands: &[Operand]) -> bool {
    let choices = match operands {
        [Operand::Function(Func::Eq), first, rest @ ..] if !is_function(first) => rest,
        [first, Operand::Function(Func::Eq), rest @ ..] if !is_function(first) => rest,
        _ => return false,
    };
    let mut is_wanted = true;
    for operand in choices {
        is_wanted = match (is_wanted, operand) {
            (true, Operand::Text(_) | Operand::Number(_)) => false,
            (false, Operand::Function(Func::Or)) => true,
            _ => return false,
        };
    }
    !is_wanted
}

/// Whether an operand is a function.
fn is_function(operand: &Operand) -> bool {
    matches!(operand, Operand::Function(_))
}

/// Writes that a value equals one of several constants: all operands but the functions after `eq`.
fn write_choice(operands: &[Operand], text: &mut Vec<u8>) -> Result<(), AllocError> {
    text.extend_from_slice(b"eq")?;
    for operand in operands {
        if !is_function(operand) {
            text.extend_from_slice(b" ")?;
            print_operand(operand, text)?;
        }
    }
    Ok(())
}

/// Operands that are written anew as two parts: the arguments of a function that stands between them, or what stands
/// before a function, and it with the rest.
#[derive(Clone, Copy)]
struct Split<'t> {
    func: Option<Func>,
    front: &'t [Operand],
    rest: &'t [Operand],
}

/// Where a command is split: at an `or`, at an `and`, after a `not`, at a comparison, or before another function.
fn split_of(operands: &[Operand]) -> Option<Split<'_>> {
    if let Some(split) = split_at(operands, Joint::Or).or(split_at(operands, Joint::And)) {
        return Some(split);
    }
    if let [Operand::Function(Func::Not), _, _, ..] = operands {
        return Some(split_before(operands, 1));
    }
    split_at(operands, Joint::Comparison).or(split_at(operands, Joint::Other))
}

/// Functions that others write between their arguments, and any other.
#[derive(Clone, Copy)]
enum Joint {
    Or,
    And,
    Comparison,
    Other,
}

/// Where the first function of this kind stands that is not the first operand.
fn split_at(operands: &[Operand], wanted: Joint) -> Option<Split<'_>> {
    for (index, operand) in operands.iter().enumerate().skip(1) {
        let Operand::Function(func) = operand else {
            continue;
        };
        let split = split_before(operands, index);
        match (wanted, *func) {
            (Joint::Or, Func::Or)
            | (Joint::And, Func::And)
            | (
                Joint::Comparison,
                Func::Eq | Func::Ne | Func::Lt | Func::Le | Func::Gt | Func::Ge,
            ) => {
                return Some(Split {
                    func: Some(*func),
                    rest: split.rest.get(1..).unwrap_or(&[]),
                    ..split
                });
            }
            (Joint::Other, _) => return Some(split),
            _ => {}
        }
    }
    None
}

/// What stands before the operand of this number, and it with the rest.
fn split_before(operands: &[Operand], index: usize) -> Split<'_> {
    Split {
        func: None,
        front: operands.get(..index).unwrap_or(&[]),
        rest: operands.get(index..).unwrap_or(&[]),
    }
}

/// Writes a command with each function before its arguments, down to this many parentheses.
#[cycle(write)]
fn write_command(levels: u64, operands: &[Operand], text: &mut Vec<u8>) -> Result<(), AllocError> {
    let Some(split) = split_of(operands) else {
        return print_operands(operands, text);
    };
    if let Some(func) = split.func {
        text.extend_from_slice(func.name().as_bytes())?;
        text.extend_from_slice(b" ")?;
        write_part(levels, split.front, text)?;
    } else {
        print_operands(split.front, text)?;
    }
    text.extend_from_slice(b" ")?;
    write_part(levels, split.rest, text)
}

/// Writes operands as one: in parentheses where they are several.
#[cycle(write)]
fn write_part(levels: u64, operands: &[Operand], text: &mut Vec<u8>) -> Result<(), AllocError> {
    if operands.len() == 1 || levels == 0 {
        return print_operands(operands, text);
    }
    text.extend_from_slice(b"(")?;
    write_command(levels - 1, operands, text)?;
    text.extend_from_slice(b")")
}

/// Prints the commands of a pipeline.
#[cycle(print)]
fn print_commands(commands: &[Command], text: &mut Vec<u8>) -> Result<(), AllocError> {
    for (index, command) in commands.iter().enumerate() {
        if index > 0 {
            text.extend_from_slice(b" | ")?;
        }
        print_operands(command.operands.as_slice(), text)?;
    }
    Ok(())
}

/// Prints the operands of a command.
#[cycle(print)]
fn print_operands(operands: &[Operand], text: &mut Vec<u8>) -> Result<(), AllocError> {
    for (index, operand) in operands.iter().enumerate() {
        if index > 0 {
            text.extend_from_slice(b" ")?;
        }
        print_operand(operand, text)?;
    }
    Ok(())
}

/// Prints an operand.
#[cycle(print)]
fn print_operand(operand: &Operand, text: &mut Vec<u8>) -> Result<(), AllocError> {
    match operand {
        Operand::Dot => text.extend_from_slice(b"."),
        Operand::Fields(names) => print_chain(names.as_slice(), text),
        Operand::Variable { name, fields } => {
            text.extend_from_slice(b"$")?;
            text.extend_from_slice(name.as_slice())?;
            print_chain(fields.as_slice(), text)
        }
        Operand::Bool(truth) => add_text(&Val::Bool(*truth), text),
        Operand::Number(number) => add_text(&Val::Num(*number), text),
        Operand::Text(bytes) => add_quote(bytes.as_slice(), text),
        Operand::Nil => text.extend_from_slice(b"nil"),
        Operand::Function(func) => text.extend_from_slice(func.name().as_bytes()),
        Operand::Group { commands, fields } => {
            text.extend_from_slice(b"(")?;
            print_commands(commands.as_slice(), text)?;
            text.extend_from_slice(b")")?;
            print_chain(fields.as_slice(), text)
        }
    }
}

/// Prints the names of fields, each with its dot.
fn print_chain(names: &[Bytes], text: &mut Vec<u8>) -> Result<(), AllocError> {
    for name in names {
        text.extend_from_slice(b".")?;
        text.extend_from_slice(name.as_slice())?;
    }
    Ok(())
}
