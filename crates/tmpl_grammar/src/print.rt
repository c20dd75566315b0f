//! Actions as they are printed: the bytes of their tokens.
#![tactic(auto, using(crate::proofs::PrintLemmas::still_begins, crate::proofs::PrintLemmas::begins_added))]

ghost use Rattle.std.specs.Prelude.{◌≡◌, ◌++◌, ◌∷◌, OnErr, OnOk, length, take};
ghost use Rattle.tmpl_grammar.specs.Print.{action_tokens, bytes_of, chain_tokens, command_tokens};
ghost use Rattle.tmpl_grammar.specs.Print.{given_tokens, header_tokens};
ghost use Rattle.tmpl_grammar.specs.Print.{named_tokens, operand_tokens, pipeline_tokens};
ghost use Rattle.tmpl_grammar.specs.View.{commands_in, given_of, header_of, operand_of, operands_in};
ghost use Rattle.tmpl_grammar.specs.View.{printed_of};
ghost use Rattle.tmpl_grammar.specs.computed.Keyword.{spelling};
ghost use Rattle.tmpl_grammar.specs.computed.Print.{unless};

use crate::keyword::Keyword;
use crate::tree::{Binding, Command, Control, Header, Operand, Pipeline};
use std::alloc::AllocError;
use tmpl_values::{Bytes, Val, add_quote, add_text};

/// An action to be printed: what a tree says at one place, borrowed from it. A `block` is printed as a definition and
/// a call, and an `else if` as an `else` and an `if`.
#[derive(Clone, Copy)]
pub enum PrintedAction<'t> {
    Pipeline(&'t Header),
    Open(Control, &'t Header),
    Else,
    End,
    Break,
    Continue,
    Define(&'t [u8]),
    Template(&'t [u8], Option<&'t Pipeline>),
}

impl PrintedAction<'_> {
    /// Adds what stands between the `{{` and the `}}` of the action: operands parted by one space, commands by
    /// space, bar, space; whole numbers in decimal, texts and names quoted (our own spelling). What the vector held
    /// stays, also where memory is refused.
    pub fn print(self, bytes: &mut Vec<u8>) -> Result<(), AllocError>
        ensures printed { OnOk result (bytes.new.items
            ≡ bytes.old.items ++ bytes_of (action_tokens (printed_of self.entry))) }
        ensures kept { OnErr result (take (length bytes.old.items) bytes.new.items ≡ bytes.old.items) }
    {
        match self {
            PrintedAction::Pipeline(header) => print_header(header, bytes),
            PrintedAction::Open(control, header) => {
                bytes.extend_from_slice(Keyword::Control(control).spelling())?;
                bytes.extend_from_slice(b" ")?;
                print_header(header, bytes)
            }
            PrintedAction::Else => bytes.extend_from_slice(b"else"),
            PrintedAction::End => bytes.extend_from_slice(b"end"),
            PrintedAction::Break => bytes.extend_from_slice(b"break"),
            PrintedAction::Continue => bytes.extend_from_slice(b"continue"),
            PrintedAction::Define(name) => print_named(Keyword::Define, name, None, bytes),
            PrintedAction::Template(name, given) => print_named(
                Keyword::Template,
                name,
                given,
                bytes,
            ),
        }
    }
}

/// Adds a keyword, a name in quotes, and a pipeline, if there is one.
fn print_named(
    keyword: Keyword,
    name: &[u8],
    given: Option<&Pipeline>,
    bytes: &mut Vec<u8>,
) -> Result<(), AllocError>
    ensures printed { OnOk result (bytes.new.items
        ≡ bytes.old.items
        ++ bytes_of (named_tokens (spelling keyword) name.now (given_tokens (given_of given.entry)))) }
    ensures kept { OnErr result (take (length bytes.old.items) bytes.new.items ≡ bytes.old.items) }
{
    bytes.extend_from_slice(keyword.spelling())?;
    bytes.extend_from_slice(b" ")?;
    add_quote(name, bytes)?;
    match given {
        Some(pipeline) => {
            bytes.extend_from_slice(b" ")?;
            print_commands(pipeline.commands.as_slice(), bytes)
        }
        None => Ok(()),
    }
}

/// Adds the variables of a header with their sign, and its pipeline.
fn print_header(header: &Header, bytes: &mut Vec<u8>) -> Result<(), AllocError>
    ensures printed { OnOk result (bytes.new.items ≡ bytes.old.items ++ bytes_of (header_tokens (header_of header.now))) }
    ensures kept { OnErr result (take (length bytes.old.items) bytes.new.items ≡ bytes.old.items) }
{
    let commands = header.pipeline.commands.as_slice();
    match &header.binding {
        Binding::Unbound => print_commands(commands, bytes),
        Binding::Declare(name) => print_bound(name.as_slice(), b" := ", commands, bytes),
        Binding::Assign(name) => print_bound(name.as_slice(), b" = ", commands, bytes),
        Binding::DeclarePair(pair) => {
            print_variable(pair.key.as_slice(), bytes)?;
            bytes.extend_from_slice(b", ")?;
            print_bound(pair.element.as_slice(), b" := ", commands, bytes)
        }
    }
}

/// Adds a variable, a sign with its spaces, and commands.
fn print_bound(
    name: &[u8],
    sign: &[u8],
    commands: &[Command],
    bytes: &mut Vec<u8>,
) -> Result<(), AllocError>
    ensures printed { OnOk result (bytes.new.items
        ≡ bytes.old.items ++ ((36 ∷ name.now) ++ (sign.now ++ bytes_of (pipeline_tokens (commands_in commands.now))))) }
    ensures kept { OnErr result (take (length bytes.old.items) bytes.new.items ≡ bytes.old.items) }
{
    print_variable(name, bytes)?;
    bytes.extend_from_slice(sign)?;
    print_commands(commands, bytes)
}

/// Adds a variable by its name without the `$`.
fn print_variable(name: &[u8], bytes: &mut Vec<u8>) -> Result<(), AllocError>
    ensures printed { OnOk result (bytes.new.items ≡ bytes.old.items ++ 36 ∷ name.now) }
    ensures kept { OnErr result (take (length bytes.old.items) bytes.new.items ≡ bytes.old.items) }
{
    bytes.push(b'$')?;
    bytes.extend_from_slice(name)
}

/// Adds the commands of a pipeline, with a bar between two of them.
#[cycle(print)]
fn print_commands(commands: &[Command], bytes: &mut Vec<u8>) -> Result<(), AllocError>
    ensures printed { OnOk result (bytes.new.items
        ≡ bytes.old.items ++ bytes_of (pipeline_tokens (commands_in commands.now))) }
    ensures kept { OnErr result (take (length bytes.old.items) bytes.new.items ≡ bytes.old.items) }
{
    let mut first = true;
    for command in commands {
        print_unless(first, b" | ", bytes)?;
        print_operands(command.operands.as_slice(), bytes)?;
        first = false;
    }
    Ok(())
}

/// Adds the operands of a command, with a space between two of them.
#[cycle(print)]
fn print_operands(operands: &[Operand], bytes: &mut Vec<u8>) -> Result<(), AllocError>
    ensures printed { OnOk result (bytes.new.items
        ≡ bytes.old.items ++ bytes_of (command_tokens (operands_in operands.now))) }
    ensures kept { OnErr result (take (length bytes.old.items) bytes.new.items ≡ bytes.old.items) }
{
    let mut first = true;
    for operand in operands {
        print_unless(first, b" ", bytes)?;
        print_operand(operand, bytes)?;
        first = false;
    }
    Ok(())
}

/// Adds a separator, but none before the first.
fn print_unless(first: bool, separator: &[u8], bytes: &mut Vec<u8>) -> Result<(), AllocError>
    ensures printed { OnOk result (bytes.new.items ≡ bytes.old.items ++ unless first separator.now) }
    ensures kept { OnErr result (take (length bytes.old.items) bytes.new.items ≡ bytes.old.items) }
{
    if first {
        Ok(())
    } else {
        bytes.extend_from_slice(separator)
    }
}

/// Adds one operand.
#[cycle(print)]
#[tactic(auto, using(crate::proofs::ViewLemmas::groups, crate::proofs::PrintLemmas::still_begins, crate::proofs::PrintLemmas::begins_added))]
fn print_operand(operand: &Operand, bytes: &mut Vec<u8>) -> Result<(), AllocError>
    ensures printed { OnOk result (bytes.new.items
        ≡ bytes.old.items ++ bytes_of (operand_tokens (operand_of operand.now))) }
    ensures kept { OnErr result (take (length bytes.old.items) bytes.new.items ≡ bytes.old.items) }
{
    match operand {
        Operand::Dot => bytes.extend_from_slice(b"."),
        Operand::Fields(names) => print_chain(names.as_slice(), bytes),
        Operand::Variable { name, fields } => {
            print_variable(name.as_slice(), bytes)?;
            print_chain(fields.as_slice(), bytes)
        }
        Operand::Bool(truth) => add_text(&Val::Bool(*truth), bytes),
        Operand::Number(number) => add_text(&Val::Num(*number), bytes),
        Operand::Text(text) => add_quote(text.as_slice(), bytes),
        Operand::Nil => bytes.extend_from_slice(b"nil"),
        Operand::Function(func) => bytes.extend_from_slice(func.name().as_bytes()),
        Operand::Group { commands, fields } => {
            bytes.extend_from_slice(b"(")?;
            print_commands(commands.as_slice(), bytes)?;
            bytes.extend_from_slice(b")")?;
            print_chain(fields.as_slice(), bytes)
        }
    }
}

/// Adds the names of fields, each with its dot.
fn print_chain(names: &[Bytes], bytes: &mut Vec<u8>) -> Result<(), AllocError>
    ensures printed { OnOk result (bytes.new.items ≡ bytes.old.items ++ bytes_of (chain_tokens names.now)) }
    ensures kept { OnErr result (take (length bytes.old.items) bytes.new.items ≡ bytes.old.items) }
{
    for name in names {
        bytes.extend_from_slice(b".")?;
        bytes.extend_from_slice(name.as_slice())?;
    }
    Ok(())
}
