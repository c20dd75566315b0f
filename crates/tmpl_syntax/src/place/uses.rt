//! Whether the names that an action uses are known.
ghost use Rattle.std.specs.Prelude.{◌≡◌};
ghost use Rattle.tmpl_grammar.specs.View.{action_of, binding_of, header_of, pipeline_of};
ghost use Rattle.tmpl_grammar.specs.View.{commands_in, operand_of, operands_in};
ghost use Rattle.tmpl_syntax.specs.computed.View.{known_names};
ghost use Rattle.tmpl_syntax.specs.Place.Role as role;
ghost use Rattle.tmpl_syntax.specs.Place.Body as body;
ghost use Rattle.tmpl_syntax.specs.computed.Frames.{knows};

use crate::place::names::KnownNames;
use tmpl_grammar::{Action, Binding, Command, Header, Operand, Pipeline};

/// Whether each name that an action uses or assigns is known.
pub(super) fn knows_its_names(action: &Action, names: &KnownNames<'_>) -> bool
    ensures { result ≡ knows (known_names names.now) (body.names_in (role.act_of (action_of action.now))).uses }
{
    match action {
        Action::Pipeline(header) | Action::Open(_, header) | Action::ElseBranch(_, header) => {
            knows_header(names, header)
        }
        Action::Template(_, Some(pipeline)) | Action::Block(_, pipeline) => {
            knows_pipeline(names, pipeline)
        }
        _ => true,
    }
}

/// Whether each name that a header uses or assigns is known.
fn knows_header(names: &KnownNames<'_>, header: &Header) -> bool
    ensures { result ≡ knows (known_names names.now) (role.names_of (header_of header.now)).uses }
{
    knows_assigned(names, &header.binding) && knows_pipeline(names, &header.pipeline)
}

/// Whether the variable that is assigned to is known, if one is.
fn knows_assigned(names: &KnownNames<'_>, binding: &Binding) -> bool
    ensures { result ≡ knows (known_names names.now) (role.assigned_by (binding_of binding.now)) }
{
    match binding {
        Binding::Assign(name) => knows_variable(names, name.as_slice()),
        _ => true,
    }
}

/// Whether each name that a pipeline uses is known.
fn knows_pipeline(names: &KnownNames<'_>, pipeline: &Pipeline) -> bool
    ensures { result ≡ knows (known_names names.now) (role.used_by (pipeline_of pipeline.now)) }
{
    knows_commands(names, pipeline.commands.as_slice())
}

/// Whether each name that commands use is known.
#[cycle(knows)]
fn knows_commands(names: &KnownNames<'_>, commands: &[Command]) -> bool
    ensures { result ≡ knows (known_names names.now) (role.used_by (commands_in commands.now)) }
{
    for command in commands {
        if !knows_operands(names, command.operands.as_slice()) {
            return false;
        }
    }
    true
}

/// Whether each name that operands use is known.
#[cycle(knows)]
fn knows_operands(names: &KnownNames<'_>, operands: &[Operand]) -> bool
    ensures { result ≡ knows (known_names names.now) (role.used_by_operands (operands_in operands.now)) }
{
    for operand in operands {
        if !knows_operand(names, operand) {
            return false;
        }
    }
    true
}

/// Whether each name that an operand uses is known.
#[cycle(knows)]
#[tactic(auto, using(tmpl_grammar::proofs::ViewLemmas::group_seen))]
fn knows_operand(names: &KnownNames<'_>, operand: &Operand) -> bool
    ensures { result ≡ knows (known_names names.now) (role.used_by_operand (operand_of operand.now)) }
{
    match operand {
        Operand::Variable { name, .. } => knows_variable(names, name.as_slice()),
        Operand::Group { commands, .. } => knows_commands(names, commands.as_slice()),
        _ => true,
    }
}

/// Whether a variable is known: `$` alone always is.
fn knows_variable(names: &KnownNames<'_>, name: &[u8]) -> bool
    ensures { result ≡ knows (known_names names.now) (role.names_of_name name.now) }
{
    name.is_empty() || names.knows(name)
}
