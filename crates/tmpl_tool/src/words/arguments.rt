//! The command line, by clap's builder.
ghost use Rattle.std.specs.Prelude.{◌≡◌, codes, false, pos, IfOk};
ghost use Rattle.clap.specs.Words.{app_of, rule_of};
ghost use Rattle.clap.specs.declared.builder.ValueParser.TheVariants as vp;
ghost use Rattle.tmpl_tool.specs.Words.{file_rule, option_rule, parsed_rule, print_rule, tool_app};
ghost use Rattle.tmpl_tool.specs.computed.Words.{first_options};

use crate::limits::{MOST_DEPTH, MOST_STEPS};
use clap::{Arg, ArgAction, Command, value_parser};
use std::alloc::{AllocError, Global};

/// An option of one value.
fn option_arg<'a>(alloc: Global, id: &'a str) -> Arg<'a>
    ensures rule { rule_of result ≡ option_rule id.entry.now }
    ensures local { result.global ≡ false }
{
    Arg::new(alloc, id).long(id).action(ArgAction::Set)
}

/// The option `--missingkey`.
fn mode_arg<'a>(alloc: Global, modes: &'a [&'a str]) -> Arg<'a>
    ensures rule { rule_of result ≡ parsed_rule (codes "missingkey") (vp.Names modes.entry) }
    ensures local { result.global ≡ false }
{
    option_arg(alloc, "missingkey").value_parser(modes)
}

/// The option `--depth`.
fn depth_arg<'a>(alloc: Global) -> Arg<'a>
    ensures rule { rule_of result ≡ parsed_rule (codes "depth") (vp.Signed (pos 1) (pos 100000)) }
    ensures local { result.global ≡ false }
{
    option_arg(alloc, "depth").value_parser(value_parser!(u32).range(1..=MOST_DEPTH as i64))
}

/// The option `--steps`.
fn steps_arg<'a>(alloc: Global) -> Arg<'a>
    ensures rule { rule_of result ≡ parsed_rule (codes "steps") (vp.Unsigned 1 4611686018427387904) }
    ensures local { result.global ≡ false }
{
    option_arg(alloc, "steps").value_parser(value_parser!(u64).range(1..=MOST_STEPS as i64))
}

/// The option `--print`, which takes no value.
fn print_arg<'a>(alloc: Global) -> Arg<'a>
    ensures rule { rule_of result ≡ print_rule }
    ensures local { result.global ≡ false }
{
    Arg::new(alloc, "print")
        .long("print")
        .action(ArgAction::SetTrue)
}

/// The template files.
fn file_arg<'a>(alloc: Global) -> Arg<'a>
    ensures rule { rule_of result ≡ file_rule }
    ensures local { result.global ≡ false }
{
    Arg::new(alloc, "file").required(true).num_args(1..)
}

/// The command with its first three options.
fn first_part<'a>(alloc: Global, modes: &'a [&'a str]) -> Result<Command<'a>, AllocError>
    ensures { IfOk result (λ c. app_of c ≡ first_options modes.entry) }
{
    Command::new(alloc, "tmpl")
        .disable_help_flag(true)
        .arg(option_arg(alloc, "data"))?
        .arg(mode_arg(alloc, modes))?
        .arg(option_arg(alloc, "name"))
}

/// The command line of the program: five options of one value each, one of none, and at least one file.
pub(crate) fn command<'a>(alloc: Global, modes: &'a [&'a str]) -> Result<Command<'a>, AllocError>
    ensures { IfOk result (λ c. app_of c ≡ tool_app modes.entry) }
{
    first_part(alloc, modes)?
        .arg(depth_arg(alloc))?
        .arg(steps_arg(alloc))?
        .arg(print_arg(alloc))?
        .arg(file_arg(alloc))
}
