//! What the arguments ask for.

use clap::{Arg, ArgAction, ArgMatches, Command};
use std::alloc::{AllocError, Global};
use tmpl_meaning::MissingKey;
use tmpl_problems::Format;
use tmpl_report::Question;

/// The words of `--format`.
static FORMATS: [&str; 3] = ["text", "json", "sarif"];

/// The words of `--missingkey`.
static MODES: [&str; 4] = ["default", "invalid", "zero", "error"];

/// What the arguments ask for.
#[derive(Drop)]
pub(crate) struct Request<'a> {
    pub(crate) data_file: Option<&'a str>,
    pub(crate) schema_file: Option<&'a str>,
    pub(crate) question: Question<'a>,
    pub(crate) format: Format,
    /// Whether warnings count as errors for the exit status.
    pub(crate) is_strict: bool,
    /// Whether a schema of the files is asked for.
    pub(crate) is_to_infer: bool,
    /// The paths of maps whose keys are data.
    pub(crate) maps: Vec<&'a str>,
    pub(crate) files: Vec<&'a str>,
    /// Template files in which nothing is warned of; they come after the others.
    pub(crate) libraries: Vec<&'a str>,
}

/// The command line.
pub(crate) fn command<'a>(alloc: Global) -> Result<Command<'a>, AllocError> {
    let unlike_infer: [&'a str; 9] = [
        "data",
        "name",
        "schema",
        "missingkey",
        "stop",
        "library",
        "writes",
        "strict",
        "no-counterexamples",
    ];
    Command::new(alloc, "tmpl-check")
        .version("0")
        .about("Reports every error in template files: where it is, and what to write instead.")
        .after_help(
            "Exit status: 0 no errors, 1 errors, 2 arguments refused, 3 a file cannot be read, 6 a write failed, 7 out of memory.",
        )
        .arg(option_arg(alloc, "data", "FILE").help(
            "Check a JSON file too, and that the template renders over it, or that it conforms to the schema",
        ))?
        .arg(option_arg(alloc, "name", "NAME").help(
            "The template to render: report whether it is there, and what nothing calls",
        ))?
        .arg(option_arg(alloc, "schema", "FILE").help(
            "Report where the template may fail over data of this JSON Schema",
        ))?
        .arg(
            option_arg(alloc, "missingkey", "MODE")
                .value_parser(MODES.as_slice())
                .help(
                    "Check for this mode of tmpl: with --schema alone, not for each; without, in the run over --data",
                ),
        )?
        .arg(
            option_arg(alloc, "stop", "NAME")
                .action(ArgAction::Append)
                .help(
                    "With --schema: a template that may be missing, since its call is meant to fail",
                ),
        )?
        .arg(flag_arg(alloc, "no-counterexamples").help(
            "With --schema: don't search for counterexamples",
        ))?
        .arg(option_arg(alloc, "writes", "FORMAT").help(
            "With --data or --schema: report where the output is not of this format: json, jsonl, yaml, env, nginx, csv:COLUMNS, lines:PATTERN",
        ))?
        .arg(
            option_arg(alloc, "library", "FILE")
                .action(ArgAction::Append)
                .help("A template file after the others, in which only errors are reported"),
        )?
        .arg(flag_arg(alloc, "strict").help("Make the exit status 1 if there are warnings, too"))?
        .arg(
            option_arg(alloc, "format", "FORMAT")
                .value_parser(FORMATS.as_slice())
                .help("The form of the output: a line for each finding, JSON, or SARIF 2.1.0"),
        )?
        .arg(
            flag_arg(alloc, "infer")
                .conflicts_with_all(unlike_infer.as_slice())?
                .help("Print a JSON Schema to which these files of data conform"),
        )?
        .arg(
            option_arg(alloc, "map", "PATH")
                .action(ArgAction::Append)
                .requires_arg("infer")?
                .help("With --infer: the path of a map whose keys are data, as .metadata.labels"),
        )?
        .arg(
            Arg::new(alloc, "file")
                .value_name("FILE")
                .required(true)
                .num_args(1..)
                .help("The template files, in the order in which tmpl takes them"),
        )
}

/// An option of one value.
fn option_arg<'a>(alloc: Global, id: &'a str, value: &'a str) -> Arg<'a> {
    Arg::new(alloc, id)
        .long(id)
        .value_name(value)
        .action(ArgAction::Set)
}

/// An option without a value.
fn flag_arg<'a>(alloc: Global, id: &'a str) -> Arg<'a> {
    Arg::new(alloc, id).long(id).action(ArgAction::SetTrue)
}

/// The values of an option or an argument that may come more than once.
fn values_of<'a>(
    alloc: Global,
    matches: &ArgMatches<'a>,
    id: &str,
) -> Result<Vec<&'a str>, AllocError> {
    match matches.get_strs(id) {
        Some(given) => Ok(given.iter().copied().collect(alloc)?),
        None => Ok(Vec::new(alloc)),
    }
}

/// What matches ask for.
pub(crate) fn request_of<'a>(
    alloc: Global,
    matches: &ArgMatches<'a>,
) -> Result<Request<'a>, AllocError> {
    let files = values_of(alloc, matches, "file")?;
    Ok(Request {
        data_file: matches.get_str("data"),
        schema_file: matches.get_str("schema"),
        question: Question {
            first: files.first().copied(),
            name: matches.get_str("name"),
            mode: mode_named(matches.get_str("missingkey")),
            stops: values_of(alloc, matches, "stop")?,
            is_searched: !matches.get_flag("no-counterexamples"),
            writes: matches.get_str("writes"),
        },
        format: format_named(matches.get_str("format")),
        is_strict: matches.get_flag("strict"),
        is_to_infer: matches.get_flag("infer"),
        maps: values_of(alloc, matches, "map")?,
        libraries: values_of(alloc, matches, "library")?,
        files,
    })
}

/// The mode of this word; none where there is none.
fn mode_named(word: Option<&str>) -> Option<MissingKey> {
    match word {
        Some("default") => Some(MissingKey::Default),
        Some("invalid") => Some(MissingKey::Invalid),
        Some("zero") => Some(MissingKey::Zero),
        Some("error") => Some(MissingKey::Error),
        _ => None,
    }
}

/// The format of this word; lines where there is none.
fn format_named(word: Option<&str>) -> Format {
    match word {
        Some("json") => Format::Json,
        Some("sarif") => Format::Sarif,
        _ => Format::Text,
    }
}
