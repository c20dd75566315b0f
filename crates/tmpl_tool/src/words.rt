//! What clap's matches of the arguments ask for.
ghost use Rattle.std.specs.Prelude.{◌≡◌, ◌≢◌, ◌≤◌, ◌<◌, codes, option_map, map, unwrap_or, [], Some, IfOk};
ghost use Rattle.clap.specs.Words.{all_of, first_of, found_of, rows_of, kind_of};
ghost use Rattle.tmpl_tool.specs.computed.Words.{Parses};
ghost use Rattle.tmpl_tool.specs.Request.{Asks};
ghost use Rattle.tmpl_tool.specs.Words.{mode_named, number_in, words_request, wanted_in};
ghost use Rattle.tmpl_meaning.specs.View.{rules_of};
ghost use Rattle.tmpl_tool.specs.View.{request_seen};
ghost use Rattle.std.specs.String.{string_bytes};

mod arguments;
pub(crate) mod help;
pub(crate) mod request;

use crate::limits::{DEFAULT_DEPTH, DEFAULT_STEPS, MOST_DEPTH, MOST_STEPS};
use crate::words::arguments::command;
use crate::words::request::{Request, WordsFault};
use clap::error::ErrorKind;
use clap::{ArgMatches, Error};
use std::alloc::{AllocError, Global};
use tmpl_engine::{MissingKey, Options};

/// The words of `--missingkey`.
static MODES: [&str; 4] = ["default", "invalid", "zero", "error"];

/// What a word of `--missingkey` names.
fn mode_named(word: &str) -> MissingKey
    ensures { result ≡ mode_named word.now }
{
    match word {
        "invalid" => MissingKey::Invalid,
        "zero" => MissingKey::Zero,
        "error" => MissingKey::Error,
        _ => MissingKey::Default,
    }
}

/// What `--missingkey` asks for.
#[tactic(auto, using(crate::proofs::NumberLemmas::rows))]
fn mode_of(matches: &ArgMatches<'_>) -> MissingKey
    ensures { result ≡ (wanted_in (rows_of (found_of matches.now))).rules.missing_key }
{
    match matches.get_str("missingkey") {
        None => MissingKey::Default,
        Some(word) => mode_named(word),
    }
}

/// The number that a text spells, where there is one and it is in the range, or else the default.
fn number_in(text: Option<&str>, default: u64, low: u64, high: u64) -> u64
    requires { (low ≤ default) × (default ≤ high) }
    ensures value { result ≡ number_in default low high (option_map (λ s. s.now) text.entry) }
    ensures least { low ≤ result }
    ensures most { result ≤ high }
{
    match text {
        Some(text) => parsed_in(text, default, low, high),
        None => default,
    }
}

/// The number that this text spells, where it is in the range, or else the default.
fn parsed_in(text: &str, default: u64, low: u64, high: u64) -> u64
    requires { (low ≤ default) × (default ≤ high) }
    ensures value { result ≡ number_in default low high (Some text.now) }
    ensures least { low ≤ result }
    ensures most { result ≤ high }
{
    match text.parse::<u64>() {
        Ok(number) if low <= number && number <= high => number,
        _ => default,
    }
}

/// What `--depth` asks for.
#[tactic(auto, using(crate::proofs::NumberLemmas::rows))]
fn depth_of(matches: &ArgMatches<'_>) -> u32
    ensures value { result ≡ number_in 1000 1 100000 (first_of (codes "depth") (rows_of (found_of matches.now))) }
    ensures least { 1 ≤ result }
    ensures most { result ≤ 100000 }
{
    number_in(matches.get_str("depth"), DEFAULT_DEPTH, 1, MOST_DEPTH) as u32
}

/// What `--steps` asks for.
#[tactic(auto, using(crate::proofs::NumberLemmas::rows))]
fn steps_of(matches: &ArgMatches<'_>) -> u64
    ensures value { result ≡ number_in 1000000000 1 4611686018427387904
        (first_of (codes "steps") (rows_of (found_of matches.now))) }
    ensures least { 1 ≤ result }
    ensures most { result ≤ 4611686018427387904 }
{
    number_in(matches.get_str("steps"), DEFAULT_STEPS, 1, MOST_STEPS)
}

/// Whether `--print` is given.
#[tactic(auto, using(crate::proofs::NumberLemmas::rows))]
fn print_of(matches: &ArgMatches<'_>) -> bool
    ensures { result ≡ (wanted_in (rows_of (found_of matches.now))).print }
{
    match matches.get_str("print") {
        Some(text) => text == "true",
        None => false,
    }
}

/// The names, in a list of its own.
fn copied<'a>(alloc: Global, given: &[&'a str]) -> Result<Vec<&'a str>, AllocError>
    ensures { IfOk result (λ files. files.items ≡ given.now) }
{
    given.iter().copied().collect(alloc)
}

/// The template files.
fn files_of<'a>(alloc: Global, matches: &ArgMatches<'a>) -> Result<Vec<&'a str>, AllocError>
    ensures { IfOk result (λ files. map (λ s. s.now) files.items
        ≡ unwrap_or (all_of (codes "file") (rows_of (found_of matches.now))) []) }
{
    match matches.get_strs("file") {
        Some(given) => copied(alloc, given),
        None => Ok(Vec::new(alloc)),
    }
}

/// What matches ask for.
fn request_in<'a>(alloc: Global, matches: &ArgMatches<'a>) -> Result<Request<'a>, AllocError>
    ensures { IfOk result (λ request. request_seen request ≡ wanted_in (rows_of (found_of matches.now))) }
{
    Ok(Request {
        data_file: matches.get_str("data"),
        name: matches.get_str("name"),
        options: options_in(matches),
        print: print_of(matches),
        files: files_of(alloc, matches)?,
    })
}

/// How the template is to be run.
fn options_in(matches: &ArgMatches<'_>) -> Options
    ensures { rules_of result ≡ (wanted_in (rows_of (found_of matches.now))).rules }
{
    Options {
        missing_key: mode_of(matches),
        depth: depth_of(matches),
        steps: steps_of(matches),
    }
}

/// Why clap did not take the words.
fn refusal(error: &Error) -> WordsFault
    ensures { result ≡ WordsFault.NotAccepted → kind_of error.now ≢ ErrorKind.OutOfMemory }
{
    if error.kind() == ErrorKind::OutOfMemory {
        WordsFault::OutOfMemory
    } else {
        WordsFault::NotAccepted
    }
}

/// Clap's matches of the words.
fn parse<'a>(alloc: Global, words: &'a [String]) -> Result<ArgMatches<'a>, WordsFault>
    ensures { Parses (map (λ word. string_bytes word) words.entry.now) result }
{
    match command(alloc, MODES.as_slice())?.try_get_matches_from(words) {
        Ok(matches) => Ok(matches),
        Err(error) => Err(refusal(&error)),
    }
}

/// What the arguments ask for. The first argument is the program's name.
pub fn request_of<'a>(alloc: Global, words: &'a [String]) -> Result<Request<'a>, WordsFault>
    ensures { Asks (words_request (map (λ word. string_bytes word) words.entry.now)) result }
{
    let matches = parse(alloc, words)?;
    Ok(request_in(alloc, &matches)?)
}
