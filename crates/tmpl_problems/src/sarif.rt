//! What is found as SARIF 2.1.0, as code hosts take it.
ghost use Rattle.std.specs.Prelude.{◌≡◌, nat_eq, [], ◌∷◌, ◌++◌, IfOk, codes, if◌then◌else◌, map, string_bytes};
ghost use Rattle.std.specs.List.{starts_with};
ghost use Rattle.std.specs.Option.{option_map_or};
ghost use Rattle.serde_json.specs.Written.{compact_text};
ghost use Rattle.tmpl_hints.specs.Sentence.{Adds};
ghost use Rattle.tmpl_problems.specs.Json.{lines_between};
ghost use Rattle.tmpl_problems.specs.Sarif.{descriptor_of, locations_of, log_of, message_of, place_of, result_of, uri_of};

use crate::Result;
use crate::finding::Finding;
use crate::json::{line_before, say_quoted};
use crate::rule::{Rule, all_rules};
use percent_encoding::{AsciiSet, NON_ALPHANUMERIC, ascii_set, utf8_percent_encode};
use std::alloc::Global;
use tmpl_hints::Sentence;

/// What stands before the rules of the one tool.
const BEGINNING: &str =
    "{\"$schema\":\"https://json.schemastore.org/sarif-2.1.0.json\",\"version\":\"2.1.0\",\"runs\":[{\"tool\":{\"driver\":{\"name\":\"tmpl-check\",\"rules\":[";

/// What stands between them and the results.
const MIDDLE: &str = "\n]}},\"columnKind\":\"unicodeCodePoints\",\"results\":[";

/// What is escaped in the path of a URI: each byte but letters, digits, `/` and those that no part of a URI reserves.
const ESCAPED_IN_PATHS: AsciiSet = ascii_set!(
    NON_ALPHANUMERIC
        .remove(b'/')
        .remove(b'-')
        .remove(b'.')
        .remove(b'_')
        .remove(b'~')
);

/// A log of one run.
pub(crate) fn document(alloc: Global, findings: &[Finding<'_>]) -> Result<String>
    ensures { IfOk result (λ t. string_bytes t ≡ log_of findings.now) }
{
    let said = say_rules(alloc, Sentence::new(alloc).say(BEGINNING), &all_rules())?;
    say_results(alloc, said.say(MIDDLE), findings)?
        .say("\n]}]}\n")
        .finish()
}

/// Says rules, each on a line of its own.
fn say_rules(alloc: Global, said: Sentence, rules: &[Rule]) -> Result<Sentence>
    ensures { IfOk result (λ s. Adds said s
        (lines_between (map (λ rule. compact_text (descriptor_of (rule.id.now, rule.text.now))) rules.now))) }
{
    let mut said = said;
    for (index, rule) in rules.iter().enumerate() {
        said = say_rule(alloc, said.say(line_before(index)), rule)?;
    }
    Ok(said)
}

/// Says a rule.
fn say_rule(alloc: Global, said: Sentence, rule: &Rule) -> Result<Sentence>
    ensures { IfOk result (λ s. Adds said s (compact_text (descriptor_of (rule.now.id.now, rule.now.text.now)))) }
{
    let said = say_quoted(alloc, said.say("{\"id\":"), rule.id)?;
    Ok(say_message(alloc, said.say(",\"shortDescription\":"), rule.text)?.say("}"))
}

/// Says what is found, each as a result on a line of its own.
fn say_results(alloc: Global, said: Sentence, findings: &[Finding<'_>]) -> Result<Sentence>
    ensures { IfOk result (λ s. Adds said s (lines_between (map (λ f. compact_text (result_of f)) findings.now))) }
{
    let mut said = said;
    for (index, finding) in findings.iter().enumerate() {
        said = say_result(alloc, said.say(line_before(index)), finding)?;
    }
    Ok(said)
}

/// Says what is found as a result.
fn say_result(alloc: Global, said: Sentence, finding: &Finding<'_>) -> Result<Sentence>
    ensures { IfOk result (λ s. Adds said s (compact_text (result_of finding.now))) }
{
    let said = say_quoted(alloc, said.say("{\"ruleId\":"), finding.rule.id)?
        .say(",\"level\":\"")
        .say(finding.level.word())
        .say("\",\"message\":");
    let said = say_message(alloc, said, finding.text.as_str())?.say(",\"locations\":");
    let said = say_here(alloc, said, finding)?;
    Ok(say_note(alloc, said, finding)?.say("}"))
}

/// Says a text as SARIF has it.
fn say_message(alloc: Global, said: Sentence, text: &str) -> Result<Sentence>
    ensures { IfOk result (λ s. Adds said s (compact_text (message_of text.now))) }
{
    Ok(say_quoted(alloc, said.say("{\"text\":"), text)?.say("}"))
}

/// Writes the note, if there is one, as one more property.
fn say_note(alloc: Global, said: Sentence, finding: &Finding<'_>) -> Result<Sentence>
    ensures { IfOk result (λ s. Adds said s (option_map_or (λ note. codes ",\"relatedLocations\":"
        ++ compact_text (locations_of finding.now ((codes "message", message_of note) ∷ []))) finding.now.note [])) }
{
    match &finding.note {
        Some(note) => say_related(
            alloc,
            said.say(",\"relatedLocations\":"),
            finding,
            note.as_str(),
        ),
        None => Ok(said),
    }
}

/// Says where it is, as the one location of a list.
fn say_here(alloc: Global, said: Sentence, finding: &Finding<'_>) -> Result<Sentence>
    ensures { IfOk result (λ s. Adds said s (compact_text (locations_of finding.now []))) }
{
    let said = say_place(alloc, said.say("[{\"physicalLocation\":"), finding)?;
    Ok(said.say("}]"))
}

/// The same, with a text.
fn say_related(alloc: Global, said: Sentence, finding: &Finding<'_>, text: &str) -> Result<Sentence>
    ensures { IfOk result (λ s. Adds said s
        (compact_text (locations_of finding.now ((codes "message", message_of text.now) ∷ [])))) }
{
    let said = say_message(alloc, said.say("[{\"message\":"), text)?.say(",\"physicalLocation\":");
    Ok(say_place(alloc, said, finding)?.say("}]"))
}

/// Says where it is.
fn say_place(alloc: Global, said: Sentence, finding: &Finding<'_>) -> Result<Sentence>
    ensures { IfOk result (λ s. Adds said s (compact_text (place_of finding.now))) }
{
    let uri = uri_of(alloc, finding.file)?;
    let said = say_quoted(
        alloc,
        said.say("{\"artifactLocation\":{\"uri\":"),
        uri.as_str(),
    )?
    .say("},\"region\":{\"startLine\":")
    .count(finding.line)
    .say(",\"startColumn\":")
    .count(finding.column)
    .say("}}");
    Ok(said)
}

/// The URI of a file: a relative one, of a path from the root on one of the scheme `file`.
fn uri_of(alloc: Global, file: &str) -> Result<String>
    ensures { IfOk result (λ t. string_bytes t ≡ uri_of file.now) }
{
    let mut uri = String::from_str(alloc, scheme_of(file))?;
    utf8_percent_encode(file, ESCAPED_IN_PATHS).append_to(&mut uri)?;
    Ok(uri)
}

/// What stands before the path of a file in its URI.
fn scheme_of(file: &str) -> &'static str
    ensures { result.now ≡ (if starts_with nat_eq file.now (codes "/") then codes "file://" else []) }
{
    if file.as_bytes().starts_with(b"/") {
        "file://"
    } else {
        ""
    }
}
