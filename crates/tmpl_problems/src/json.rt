//! What is found as JSON.
ghost use Rattle.std.specs.Prelude.{◌≡◌, ◌==◌, [], ◌++◌, IfOk, codes, if◌then◌else◌, map, string_bytes};
ghost use Rattle.std.specs.Option.{option_map_or};
ghost use Rattle.serde_json.specs.Written.{compact_text};
ghost use Rattle.serde_json.specs.Data.{string};
ghost use Rattle.tmpl_hints.specs.Sentence.{Adds};
ghost use Rattle.tmpl_problems.specs.Json.{item_of, json_of, lines_between};

use crate::Result;
use crate::finding::Finding;
use serde_json::Value;
use std::alloc::Global;
use tmpl_hints::Sentence;

/// An object with a list of what is found.
pub(crate) fn document(alloc: Global, findings: &[Finding<'_>]) -> Result<String>
    ensures { IfOk result (λ t. string_bytes t ≡ json_of findings.now) }
{
    let said = Sentence::new(alloc).say("{\"problems\":[");
    say_items(alloc, said, findings)?.say("\n]}\n").finish()
}

/// Says what is found, each as an object on a line of its own.
fn say_items(alloc: Global, said: Sentence, findings: &[Finding<'_>]) -> Result<Sentence>
    ensures { IfOk result (λ s. Adds said s (lines_between (map (λ f. compact_text (item_of f)) findings.now))) }
{
    let mut said = said;
    for (index, finding) in findings.iter().enumerate() {
        said = say_item(alloc, said.say(line_before(index)), finding)?;
    }
    Ok(said)
}

/// What stands before the item of a list with this number, on a line of its own.
pub(crate) fn line_before(index: usize) -> &'static str
    ensures { result.now ≡ (if index == 0 then codes "\n" else codes ",\n") }
{
    if index == 0 { "\n" } else { ",\n" }
}

/// Says what is found as an object.
fn say_item(alloc: Global, said: Sentence, finding: &Finding<'_>) -> Result<Sentence>
    ensures { IfOk result (λ s. Adds said s (compact_text (item_of finding.now))) }
{
    let said = say_quoted(alloc, said.say("{\"file\":"), finding.file)?
        .say(",\"line\":")
        .count(finding.line)
        .say(",\"column\":")
        .count(finding.column)
        .say(",\"level\":\"")
        .say(finding.level.word())
        .say("\",\"rule\":");
    let said = say_quoted(alloc, said, finding.rule.id)?.say(",\"text\":");
    let said = say_quoted(alloc, said, finding.text.as_str())?;
    Ok(say_note(alloc, said, finding)?.say("}"))
}

/// Writes the note, if there is one, as one more member.
fn say_note(alloc: Global, said: Sentence, finding: &Finding<'_>) -> Result<Sentence>
    ensures { IfOk result (λ s. Adds said s (option_map_or (λ note. codes ",\"note\":" ++ compact_text (string note))
        finding.now.note [])) }
{
    match &finding.note {
        Some(note) => say_quoted(alloc, said.say(",\"note\":"), note.as_str()),
        None => Ok(said),
    }
}

/// Says a text as JSON.
pub(crate) fn say_quoted(alloc: Global, said: Sentence, text: &str) -> Result<Sentence>
    ensures { IfOk result (λ s. Adds said s (compact_text (string text.now))) }
{
    let value = Value::String(String::from_str(alloc, text)?);
    Ok(said.say(value.to_string(alloc)?.as_str()))
}
