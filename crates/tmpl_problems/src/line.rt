//! What is found as lines, as compilers write them.
ghost use Rattle.std.specs.Prelude.{◌≡◌, ◌++◌, ◌∷◌, ◌<◌, [], IfOk, None, OnOk, false, flat_map, string_bytes, true};
ghost use Rattle.std.specs.Fmt.{digit_glyph};
ghost use Rattle.tmpl_values.specs.Quote.{letter_of, letters, spelling};
ghost use Rattle.tmpl_values.specs.Rune.{char};
ghost use Rattle.tmpl_problems.specs.Line.{is_hidden, left_words, line_of, place_in_line, reason_with, shown_char, shown_in_line, text_of};
ghost use Rattle.tmpl_problems.specs.Told.{lines_of};

use crate::Result;
use crate::finding::Finding;
use crate::problem::Problem;
use crate::reason::reason_words;
use std::alloc::Global;
use tmpl_values::digit;

/// A line for each finding, and one for the note of it.
pub(crate) fn lines(alloc: Global, findings: &[Finding<'_>]) -> Result<String>
    ensures { IfOk result (λ t. string_bytes t ≡ flat_map lines_of findings.now) }
{
    let mut out = String::new(alloc);
    for finding in findings {
        push_lines(&mut out, finding)?;
    }
    Ok(out)
}

/// Adds the line of a finding, and that of its note.
fn push_lines(out: &mut String, finding: &Finding<'_>) -> Result<()>
    ensures { OnOk result (string_bytes out.new ≡ string_bytes out.old ++ lines_of finding.now) }
{
    let file = finding.file;
    let place = (finding.line, finding.column);
    push_line(
        &mut *out,
        file,
        place,
        finding.level.word(),
        finding.text.as_str(),
    )?;
    match &finding.note {
        Some(note) => push_line(out, file, place, "note", note.as_str()),
        None => Ok(()),
    }
}

/// Adds a line, with a newline. What can not be seen in the file name and in the text, or would make another line, is
/// written by its code.
fn push_line(out: &mut String, file: &str, place: (u64, u64), level: &str, text: &str) -> Result<()>
    ensures { OnOk result (string_bytes out.new ≡ string_bytes out.old ++ line_of file.now place level.now text.now) }
{
    push_shown(out, file)?;
    push_place(out, place, level)?;
    push_shown(out, text)?;
    out.push_str("\n")
}

/// Adds what stands between the file and the text.
fn push_place(out: &mut String, place: (u64, u64), level: &str) -> Result<()>
    ensures { OnOk result (string_bytes out.new ≡ string_bytes out.old ++ place_in_line place level.now) }
{
    let (line, column) = place;
    write!(out, ":{line}:{column}: {level}: ")
}

/// Adds a string, with what can't be seen or would look like another line by its code.
fn push_shown(out: &mut String, text: &str) -> Result<()>
    ensures { OnOk result (string_bytes out.new ≡ string_bytes out.old ++ shown_in_line text.now) }
{
    for c in text.chars() {
        push_char(out, c)?;
    }
    Ok(())
}

/// Adds a character, or its code.
fn push_char(out: &mut String, c: char) -> Result<()>
    ensures { OnOk result (string_bytes out.new ≡ string_bytes out.old ++ shown_char c) }
{
    if !is_hidden(c) {
        return out.push(c);
    }
    match c {
        '\u{7}' => out.push_str("\\a"),
        '\u{8}' => out.push_str("\\b"),
        '\t' => out.push_str("\\t"),
        '\n' => out.push_str("\\n"),
        '\u{b}' => out.push_str("\\v"),
        '\u{c}' => out.push_str("\\f"),
        '\r' => out.push_str("\\r"),
        _ => push_code(out, c as u32),
    }
}

/// Whether a character is written by its code: a control character, one that ends a line, or one that turns the direction of text.
fn is_hidden(c: char) -> bool
    ensures { result ≡ is_hidden c }
{
    matches!(c, '\0'..='\u{1f}' | '\u{7f}'..='\u{9f}' | '\u{2028}'..='\u{202e}' | '\u{2066}'..='\u{2069}')
}

/// Adds the code of a character that has no letter of its own.
#[tactic(auto, unfolding(tmpl_values::specs::Quote::hexes))]
fn push_code(out: &mut String, n: u32) -> Result<()>
    requires hidden { is_hidden n ≡ true }
    requires unlettered { letter_of n letters ≡ None }
    ensures { OnOk result (string_bytes out.new ≡ string_bytes out.old ++ spelling (λ _. false) (char n)) }
{
    if n < 32 || n == 127 {
        out.push_str("\\x")?;
    } else {
        out.push_str("\\u")?;
        push_digit(out, n / 16 / 16 / 16 % 16)?;
        push_digit(out, n / 16 / 16 % 16)?;
    }
    push_digit(out, n / 16 % 16)?;
    push_digit(out, n % 16)
}

/// Adds a digit in base 16.
fn push_digit(out: &mut String, n: u32) -> Result<()>
    requires { n < 16 }
    ensures { OnOk result (string_bytes out.new ≡ string_bytes out.old ++ digit_glyph false n ∷ []) }
{
    out.push(digit(n, false) as char)
}

/// A reason, and a detail.
pub fn reason_text(alloc: Global, reason: &str, detail: &str) -> Result<String>
    ensures { IfOk result (λ t. string_bytes t ≡ reason_with reason.now detail.now) }
{
    let mut text = String::from_str(alloc, reason)?;
    if !detail.is_empty() {
        text.push_str(": ")?;
        text.push_str(detail)?;
    }
    Ok(text)
}

/// What is wrong, as a text.
pub fn problem_text(alloc: Global, problem: &Problem) -> Result<String>
    ensures { IfOk result (λ t. string_bytes t ≡ text_of problem.now) }
{
    reason_text(
        alloc,
        reason_words(problem.refused.kind),
        problem.detail.as_str(),
    )
}

/// That at least this many problems of a file are not reported.
pub fn left_text(alloc: Global, left: usize) -> Result<String>
    ensures { IfOk result (λ t. string_bytes t ≡ left_words left) }
{
    let mut text = String::new(alloc);
    write!(
        text,
        "too many errors: at least {left} more are not reported"
    )?;
    Ok(text)
}
