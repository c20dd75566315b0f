//! What is found in template files and in data.
ghost use Rattle.std.specs.Prelude.{◌≡◌, List, [], ◌∷◌, ◌++◌, ◌==◌, false, true, IfOk, Ok, Err, OnOk, Some, if◌then◌else◌};
ghost use Rattle.std.specs.Prelude.{length, map, string_bytes};
ghost use Rattle.std.specs.List.{list_any};
ghost use Rattle.tmpl_values.specs.Json.{data_of, Flaw};
ghost use Rattle.tmpl_values.specs.Value.{Value};
ghost use Rattle.tmpl_syntax.specs.View.{set_view};
ghost use Rattle.tmpl_problems.specs.Errors.{AreOfData, AreOfFile, AreOfFiles, AreOfReason, IsOfReason};
ghost use Rattle.tmpl_problems.specs.Errors.{error_of, errors_in, errors_of, left_in};
ghost use Rattle.tmpl_problems.specs.Finding.{Finding, has_error};
ghost use Rattle.tmpl_problems.specs.Told.{told};
ghost use Rattle.tmpl_problems.specs.computed.Added.{AddsOfReason, HasMore, is_same, warning_of};

use crate::check::check_file;
use crate::data_check::{DataProblem, DataReason, check_data};
use crate::finding::{Finding, Level};
use crate::line::{left_text, problem_text, reason_text};
use crate::problem::{MOST_PROBLEMS, Problem, Problems};
use crate::rule::{
    ALWAYS_FAILS, KEY_GIVEN_TWICE, NEVER_CALLED, NO_SUCH_TEMPLATE, Rule, SUSPICIOUS,
    TOO_MANY_ERRORS, data_rule_of, rule_of,
};
use crate::source::Source;
use crate::survey::{Named, Survey, Warning, survey_file};
use crate::{Result, json, line, sarif};
use indexmap::IndexSet;
use std::alloc::{AllocError, Global};
use std::marker::Model;
use tmpl_hints::Sentence;
use tmpl_syntax::{NameHash, Set, base_name};

/// How the name of a template begins that is not there so that its call ends the run.
const STOP: &[u8] = b"stop: ";

/// How findings are printed.
#[derive(Clone, Copy)]
pub enum Format {
    /// A line for each finding and each note, as compilers write them.
    Text,
    /// An object of JSON.
    Json,
    /// A log of SARIF 2.1.0.
    Sarif,
}

/// What is found, file by file. Contracts see the list of it, in the order in which it is printed.
#[derive(Drop)]
pub struct Findings<'a> {
    /// What gives it memory.
    pub alloc: Global,
    items: Vec<Finding<'a>>,
}

impl<'a> Model for Findings<'a> {
    ghost use Rattle.std.specs.Prelude.{List};
    ghost use Rattle.tmpl_problems.specs.Finding.{Finding};

    ghost Value = { List Finding };

    ghost view = { λ f. f.items.items };
}

/// The templates of all files, by their names.
#[derive(Drop)]
struct Templates<'f> {
    defined: IndexSet<&'f [u8], NameHash>,
    called: IndexSet<&'f [u8], NameHash>,
}

impl<'a> Findings<'a> {
    /// None yet.
    pub fn new(alloc: Global) -> Findings<'a>
        ensures { result ≡ [] }
    {
        Findings {
            alloc,
            items: Vec::new(alloc),
        }
    }

    /// Whether there are errors among them.
    pub fn has_errors(&self) -> bool
        ensures { result ≡ has_error self.now }
    {
        self.items.iter().any(|finding| finding.is_error())
    }

    /// Whether there are none, and no warnings either.
    pub fn is_empty(&self) -> bool
        ensures { result ≡ (length self.now == 0) }
    {
        self.items.is_empty()
    }

    /// The text of the report, as it is printed.
    ///
    /// # Errors
    ///
    /// Where memory ran out.
    pub fn text(&self, alloc: Global, format: Format) -> Result<String, AllocError>
        ensures { IfOk result (λ t. string_bytes t ≡ told format self.now) }
    {
        let findings = self.items.as_slice();
        match format {
            Format::Text => line::lines(alloc, findings),
            Format::Json => json::document(alloc, findings),
            Format::Sarif => sarif::document(alloc, findings),
        }
    }

    /// Adds what is found.
    ///
    /// # Errors
    ///
    /// Where memory ran out.
    pub fn add(&mut self, finding: Finding<'a>) -> Result<()>
        ensures { OnOk result (self.new ≡ self.old ++ finding.entry ∷ []) }
    {
        self.items.push(finding)?;
        Ok(())
    }

    /// Adds what is found, unless the same was found before.
    ///
    /// # Errors
    ///
    /// Where memory ran out.
    pub fn add_once(&mut self, finding: Finding<'a>) -> Result<()>
        ensures added { OnOk result (self.new ≡ (if list_any (λ other. is_same other finding.entry) self.old
            then self.old else self.old ++ finding.entry ∷ [])) }
        ensures more { OnOk result (HasMore self.old self.new) }
    {
        if has_same(self.items.as_slice(), &finding) {
            return Ok(());
        }
        self.add(finding)?;
        Ok(())
    }

    /// Adds what is wrong in a file: first what is refused.
    ///
    /// # Errors
    ///
    /// Where memory ran out; some of it may then have been added.
    pub fn add_problems(&mut self, file: &'a str, problems: &Problems) -> Result<()>
        ensures { OnOk result (self.new ≡ self.old ++ errors_of file.now problems.now) }
    {
        self.add_errors(file, problems.refused.as_slice())?;
        self.add_errors(file, problems.beyond.as_slice())?;
        self.add_left(file, problems.left)
    }

    /// Adds how many errors of a file are left out, where some are.
    fn add_left(&mut self, file: &'a str, left: usize) -> Result<()>
        ensures { OnOk result (self.new ≡ self.old ++ left_in file.now left) }
    {
        if left == 0 {
            return Ok(());
        }
        let text = left_text(self.alloc, left)?;
        self.add(Finding::error(file, (1, 1), TOO_MANY_ERRORS, text))?;
        Ok(())
    }

    /// Adds errors of a file.
    fn add_errors(&mut self, file: &'a str, problems: &[Problem]) -> Result<()>
        ensures { OnOk result (self.new ≡ self.old ++ map (error_of file.now) problems.now) }
    {
        for problem in problems {
            let refused = &problem.refused;
            let place = (refused.line, refused.column);
            let text = problem_text(self.alloc, problem)?;
            self.add(Finding::error(file, place, rule_of(refused.kind), text))?;
        }
        Ok(())
    }

    /// Adds a warning.
    ///
    /// # Errors
    ///
    /// Where memory ran out.
    pub fn warn(&mut self, file: &'a str, place: (u64, u64), rule: Rule, text: String) -> Result<()>
        ensures added { OnOk result
            (self.new ≡ self.old ++ warning_of file.now place rule.id.now (string_bytes text) ∷ []) }
        ensures errors { OnOk result (errors_in self.new ≡ errors_in self.old) }
        ensures has_error { OnOk result (has_error self.new ≡ has_error self.old) }
    {
        self.add(Finding {
            file,
            level: Level::Warning,
            line: place.0,
            column: place.1,
            rule,
            text,
            note: None,
        })
    }

    /// Adds warnings of a file by a rule: the first, and how many more there are.
    fn add_warnings(&mut self, file: &'a str, rule: Rule, warnings: Vec<Warning>) -> Result<()>
        ensures { OnOk result (errors_in self.new ≡ errors_in self.old) }
    {
        let mut warnings = warnings;
        let left = warnings.len().saturating_sub(MOST_PROBLEMS);
        warnings.truncate(MOST_PROBLEMS);
        for warning in warnings.into_iter() {
            self.warn(file, (warning.line, warning.column), rule, warning.text)?;
        }
        self.warn_of_more(file, rule, left)
    }

    /// Adds how many warnings of a file by a rule are left out, where some are.
    fn warn_of_more(&mut self, file: &'a str, rule: Rule, left: usize) -> Result<()>
        ensures { OnOk result (errors_in self.new ≡ errors_in self.old) }
    {
        if left == 0 {
            return Ok(());
        }
        let text = Sentence::new(self.alloc)
            .say("such warnings that are left out: ")
            .count(left as u64)
            .finish()?;
        self.warn(file, (1, 1), rule, text)
    }

    /// The message about a template of this name.
    fn about(&self, before: &str, name: &[u8], after: &str) -> Result<String> {
        Sentence::new(self.alloc)
            .say(before)
            .quote(name)
            .say(after)
            .finish()
    }

    /// Adds the calls in a file of templates that no file has.
    fn add_calls(
        &mut self,
        file: &'a str,
        called: &[Named<'_>],
        templates: &Templates<'_>,
    ) -> Result<()>
        ensures { OnOk result (errors_in self.new ≡ errors_in self.old) }
    {
        let mut left: usize = 0;
        let mut found: usize = 0;
        for call in called {
            if templates.defined.contains(call.name) || call.name.starts_with(STOP) {
                continue;
            }
            if found == MOST_PROBLEMS {
                left = left.saturating_add(1);
                continue;
            }
            found = found.saturating_add(1);
            let text = self.about("no file defines the template ", call.name, "")?;
            self.warn(file, (call.line, call.column), NO_SUCH_TEMPLATE, text)?;
        }
        self.warn_of_more(file, NO_SUCH_TEMPLATE, left)
    }

    /// Adds the definitions of a file that nothing calls.
    fn add_uncalled(
        &mut self,
        file: &'a str,
        asked: &str,
        defined: &[Named<'_>],
        templates: &Templates<'_>,
    ) -> Result<()>
        ensures { OnOk result (errors_in self.new ≡ errors_in self.old) }
    {
        for definition in defined {
            if !templates.called.contains(definition.name) && definition.name != asked.as_bytes() {
                let text = self.about("the template ", definition.name, " is never called")?;
                let place = (definition.line, definition.column);
                self.warn(file, place, NEVER_CALLED, text)?;
            }
        }
        Ok(())
    }

    /// Adds that no file defines the template that is asked for, if that is so.
    fn add_asked(
        &mut self,
        first: Option<&'a str>,
        asked: Option<&str>,
        templates: &Templates<'_>,
    ) -> Result<()>
        ensures { OnOk result (errors_in self.new ≡ errors_in self.old) }
    {
        let (Some(first), Some(asked)) = (first, asked) else {
            return Ok(());
        };
        let name = asked.as_bytes();
        if templates.defined.contains(name) {
            return Ok(());
        }
        let text = self.about("no file defines the template ", name, " of --name")?;
        self.warn(first, (1, 1), NO_SUCH_TEMPLATE, text)
    }

    /// Adds what is found in template files, and their templates to the set: first what is wrong, and then what is suspicious.
    /// The template that is rendered is that of the first file, or the one that is asked for by its name.
    ///
    /// # Errors
    ///
    /// Where memory ran out; some of it may then have been added.
    pub fn add_files(
        &mut self,
        hash: NameHash,
        first: Option<&'a str>,
        asked: Option<&str>,
        files: &[Source<'a>],
        set: &mut Set,
    ) -> Result<()>
        ensures { OnOk result ((errors : List Finding)
            × AreOfFiles (set_view set.old) files.now (set_view set.new) errors
            × (errors_in self.new ≡ errors_in self.old ++ errors)) }
    {
        let surveys = survey_files(self.alloc, hash, files)?;
        let templates = templates_in(self.alloc, hash, files, surveys.as_slice())?;
        self.add_each(hash, asked, files, surveys, &templates, set)?;
        self.add_asked(first, asked, &templates)?;
        Ok(())
    }

    /// The same of each file and its survey.
    fn add_each(
        &mut self,
        hash: NameHash,
        asked: Option<&str>,
        files: &[Source<'a>],
        surveys: Vec<Survey<'_>>,
        templates: &Templates<'_>,
        set: &mut Set,
    ) -> Result<()>
        ensures { OnOk result ((errors : List Finding)
            × AreOfFiles (set_view set.old) files.now (set_view set.new) errors
            × (errors_in self.new ≡ errors_in self.old ++ errors)) }
    {
        let mut surveys = surveys.into_iter();
        for file in files {
            self.add_checked(hash, file, &mut *set)?;
            self.add_surveyed(file, asked, surveys.next(), templates)?;
        }
        Ok(())
    }

    /// Adds what is wrong in a file, and its templates to the set.
    fn add_checked(&mut self, hash: NameHash, file: &Source<'a>, set: &mut Set) -> Result<()>
        ensures { OnOk result ((errors : List Finding)
            × AreOfFile (set_view set.old) file.now (set_view set.new) errors × (self.new ≡ self.old ++ errors)) }
    {
        let problems = check_file(self.alloc, set, hash, file.name, file.bytes.as_slice())?;
        self.add_problems(file.name, &problems)?;
        Ok(())
    }

    /// Adds what the survey of a file has, unless it is one of others: the definitions that nothing calls, what is
    /// suspicious, the actions that always fail, and the calls of templates that no file has.
    fn add_surveyed(
        &mut self,
        file: &Source<'a>,
        asked: Option<&str>,
        survey: Option<Survey<'_>>,
        templates: &Templates<'_>,
    ) -> Result<()>
        ensures { OnOk result (errors_in self.new ≡ errors_in self.old) }
    {
        let Some(survey) = survey else {
            return Ok(());
        };
        if file.is_library {
            return Ok(());
        }
        let name = file.name;
        if let Some(asked) = asked {
            self.add_uncalled(name, asked, survey.defined.as_slice(), templates)?;
        }
        let Survey {
            warnings,
            failing,
            called,
            ..
        } = survey;
        self.add_warnings(name, SUSPICIOUS, warnings)?;
        self.add_warnings(name, ALWAYS_FAILS, failing)?;
        self.add_calls(name, called.as_slice(), templates)
    }

    /// Adds what is wrong in data. Whether it has a value.
    ///
    /// # Errors
    ///
    /// Where memory ran out; some of it may then have been added.
    pub fn add_data(&mut self, data: &Source<'a>) -> Result<bool>
        ensures accepted { IfOk result (λ accepted. accepted ≡ true
            → (value : Value) × (data_of «data».now.bytes.items ≡ Ok value)) }
        ensures refused { IfOk result (λ accepted. accepted ≡ false
            → (flaw : Flaw) × (data_of «data».now.bytes.items ≡ Err flaw)) }
        ensures found { IfOk result (λ accepted. has_error self.new
            ≡ (if accepted then has_error self.old else true)) }
        ensures matches_spec { OnOk result ((errors : List Finding) × AreOfData (Some «data».now) errors
            × (errors_in self.new ≡ errors_in self.old ++ errors)) }
    {
        let report = check_data(self.alloc, data.bytes.as_slice())?;
        let accepted = report.refused.is_none();
        self.add_reason(data.name, report.refused, report.problems)?;
        self.warn_of_keys(data.name, report.warnings)?;
        Ok(accepted)
    }

    /// Adds the places at which data is wrong that is refused for this reason, if it is.
    fn add_reason(
        &mut self,
        file: &'a str,
        reason: Option<DataReason>,
        problems: Vec<DataProblem>,
    ) -> Result<()>
        ensures { OnOk result ((errors : List Finding) × AreOfReason file.now reason errors
            × (self.new ≡ self.old ++ errors)) }
    {
        match reason {
            Some(reason) => {
                self.add_data_problems(file, reason, problems)?;
                Ok(())
            }
            None => Ok(()),
        }
    }

    /// Warns of the keys that are duplicated in data.
    fn warn_of_keys(&mut self, file: &'a str, warnings: Vec<DataProblem>) -> Result<()>
        ensures { OnOk result (errors_in self.new ≡ errors_in self.old) }
    {
        for warning in warnings.into_iter() {
            let place = (warning.line, warning.column);
            self.warn(file, place, KEY_GIVEN_TWICE, warning.text)?;
        }
        Ok(())
    }

    /// Adds the places at which data is wrong that is refused for this reason; one, where none is known.
    fn add_data_problems(
        &mut self,
        file: &'a str,
        reason: DataReason,
        problems: Vec<DataProblem>,
    ) -> Result<()>
        ensures { OnOk result (AddsOfReason file.now reason self.old self.new) }
    {
        let mut problems = problems.into_iter();
        self.add_data_problem(file, reason, problems.next())?;
        for problem in problems {
            self.add_data_problem(file, reason, Some(problem))?;
        }
        Ok(())
    }

    /// Adds that data is wrong, at a place if one is known.
    fn add_data_problem(
        &mut self,
        file: &'a str,
        reason: DataReason,
        problem: Option<DataProblem>,
    ) -> Result<()>
        ensures { OnOk result ((f : Finding) × IsOfReason file.now reason f × (self.new ≡ self.old ++ f ∷ [])) }
    {
        let (place, detail) = match &problem {
            Some(found) => ((found.line, found.column), found.text.as_str()),
            None => ((1, 1), ""),
        };
        let text = reason_text(self.alloc, reason.words(), detail)?;
        self.add(Finding::error(file, place, data_rule_of(reason), text))?;
        Ok(())
    }
}

/// Whether one of these says the same of the same place.
fn has_same(findings: &[Finding<'_>], finding: &Finding<'_>) -> bool
    ensures { result ≡ list_any (λ other. is_same other finding.now) findings.now }
{
    findings.iter().any(|other| other.is_same(finding))
}

/// The surveys of files.
fn survey_files<'f>(
    alloc: Global,
    hash: NameHash,
    files: &'f [Source<'_>],
) -> Result<Vec<Survey<'f>>> {
    let mut surveys = Vec::new(alloc);
    for file in files {
        surveys.push(survey_file(alloc, hash, file.bytes.as_slice())?)?;
    }
    Ok(surveys)
}

/// The templates of all files: those that they define, their own, and those that are called.
fn templates_in<'f>(
    alloc: Global,
    hash: NameHash,
    files: &'f [Source<'_>],
    surveys: &[Survey<'f>],
) -> Result<Templates<'f>> {
    let mut templates = Templates {
        defined: IndexSet::with_hasher(alloc, hash),
        called: IndexSet::with_hasher(alloc, hash),
    };
    for file in files {
        templates.defined.insert(base_name(file.name))?;
    }
    for survey in surveys {
        for definition in survey.defined.as_slice() {
            templates.defined.insert(definition.name)?;
        }
        for call in survey.called.as_slice() {
            templates.called.insert(call.name)?;
        }
    }
    Ok(templates)
}
