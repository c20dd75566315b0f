//! What is suspicious in a file, though it is not refused: names that nothing uses, texts that look like actions, and
//! actions that fail at each run that gets to them.

ghost use Rattle.std.specs.Prelude.{◌≡◌, ◌<◌, ◌==◌, ◌&&◌, ℕ, List, [], ◌∷◌, IfOk, IfSome, OnOk};
ghost use Rattle.std.specs.Prelude.{length, map, filter, not, option_map, string_bytes};
ghost use Rattle.std.specs.List.{AllZip};
ghost use Rattle.std.specs.Option.{option_copied};
ghost use Rattle.tmpl_lex.specs.View.{token_of};
ghost use Rattle.tmpl_lex.specs.Place.{StandsAt};
ghost use Rattle.tmpl_syntax.specs.Column.{IsPlace};
ghost use Rattle.tmpl_problems.specs.computed.Failing.{Fails, has_failing};
ghost use Rattle.tmpl_problems.specs.Sign as sign;
ghost use Rattle.tmpl_problems.specs.Tokens as token;
ghost use Rattle.tmpl_problems.specs.Survey.{Declared, IsUnused, Names, Warns, callers, definers, is_used};
ghost use Rattle.tmpl_problems.specs.Survey.{warned_place};
ghost use Rattle.tmpl_problems.specs.computed.Adds.{AddsAll, AddsFailing, AddsName, AddsSign, AddsZip, action_tokens};
ghost use Rattle.tmpl_problems.specs.computed.Adds.{ArePlaced, IsNoted, Notes, Passes, mark, mark_each, note};

use crate::cure::failing_text;
use crate::definitions::name_after;
use crate::failing::failing_in_reading;
use crate::scan::{place_in, rest_after};
use crate::variables::{declaration_len, declared_names, name_in};
use indexmap::IndexMap;
use std::alloc::{AllocError, Global};
use tmpl_grammar::read_action;
use tmpl_hints::Sentence;
use tmpl_lex::{AfterText, Rest, Token, first_part};
use tmpl_syntax::{NameHash, Place};

/// What is suspicious at a place.
#[derive(Drop)]
pub struct Warning {
    /// How many bytes of the file stand before it.
    pub start: usize,
    /// Its line and its column, each counted from 1, the column in characters.
    pub line: u64,
    pub column: u64,
    /// What it is, in words.
    pub text: String,
}

/// A template that is named at a place: defined or called there.
#[derive(Clone, Copy)]
pub struct Named<'b> {
    pub name: &'b [u8],
    pub start: usize,
    pub line: u64,
    pub column: u64,
}

/// What is suspicious in a file, and the templates that it defines and calls; a `block` does both.
#[derive(Drop)]
pub struct Survey<'b> {
    pub warnings: Vec<Warning>,
    /// The actions with a command that fails at each run that gets to it.
    pub failing: Vec<Warning>,
    pub defined: Vec<Named<'b>>,
    pub called: Vec<Named<'b>>,
}

/// A variable: where it is first declared, and whether anything uses one of its name after that.
#[derive(Clone, Copy)]
struct Variable {
    place: Place,
    is_used: bool,
}

/// The variables of a file by their names, in the order in which they are first declared.
type Variables<'b> = IndexMap<&'b [u8], Variable, NameHash>;

/// A survey under way.
#[derive(Drop)]
struct Surveyor<'b> {
    alloc: Global,
    survey: Survey<'b>,
    variables: Variables<'b>,
}

/// Surveys a file, whether it is refused or not.
pub fn survey_file<'b>(
    alloc: Global,
    hash: NameHash,
    file: &'b [u8],
) -> Result<Survey<'b>, AllocError>
    ensures defined { IfOk result (λ s. Names definers file.now s.defined.items) }
    ensures called { IfOk result (λ s. Names callers file.now s.called.items) }
    ensures warnings { IfOk result (λ s. Warns file.now s.warnings.items) }
    ensures failing { IfOk result (λ s. Fails file.now s.failing.items) }
{
    let mut surveyor = Surveyor::new(alloc, hash);
    let mut tokens = Vec::new(alloc);
    let mut place = Place::first();
    let mut rest = Rest::of(file);
    loop {
        let part = first_part(file, rest, &mut tokens)?;
        place = pass_text(
            alloc,
            &mut surveyor.survey.warnings,
            file,
            place,
            part.start,
            part.text,
        )?;
        let action = action_tokens(part.after, tokens.as_slice());
        place = surveyor.pass_action(file, place, part.opens, action)?;
        match rest_after(file, rest, part) {
            Some(next) => rest = next,
            None => return surveyor.finish(),
        }
    }
}

/// The tokens of the action after a text; none where no action stands there.
fn action_tokens<'t, 'b>(after: AfterText, tokens: &'t [Token<'b>]) -> &'t [Token<'b>]
    ensures { map token_of result.now ≡ action_tokens after tokens.now }
{
    match after {
        AfterText::Nothing => &[],
        AfterText::Action(_) | AfterText::Unreadable(_) => tokens,
    }
}

impl<'b> Surveyor<'b> {
    /// Nothing yet.
    fn new(alloc: Global, hash: NameHash) -> Surveyor<'b>
        ensures warnings { result.survey.warnings.items ≡ [] }
        ensures failing { result.survey.failing.items ≡ [] }
        ensures defined { result.survey.defined.items ≡ [] }
        ensures called { result.survey.called.items ≡ [] }
        ensures variables { result.variables.entries ≡ [] }
    {
        let survey = Survey {
            warnings: Vec::new(alloc),
            failing: Vec::new(alloc),
            defined: Vec::new(alloc),
            called: Vec::new(alloc),
        };
        Surveyor {
            alloc,
            survey,
            variables: IndexMap::with_hasher(alloc, hash),
        }
    }

    /// Notes the templates that an action defines and calls, and the variables that it declares and uses.
    fn pass_action(
        &mut self,
        file: &[u8],
        place: Place,
        opens: usize,
        tokens: &[Token<'b>],
    ) -> Result<Place, AllocError>
        requires { IsPlace file.now place }
        ensures variables { OnOk result (Passes file.now opens (map token_of tokens.now)
            self.old.variables.entries self.new.variables.entries) }
        ensures warnings { self.new.survey.warnings ≡ self.old.survey.warnings }
        ensures defined { OnOk result (AddsName file.now opens (token.name_after definers (map token_of tokens.now))
            self.old.survey.defined.items self.new.survey.defined.items) }
        ensures called { OnOk result (AddsName file.now opens (token.name_after callers (map token_of tokens.now))
            self.old.survey.called.items self.new.survey.called.items) }
        ensures failing { OnOk result (AddsFailing file.now opens (has_failing (map token_of tokens.now))
            self.old.survey.failing.items self.new.survey.failing.items) }
        ensures place { IfOk result (λ p. IsPlace file.now p) }
    {
        let defined = name_after(tokens, &[b"define", b"block"]);
        let place = pass_name(&mut self.survey.defined, file, place, opens, defined)?;
        let called = name_after(tokens, &[b"template", b"block"]);
        let place = pass_name(&mut self.survey.called, file, place, opens, called)?;
        let place = declare(self.alloc, &mut self.variables, file, place, opens, tokens)?;
        use_variables(&mut self.variables, tokens);
        pass_failing(
            self.alloc,
            &mut self.survey.failing,
            file,
            place,
            opens,
            tokens,
        )
    }

    /// The survey, with the variables that nothing uses.
    fn finish(self) -> Result<Survey<'b>, AllocError>
        ensures same { IfOk result (λ s. (s.defined ≡ self.entry.survey.defined) × (s.called ≡ self.entry.survey.called)
            × (s.failing ≡ self.entry.survey.failing)) }
        ensures placed { (file : List ℕ) → ArePlaced file self.entry.variables.entries → IfOk result (λ s.
            AddsAll (λ w. IsPlace file (warned_place w)) self.entry.survey.warnings.items s.warnings.items) }
        ensures unused { (file : List ℕ) (uses : List (ℕ × List ℕ)) (ds : List Declared)
            → AllZip (IsNoted file uses) ds self.entry.variables.entries → IfOk result (λ s.
            AddsZip (IsUnused file) (filter (λ d. not (is_used uses d)) ds) self.entry.survey.warnings.items s.warnings.items) }
    {
        let Surveyor {
            alloc,
            mut survey,
            variables,
        } = self;
        warn_of_unused(alloc, &mut survey.warnings, &variables)?;
        Ok(survey)
    }
}

/// Warns of the variables that nothing uses.
fn warn_of_unused(
    alloc: Global,
    warnings: &mut Vec<Warning>,
    variables: &Variables<'_>,
) -> Result<(), AllocError>
    ensures placed { (file : List ℕ) → ArePlaced file variables.now.entries → OnOk result
        (AddsAll (λ w. IsPlace file (warned_place w)) warnings.old.items warnings.new.items) }
    ensures unused { (file : List ℕ) (uses : List (ℕ × List ℕ)) (ds : List Declared)
        → AllZip (IsNoted file uses) ds variables.now.entries → OnOk result
        (AddsZip (IsUnused file) (filter (λ d. not (is_used uses d)) ds) warnings.old.items warnings.new.items) }
{
    for number in 0..variables.len() {
        if let Some((name, variable)) = variables.get_index(number) {
            warn_if_unused(alloc, warnings, *name, *variable)?;
        }
    }
    Ok(())
}

/// Warns of a variable, if nothing uses it.
fn warn_if_unused(
    alloc: Global,
    warnings: &mut Vec<Warning>,
    name: &[u8],
    variable: Variable,
) -> Result<(), AllocError>
    ensures placed { (file : List ℕ) → IsPlace file variable.place → OnOk result
        (AddsAll (λ w. IsPlace file (warned_place w)) warnings.old.items warnings.new.items) }
    ensures unused { (file : List ℕ) (uses : List (ℕ × List ℕ)) (d : Declared)
        → IsNoted file uses d (name.entry, variable) → OnOk result
        (AddsZip (IsUnused file) (filter (λ d. not (is_used uses d)) (d ∷ [])) warnings.old.items warnings.new.items) }
{
    if !variable.is_used {
        warnings.push(warning_at(variable.place, unused_text(alloc, name)?))?;
    }
    Ok(())
}

/// Notes what is suspicious in a text that begins there. Says up to where columns were counted.
fn pass_text(
    alloc: Global,
    warnings: &mut Vec<Warning>,
    file: &[u8],
    place: Place,
    start: usize,
    text: &[u8],
) -> Result<Place, AllocError>
    requires place { IsPlace file.now place }
    requires stands { StandsAt file.now start text.now }
    ensures adds_warning { OnOk result (AddsSign file.now start (sign.first_sign text.now)
        warnings.old.items warnings.new.items) }
    ensures place { IfOk result (λ p. IsPlace file.now p) }
{
    match first_sign(text) {
        Some(sign) => {
            let here = place.at(file, start.saturating_add(sign.at).min(file.len()));
            warnings.push(warning_at(here, String::from_str(alloc, sign.words)?))?;
            Ok(here)
        }
        None => Ok(place),
    }
}

/// A warning of this at a place.
fn warning_at(place: Place, text: String) -> Warning
    ensures text { string_bytes result.text ≡ string_bytes text }
    ensures place { warned_place result ≡ place }
{
    Warning {
        start: place.start,
        line: place.line,
        column: place.column,
        text,
    }
}

/// Adds a template that the action names which opens there, if it names one. Says up to where columns were counted.
fn pass_name<'b>(
    found: &mut Vec<Named<'b>>,
    file: &[u8],
    place: Place,
    opens: usize,
    name: Option<&'b [u8]>,
) -> Result<Place, AllocError>
    requires { IsPlace file.now place }
    ensures added { OnOk result (AddsName file.now opens (option_copied name.entry) found.old.items found.new.items) }
    ensures place { IfOk result (λ p. IsPlace file.now p) }
{
    match name {
        Some(name) => {
            let here = place_in(place, file, opens);
            found.push(Named {
                name,
                start: here.start,
                line: here.line,
                column: here.column,
            })?;
            Ok(here)
        }
        None => Ok(place),
    }
}

/// Warns of the action that opens there, if it has a command that fails at each run that gets to it. Says up to where
/// columns were counted.
fn pass_failing(
    alloc: Global,
    failing: &mut Vec<Warning>,
    file: &[u8],
    place: Place,
    opens: usize,
    tokens: &[Token<'_>],
) -> Result<Place, AllocError>
    requires { IsPlace file.now place }
    ensures added { OnOk result (AddsFailing file.now opens (has_failing (map token_of tokens.now))
        failing.old.items failing.new.items) }
    ensures place { IfOk result (λ p. IsPlace file.now p) }
{
    let reading = read_action(alloc, tokens)?;
    match failing_in_reading(alloc, &reading)? {
        Some(found) => {
            let here = place_in(place, file, opens);
            failing.push(warning_at(here, failing_text(alloc, found)?))?;
            Ok(here)
        }
        None => Ok(place),
    }
}

/// Notes the variables that an action declares. Of two, the first has to be there for the second to be, so that it
/// is not used says nothing.
fn declare<'b>(
    alloc: Global,
    variables: &mut Variables<'b>,
    file: &[u8],
    place: Place,
    opens: usize,
    tokens: &[Token<'b>],
) -> Result<Place, AllocError>
    requires { IsPlace file.now place }
    ensures notes { OnOk result (Notes file.now opens (token.declared_names (map token_of tokens.now))
        variables.old.entries variables.new.entries) }
    ensures place { IfOk result (λ p. IsPlace file.now p) }
{
    let names = declared_names(alloc, tokens)?;
    let here = place_in(place, file, opens);
    let count = names.len();
    for (index, name) in names.as_slice().iter().enumerate() {
        let variable = Variable {
            place: here,
            is_used: is_first_of_two(index, count),
        };
        declare_name(variables, *name, variable)?;
    }
    Ok(here)
}

/// Whether it is the first of two.
fn is_first_of_two(index: usize, count: usize) -> bool
    ensures { result ≡ (count == 2 && index == 0) }
{
    count == 2 && index == 0
}

/// Notes a variable, unless one of its name is noted.
fn declare_name<'b>(
    variables: &mut Variables<'b>,
    name: &'b [u8],
    variable: Variable,
) -> Result<(), AllocError>
    ensures { OnOk result (variables.new.entries ≡ note name.entry variable variables.old.entries) }
{
    if !variables.contains_key(name) {
        variables.insert(name, variable)?;
    }
    Ok(())
}

/// Notes the variables that an action uses.
fn use_variables(variables: &mut Variables<'_>, tokens: &[Token<'_>])
    ensures { variables.new.entries ≡ mark_each (token.used_names (map token_of tokens.now)) variables.old.entries }
{
    let (_, rest) = tokens.split_at(declaration_len(tokens));
    for token in rest {
        if let Some(name) = name_in(token) {
            use_variable(variables, name);
        }
    }
}

/// Notes that the variable of this name is used, if there is one.
fn use_variable(variables: &mut Variables<'_>, name: &[u8])
    ensures { variables.new.entries ≡ mark name.now variables.old.entries }
{
    if let Some(variable) = variables.get_mut(name) {
        variable.is_used = true;
    }
}

/// The message about a variable of this name that nothing uses.
fn unused_text(alloc: Global, name: &[u8]) -> Result<String, AllocError>
    ensures { IfOk result (λ t. string_bytes t ≡ token.unused_words name.now) }
{
    Sentence::new(alloc)
        .say("variable \"$")
        .show(name)
        .say("\" is never used")
        .finish()
}

/// A sign in a text: how many bytes of the text stand before it, and its message.
#[derive(Clone, Copy)]
struct Sign {
    at: usize,
    words: &'static str,
}

/// The first sign in a text, if it has one.
fn first_sign(text: &[u8]) -> Option<Sign>
    ensures within { IfSome result (λ sign. sign.at < length text.now) }
    ensures value { option_map (λ sign. (sign.at, sign.words.now)) result ≡ sign.first_sign text.now }
{
    for at in 0..text.len() {
        if let Some(words) = sign_at(text, at) {
            return Some(Sign { at, words });
        }
    }
    None
}

/// The message about the sign that stands in a text after this many bytes, if one does.
fn sign_at(text: &[u8], at: usize) -> Option<&'static str>
    ensures { option_copied result ≡ sign.sign_at text.now at }
{
    match text.get(at..)? {
        [b'}', b'}', ..] => Some("\"}}\" closes no action: it is text"),
        [b'{', b' ', b'{', ..] => Some("\"{ {\" begins no action: it is text"),
        [b'{', b'%', ..] => Some("\"{%\" begins no action: write {{"),
        [0xEF, 0xBB, 0xBF, ..] => Some("a byte order mark is text: save the file without it"),
        _ => None,
    }
}
