//! A parser of pipelines, token by token.
ghost use Rattle.std.specs.Prelude.{◌≡◌, ◌++◌, ◌∷◌, [], IfOk, OnOk, None, map, option_map};
ghost use Rattle.tmpl_lex.specs.View.{token_of};
ghost use Rattle.tmpl_grammar.specs.computed.Limited as limited;
ghost use Rattle.tmpl_grammar.specs.computed.Parser as spec;
ghost use Rattle.tmpl_grammar.specs.computed.View.{parser_of, partial_of};
ghost use Rattle.tmpl_grammar.specs.View.{command_of, operand_of};
ghost use Rattle.tmpl_grammar.specs.Token as token;
ghost use Rattle.tmpl_grammar.specs.computed.Operand as word;

use crate::operand::{begins_name, name_in, operand_at};
use crate::tree::{Command, Operand};
use std::alloc::{AllocError, Global};
use std::mem;
use tmpl_lex::{Token, TokenKind};
use tmpl_values::Bytes;

/// A pipeline that is read in part.
#[derive(Drop)]
struct PartialPipeline {
    /// Its whole commands.
    commands: Vec<Command>,
    /// The operands of the next command that have white space after them.
    operands: Vec<Operand>,
}

/// The pipeline that is read, as far as it is, with those around it.
#[derive(Drop)]
pub(crate) struct PipelineParser {
    /// The pipelines in whose parentheses this one stands, the innermost last.
    outer: Vec<PartialPipeline>,
    inner: PartialPipeline,
    /// The operand that has no white space after it.
    last: Option<Operand>,
}

impl PartialPipeline {
    /// Nothing is read yet.
    fn new(alloc: Global) -> PartialPipeline
        ensures { partial_of result ≡ spec.empty_partial }
    {
        PartialPipeline {
            commands: Vec::new(alloc),
            operands: Vec::new(alloc),
        }
    }
}

/// Adds an element. The first few, this many, take room for themselves alone, since most lists have no more.
fn add<T: Drop>(items: &mut Vec<T>, few: usize, item: T) -> Result<(), AllocError>
    ensures { OnOk result (items.new.items ≡ items.old.items ++ item ∷ []) }
{
    if items.len() < few {
        items.reserve_exact(1)?;
    }
    items.push(item)?;
    Ok(())
}

/// Puts the last operand, if there is one, after the others.
fn settle(last: &mut Option<Operand>, operands: &mut Vec<Operand>) -> Result<(), AllocError>
    ensures operands { OnOk result (map operand_of operands.new.items
        ≡ spec.with_last_operand (option_map operand_of last.old) (map operand_of operands.old.items)) }
    ensures last { last.new ≡ None }
{
    match last.take() {
        Some(operand) => add(operands, 1, operand),
        None => Ok(()),
    }
}

/// Adds one more field to the chain of the operand; `false` where it may have no chain.
fn link(operand: &mut Operand, name: Bytes) -> Result<bool, AllocError>
    ensures { IfOk result (λ b. spec.kept_if b (operand_of operand.new) ≡ spec.with_field (operand_of operand.old) name) }
{
    match operand {
        Operand::Fields(fields) => {
            add(fields, 2, name)?;
            Ok(true)
        }
        Operand::Variable { fields, .. } => {
            add(fields, 2, name)?;
            Ok(true)
        }
        Operand::Group { fields, .. } => {
            add(fields, 2, name)?;
            Ok(true)
        }
        _ => Ok(false),
    }
}

/// Whether this operand may begin a command after a bar: a constant, `nil` and dot may not.
fn begins_later(operand: &Operand) -> bool
    ensures { result ≡ word.begins_later (operand_of operand.now) }
{
    match operand {
        Operand::Fields(_)
        | Operand::Variable { .. }
        | Operand::Function(_)
        | Operand::Group { .. } => true,
        _ => false,
    }
}

/// Whether this operand may stand next in a pipeline.
fn may_stand(inner: &PartialPipeline, operand: &Operand) -> bool
    ensures { result ≡ spec.may_stand (partial_of inner.now).commands (partial_of inner.now).operands
        (operand_of operand.now) }
{
    inner.commands.len() < 1 || inner.operands.len() > 0 || begins_later(operand)
}

impl PipelineParser {
    /// Nothing is read yet.
    pub(crate) fn new(alloc: Global) -> PipelineParser
        ensures { parser_of result ≡ spec.start }
    {
        PipelineParser {
            outer: Vec::new(alloc),
            inner: PartialPipeline::new(alloc),
            last: None,
        }
    }

    /// Takes in this token; `false` where it may not stand.
    #[tactic(auto, unfolding(crate::specs::computed::Parser::step))]
    fn step(&mut self, alloc: Global, token: &Token<'_>) -> Result<bool, AllocError>
        ensures { IfOk result (λ b. spec.kept_if b (parser_of self.new)
            ≡ spec.step (token_of token.now) (parser_of self.old)) }
    {
        match token.kind {
            TokenKind::Space => {
                settle(&mut self.last, &mut self.inner.operands)?;
                Ok(true)
            }
            TokenKind::Pipe => self.close(alloc),
            TokenKind::LeftParenthesis => self.open_group(alloc),
            TokenKind::RightParenthesis => self.close_group(alloc),
            TokenKind::Field => self.pass_field(alloc, token),
            _ => {
                let operand = operand_at(alloc, token)?;
                Ok(self.place(operand))
            }
        }
    }

    /// Takes in this token, and keeps what stands in parentheses or lets go of it; `false` where the token may not
    /// stand.
    #[tactic(auto, unfolding(crate::specs::computed::Limited::pruned_step))]
    pub(crate) fn pass(
        &mut self,
        alloc: Global,
        keeps: bool,
        token: &Token<'_>,
    ) -> Result<bool, AllocError>
        ensures { IfOk result (λ b. spec.kept_if b (parser_of self.new)
            ≡ limited.pruned_step keeps (token_of token.now) (parser_of self.old)) }
    {
        let stands = self.step(alloc, token)?;
        if !keeps {
            empty(alloc, &mut self.last);
        }
        Ok(stands)
    }

    /// Ends the newest command; `false` where it has no operand.
    fn close(&mut self, alloc: Global) -> Result<bool, AllocError>
        ensures { IfOk result (λ b. spec.kept_if b (parser_of self.new)
            ≡ option_map (spec.after_bar (parser_of self.old)) (spec.close_pipeline (parser_of self.old))) }
    {
        settle(&mut self.last, &mut self.inner.operands)?;
        if self.inner.operands.len() == 0 {
            return Ok(false);
        }
        let operands = mem::replace(&mut self.inner.operands, Vec::new(alloc));
        add(&mut self.inner.commands, 1, Command { operands })?;
        Ok(true)
    }

    /// After `(`; `false` where it touches an operand.
    fn open_group(&mut self, alloc: Global) -> Result<bool, AllocError>
        ensures { IfOk result (λ b. spec.kept_if b (parser_of self.new)
            ≡ spec.open_parenthesis (option_map operand_of self.old.last) (parser_of self.old)) }
    {
        if self.last.is_some() {
            return Ok(false);
        }
        let around = mem::replace(&mut self.inner, PartialPipeline::new(alloc));
        self.outer.push(around)?;
        Ok(true)
    }

    /// After `)`; `false` where none is open or no command ends.
    fn close_group(&mut self, alloc: Global) -> Result<bool, AllocError>
        ensures { IfOk result (λ b. spec.kept_if b (parser_of self.new)
            ≡ spec.left_with (parser_of self.old).outer (spec.close_pipeline (parser_of self.old))) }
    {
        let Some(around) = self.outer.pop() else {
            return Ok(false);
        };
        if !self.close(alloc)? {
            return Ok(false);
        }
        let inner = mem::replace(&mut self.inner, around);
        self.last = Some(Operand::Group {
            commands: inner.commands,
            fields: Vec::new(alloc),
        });
        Ok(true)
    }

    /// After an operand; `false` where it may not stand.
    fn place(&mut self, operand: Option<Operand>) -> bool
        ensures { spec.kept_if result (parser_of self.new)
            ≡ spec.place_operand (option_map operand_of self.old.last) (option_map operand_of operand) (parser_of self.old) }
    {
        if self.last.is_some() {
            return false;
        }
        match operand {
            Some(operand) => {
                if !may_stand(&self.inner, &operand) {
                    return false;
                }
                self.last = Some(operand);
                true
            }
            None => false,
        }
    }

    /// After a field: in a chain, or an operand of its own.
    fn pass_field(&mut self, alloc: Global, token: &Token<'_>) -> Result<bool, AllocError>
        ensures { IfOk result (λ b. spec.kept_if b (parser_of self.new)
            ≡ spec.after_field (option_map operand_of self.old.last) (token_of token.now) (parser_of self.old)) }
    {
        if let Some(operand) = &mut self.last {
            return link_named(alloc, operand, name_in(token));
        }
        let operand = operand_at(alloc, token)?;
        Ok(self.place(operand))
    }

    /// The commands of the pipeline, where no parenthesis is open.
    #[tactic(auto, unfolding(crate::specs::computed::Parser::finished))]
    pub(crate) fn finish(self, alloc: Global) -> Result<Option<Vec<Command>>, AllocError>
        ensures { IfOk result (λ o. option_map (λ v. map command_of v.items) o ≡ spec.finished (parser_of self)) }
    {
        let mut parser = self;
        if parser.outer.len() > 0 {
            return Ok(None);
        }
        if !parser.close(alloc)? {
            return Ok(None);
        }
        let PipelineParser { inner, .. } = parser;
        Ok(Some(inner.commands))
    }
}

/// Adds one more field of this name to the chain of the operand; `false` where either may not be.
fn link_named(alloc: Global, operand: &mut Operand, name: &[u8]) -> Result<bool, AllocError>
    ensures { IfOk result (λ b. spec.kept_if b (operand_of operand.new)
        ≡ spec.linked_by (token.begins_name name.now) (operand_of operand.old) name.now) }
{
    if begins_name(name) {
        link(operand, Bytes::new(name.to_vec(alloc)?))
    } else {
        Ok(false)
    }
}

/// Empties the operand if it is a group: else trees would be as deep as the parentheses.
fn empty(alloc: Global, last: &mut Option<Operand>)
    ensures { option_map operand_of last.new ≡ option_map limited.without_contents (option_map operand_of last.old) }
{
    if matches!(last, Some(Operand::Group { .. })) {
        *last = Some(Operand::Group {
            commands: Vec::new(alloc),
            fields: Vec::new(alloc),
        });
    }
}
