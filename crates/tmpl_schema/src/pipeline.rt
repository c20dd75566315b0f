//! The shapes of pipelines.
#![tactic(auto, using(tmpl_grammar::proofs::ViewLemmas::group_seen, tmpl_shape::proofs::ViewLemmas::parts))]

ghost use Rattle.std.specs.Prelude.{◌≡◌, ◌+◌, ◌++◌, [], IfOk, OnOk, None, Some, if◌then◌else◌, length, option_to_list};
ghost use Rattle.std.specs.Option.{option_map};
ghost use Rattle.tmpl_grammar.specs.Tree.{function, operand};
ghost use Rattle.tmpl_grammar.specs.View.{commands_in, operand_of, operands_in};
ghost use Rattle.tmpl_grammar.specs.Tree.{operand_count};
ghost use Rattle.tmpl_funcs.specs.Func.{takes};
ghost use Rattle.tmpl_shape.specs.View.{shape_of};
ghost use Rattle.tmpl_shape.specs.computed.Calls.{kinds_shape};
ghost use Rattle.tmpl_shape.specs.computed.View.{base_of, shape_seen};
ghost use Rattle.tmpl_schema.specs.computed.Check.{absent_field, alone, command_shape, commands_shape, entry_along, entry_at, entry_by, indexed_shape, is_index, junction_shape, operand_shape, own_entry, pipeline_shape, printed_shape, sliced_shape, text_shape};
ghost use Rattle.tmpl_schema.specs.computed.View.{argument_kinds, called_shape, in_context, origin_of, state_of};

use crate::facts::{Head, bounds_of, head_of, key_of, text_of};
use crate::known::find_variable;
use crate::origin::{Tie, is_path};
use crate::state::{State, narrow_operand, operand_origin};
use std::alloc::{AllocError, Global};
use tmpl_funcs::Func;
use tmpl_grammar::{Binding, Command, Operand};
use tmpl_meaning::MissingKey;
use tmpl_shape::{
    AbsentField, Base, Cause, Constant, Key, Kind, Kinds, Shape, Trouble, Visit, call_shape,
    chain_shape, copy_counted, copy_name, fill, has_kind, index_shape, join, kinds_of, null_gone,
    part_shape, printf_shape, visit_of, within,
};
use tmpl_values::Bytes;

/// What stands for an absent field by the option `missingkey`.
fn absent_field(mode: MissingKey) -> AbsentField
    ensures { result ≡ absent_field mode }
{
    match mode {
        MissingKey::Default | MissingKey::Invalid => AbsentField::Nothing,
        MissingKey::Zero => AbsentField::Null,
        MissingKey::Error => AbsentField::Fault,
    }
}

/// The shape of a text that is written out: an empty one has a shape of its own, since a variable may hold it until another
/// value is found.
fn text_shape(alloc: Global, text: &[u8]) -> Result<Shape, AllocError>
    ensures { IfOk result (λ s. shape_of s ≡ text_shape text.now) }
{
    match text {
        [] => Ok(Shape::Exactly(Constant::Text(copy_name(alloc, text)?))),
        [_, _rest @ ..] => Ok(Shape::Texts),
    }
}

/// How many arguments there are.
#[tactic(auto, using(tmpl_grammar::proofs::WeightLemmas::counts))]
fn argument_count(operands: &[Operand], piped: Option<&Shape>) -> u64
    ensures { result ≡ operand_count (operands_in operands.now) + length (option_to_list (shape_seen piped.entry)) }
{
    match piped {
        Some(_) => operands.len() as u64 + 1,
        None => operands.len() as u64,
    }
}

/// What a pipeline stands in: the definitions of names, the mode for missing keys, and what is known of dot and the
/// variables.
#[derive(Clone, Copy)]
pub(crate) struct Context<'s> {
    pub(crate) base: &'s Base<'s>,
    pub(crate) mode: MissingKey,
    pub(crate) state: &'s State,
}

/// A shape, or why a value may not have one.
type Shaped = Result<Shape, Trouble>;

impl Context<'_> {
    /// That a command may fail, or is not followed.
    fn may_fail(&self, cause: Cause) -> Trouble {
        Trouble::may_fail(self.base.alloc, cause)
    }

    /// The shape of the value of a pipeline, if it never is a fault.
    pub(crate) fn pipeline_shape(&self, commands: &[Command]) -> Shaped
        ensures { IfOk result (λ s. in_context self.now pipeline_shape (commands_in commands.now) ≡ Some (shape_of s)) }
    {
        self.commands_shape(commands, None)
    }

    /// The shape of what commands give to the last of them, if it never is a fault.
    #[cycle(pipeline)]
    fn commands_shape(&self, commands: &[Command], piped: Option<&Shape>) -> Shaped
        ensures { IfOk result (λ s. in_context self.now commands_shape (commands_in commands.now) (shape_seen piped.entry) ≡ Some (shape_of s)) }
    {
        match commands {
            [] => match piped {
                Some(shape) => Ok(copy_counted(self.base, shape)?),
                None => Ok(Shape::Nothings),
            },
            [first, rest @ ..] => {
                let shape = self.command_shape(first.operands.as_slice(), piped)?;
                let shape = null_gone(self.base, &shape)?;
                self.commands_shape(rest, Some(&shape))
            }
        }
    }

    /// The shape of a command, if it never is a fault.
    #[cycle(pipeline)]
    #[tactic(auto, using(crate::proofs::PipelineLemmas::heads))]
    fn command_shape(&self, operands: &[Operand], piped: Option<&Shape>) -> Shaped
        ensures { IfOk result (λ s. in_context self.now command_shape (operands_in operands.now) (shape_seen piped.entry) ≡ Some (shape_of s)) }
    {
        match operands {
            [] => Err(self.may_fail(Cause::Command)),
            [first, rest @ ..] => match head_of(first) {
                Head::Function(func) => self.function_shape(func, rest, piped),
                Head::Nil => Err(self.may_fail(Cause::Command)),
                Head::Value => self.alone_shape(first, rest, piped),
            },
        }
    }

    /// The shape of an operand to which nothing is piped and no argument given.
    #[cycle(pipeline)]
    fn alone_shape(&self, first: &Operand, rest: &[Operand], piped: Option<&Shape>) -> Shaped
        ensures { IfOk result (λ s. alone (in_context self.now operand_shape (operand_of first.now)) (shape_seen piped.entry) (operands_in rest.now)
            ≡ Some (shape_of s)) }
    {
        match (piped, rest) {
            (None, []) => self.operand_shape(first),
            _ => Err(self.may_fail(Cause::Command)),
        }
    }

    /// The shape of an operand, if it never is a fault.
    #[cycle(pipeline)]
    fn operand_shape(&self, operand: &Operand) -> Shaped
        ensures { IfOk result (λ s. in_context self.now operand_shape (operand_of operand.now) ≡ Some (shape_of s)) }
    {
        if self.base.effort.is_spent() {
            return Err(self.may_fail(Cause::TooComplex));
        }
        let absent = absent_field(self.mode);
        match operand {
            Operand::Dot => Ok(copy_counted(self.base, &self.state.dot)?),
            Operand::Fields(names) => {
                chain_shape(self.base, absent, names.as_slice(), &self.state.dot)
            }
            Operand::Variable { name, fields } => {
                match find_variable(name.as_slice(), &self.state.known) {
                    Some(variable) => {
                        chain_shape(self.base, absent, fields.as_slice(), &variable.shape)
                    }
                    None => Err(self.may_fail(Cause::Command)),
                }
            }
            Operand::Bool(value) => Ok(Shape::Exactly(Constant::Bool(*value))),
            Operand::Number(_) => Ok(Shape::Numbers),
            Operand::Text(text) => Ok(text_shape(self.base.alloc, text.as_slice())?),
            Operand::Nil => Ok(Shape::Nothings),
            Operand::Function(func) => self.bare_shape(*func),
            Operand::Group { commands, fields } => {
                let shape = self.commands_shape(commands.as_slice(), None)?;
                chain_shape(self.base, absent, fields.as_slice(), &shape)
            }
        }
    }

    /// The shape of a function as an argument: a call without arguments.
    fn bare_shape(&self, func: Func) -> Shaped
        ensures { IfOk result (λ s. (if takes func 0 then kinds_shape func [] else None) ≡ Some (shape_of s)) }
    {
        if !func.takes(0) {
            return Err(self.may_fail(Cause::Command));
        }
        self.shape_by_kinds(func, &[])
    }

    /// The shape of a call with arguments of these kinds.
    fn shape_by_kinds(&self, func: Func, kinds: &[Kinds]) -> Shaped
        ensures { IfOk result (λ s. kinds_shape func kinds.now ≡ Some (shape_of s)) }
    {
        match call_shape(func, kinds) {
            Some(shape) => Ok(shape),
            None => Err(self.may_fail(Cause::Arguments(func))),
        }
    }

    /// The shape of a command that calls a function.
    #[cycle(pipeline)]
    #[tactic(auto, using(crate::proofs::PipelineLemmas::functions))]
    fn function_shape(&self, func: Func, operands: &[Operand], piped: Option<&Shape>) -> Shaped
        ensures { IfOk result (λ s. in_context self.now command_shape (operand (function func) (operands_in operands.now)) (shape_seen piped.entry)
            ≡ Some (shape_of s)) }
    {
        if !func.takes(argument_count(operands, piped)) {
            return Err(self.may_fail(Cause::Command));
        }
        match func {
            Func::And => self.junction_shape(false, &Shape::Nothings, operands, piped),
            Func::Or => self.junction_shape(true, &Shape::Nothings, operands, piped),
            Func::Index => self.indexed_shape(operands, piped),
            Func::Printf => self.printed_shape(operands, piped),
            Func::Slice => self.sliced_shape(operands, piped),
            _ => self.called_shape(func, operands, piped),
        }
    }

    /// The shape of a call, if it never is a fault.
    #[cycle(pipeline)]
    #[tactic(auto, using(crate::proofs::PipelineLemmas::calls_by))]
    fn called_shape(&self, func: Func, operands: &[Operand], piped: Option<&Shape>) -> Shaped
        ensures { IfOk result (λ s. in_context self.now called_shape func (operands_in operands.now) (shape_seen piped.entry) ≡ Some (shape_of s)) }
    {
        let kinds = self.argument_kinds(operands, piped)?;
        self.shape_by_kinds(func, kinds.as_slice())
    }

    /// The kinds of which the arguments of a call may be.
    #[cycle(pipeline)]
    #[tactic(auto, using(crate::proofs::PipelineLemmas::all))]
    fn argument_kinds(
        &self,
        operands: &[Operand],
        piped: Option<&Shape>,
    ) -> Result<Vec<Kinds>, Trouble>
        ensures { IfOk result (λ ks. in_context self.now argument_kinds (operands_in operands.now) (shape_seen piped.entry) ≡ Some ks.items) }
    {
        let mut kinds: Vec<Kinds> = Vec::new(self.base.alloc);
        self.put_arguments(operands, piped, &mut kinds)?;
        Ok(kinds)
    }

    /// Puts the kinds of which the arguments of a call may be, of which a piped one is the last.
    #[cycle(pipeline)]
    #[tactic(auto, using(crate::proofs::PipelineLemmas::more))]
    fn put_arguments(
        &self,
        operands: &[Operand],
        piped: Option<&Shape>,
        kinds: &mut Vec<Kinds>,
    ) -> Result<(), Trouble>
        ensures { OnOk result (option_map (λ ks. kinds.old.items ++ ks)
            (in_context self.now argument_kinds (operands_in operands.now) (shape_seen piped.entry)) ≡ Some kinds.new.items) }
    {
        match operands {
            [] => match piped {
                Some(shape) => {
                    kinds.push(kinds_of(self.base, shape))?;
                    Ok(())
                }
                None => Ok(()),
            },
            [first, others @ ..] => {
                let shape = self.operand_shape(first)?;
                kinds.push(kinds_of(self.base, &shape))?;
                self.put_arguments(others, piped, kinds)
            }
        }
    }

    /// The shape of an `or`, or else of an `and`, whose operands before these do not decide.
    #[cycle(pipeline)]
    fn junction_shape(
        &self,
        is_or: bool,
        last: &Shape,
        operands: &[Operand],
        piped: Option<&Shape>,
    ) -> Shaped
        ensures { IfOk result (λ s. in_context self.now (λ b. junction_shape b is_or) (shape_of last.now) (operands_in operands.now)
            (shape_seen piped.entry) ≡ Some (shape_of s)) }
    {
        match operands {
            [] => Ok(copy_counted(self.base, piped.unwrap_or(last))?),
            [first, rest @ ..] => {
                let shape = self.operand_shape(first)?;
                let full = fill(self.base, &shape)?;
                let passed = narrow_operand(self.base, !is_or, first, self.state)?;
                let inner = Context {
                    state: &passed,
                    ..*self
                };
                if is_or {
                    let more = inner.junction_shape(true, &shape, rest, piped)?;
                    return Ok(join(self.base, full, more)?);
                }
                let more = inner.junction_shape(false, &full, rest, piped)?;
                Ok(join(self.base, shape, more)?)
            }
        }
    }

    /// The shape of an `index`.
    #[cycle(pipeline)]
    fn indexed_shape(&self, operands: &[Operand], piped: Option<&Shape>) -> Shaped
        ensures { IfOk result (λ s. in_context self.now indexed_shape (operands_in operands.now) (shape_seen piped.entry) ≡ Some (shape_of s)) }
    {
        let [first, keys @ ..] = operands else {
            return Err(self.may_fail(Cause::NotFollowed(Func::Index)));
        };
        let shape = self.operand_shape(first)?;
        if has_kind(self.base, Kind::Blank, &shape) {
            return Err(self.may_fail(Cause::Arguments(Func::Index)));
        }
        let from = operand_origin(self.base.alloc, first, self.state)?;
        self.entry_along(keys, piped, &from, &shape)
    }

    /// The shape of what `index` gives for these keys of values of the shape, and of this provenance.
    #[cycle(pipeline)]
    fn entry_along(
        &self,
        keys: &[Operand],
        piped: Option<&Shape>,
        from: &Option<Vec<Bytes>>,
        shape: &Shape,
    ) -> Shaped
        ensures { IfOk result (λ s. in_context self.now entry_along (operands_in keys.now) (shape_seen piped.entry) (origin_of from.now)
            (shape_of shape.now) ≡ Some (shape_of s)) }
    {
        match keys {
            [] => match piped {
                Some(key) => self.entry_by(key, shape),
                None => Ok(copy_counted(self.base, shape)?),
            },
            [first, rest @ ..] => {
                let key = self.operand_shape(first)?;
                let entry = self.entry_at(first, from, &key, shape)?;
                let unknown: Option<Vec<Bytes>> = None;
                self.entry_along(rest, piped, &unknown, &entry)
            }
        }
    }

    /// What `index` gives for the value of an operand, which has this shape, of values of a provenance.
    fn entry_at(
        &self,
        operand: &Operand,
        from: &Option<Vec<Bytes>>,
        key: &Shape,
        shape: &Shape,
    ) -> Shaped
        ensures { IfOk result (λ s. entry_at (base_of self.now.base.now) (state_of self.now.state.now) (operand_of operand.now) (origin_of from.now)
            (shape_of key.now) (shape_of shape.now) ≡ Some (shape_of s)) }
    {
        if self.is_index(operand, from) {
            return self.own_entry(shape);
        }
        match key_of(operand) {
            Some(key) => index_shape(self.base, key, shape),
            None => self.entry_by(key, shape),
        }
    }

    /// Whether an operand is a variable that is an index or a key of what is at this chain.
    fn is_index(&self, operand: &Operand, from: &Option<Vec<Bytes>>) -> bool
        ensures { result ≡ is_index (state_of self.now.state.now) (operand_of operand.now) (origin_of from.now) }
    {
        let Operand::Variable { name, fields } = operand else {
            return false;
        };
        let variable = find_variable(name.as_slice(), &self.state.known);
        match (fields.as_slice(), from, variable) {
            ([], Some(path), Some(variable)) => match &variable.tie {
                Tie::Keyed(names) => is_path(names.as_slice(), path.as_slice()),
                Tie::Untied | Tie::Valued(_) => false,
            },
            _ => false,
        }
    }

    /// What `index` gives for one of the keys of a map, or for an index of an item of a list.
    fn own_entry(&self, shape: &Shape) -> Shaped
        ensures { IfOk result (λ s. own_entry (base_of self.now.base.now) (shape_of shape.now) ≡ Some (shape_of s)) }
    {
        if has_kind(self.base, Kind::Blank, shape) || has_kind(self.base, Kind::Number, shape) {
            return Err(self.may_fail(Cause::Arguments(Func::Index)));
        }
        let Visit { element, .. } = visit_of(self.base, &Binding::Unbound, shape)?;
        Ok(element)
    }

    /// What `index` gives for a key of this shape, which has to be a text.
    fn entry_by(&self, key: &Shape, shape: &Shape) -> Shaped
        ensures { IfOk result (λ s. entry_by (base_of self.now.base.now) (shape_of key.now) (shape_of shape.now) ≡ Some (shape_of s)) }
    {
        if within(self.base, key, &Shape::Texts) {
            index_shape(self.base, Key::Text, shape)
        } else {
            Err(self.may_fail(Cause::Arguments(Func::Index)))
        }
    }

    /// The shape of a `slice`.
    #[cycle(pipeline)]
    fn sliced_shape(&self, operands: &[Operand], piped: Option<&Shape>) -> Shaped
        ensures { IfOk result (λ s. in_context self.now sliced_shape (operands_in operands.now) (shape_seen piped.entry) ≡ Some (shape_of s)) }
    {
        let [first, bounds @ ..] = operands else {
            return Err(self.may_fail(Cause::NotFollowed(Func::Slice)));
        };
        let shape = self.operand_shape(first)?;
        match bounds_of(bounds, piped) {
            Some((from, to)) => part_shape(self.base, from, to, &shape),
            None => Err(self.may_fail(Cause::NotFollowed(Func::Slice))),
        }
    }

    /// The shape of a `printf`.
    #[cycle(pipeline)]
    #[tactic(auto, using(crate::proofs::PipelineLemmas::formats))]
    fn printed_shape(&self, operands: &[Operand], piped: Option<&Shape>) -> Shaped
        ensures { IfOk result (λ s. in_context self.now printed_shape (operands_in operands.now) (shape_seen piped.entry) ≡ Some (shape_of s)) }
    {
        let [first, rest @ ..] = operands else {
            return Err(self.may_fail(Cause::NotFollowed(Func::Printf)));
        };
        let Some(format) = text_of(first) else {
            return Err(self.may_fail(Cause::NotFollowed(Func::Printf)));
        };
        let kinds = self.argument_kinds(rest, piped)?;
        match printf_shape(self.base.alloc, format.as_slice(), kinds.as_slice())? {
            Some(shape) => Ok(shape),
            None => Err(self.may_fail(Cause::Arguments(Func::Printf))),
        }
    }
}
