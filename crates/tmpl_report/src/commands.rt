//! The commands of a template that a fault may be of, and what their operands are over the data.

use crate::Result;
use serde_json::Value;
use std::alloc::Global;
use std::str::from_utf8;
use tmpl_funcs::Func;
use tmpl_syntax::{Command, Control, ControlNode, Node, NodeKind, Operand, Pipeline, Set, Tree};
use tmpl_values::Bytes;

/// How deep controls and parentheses nest that are visited, so that the stack suffices.
const MOST_LEVELS: usize = 200;

/// The most items of lists that are visited.
const MOST_ITEMS: usize = 1_000;

/// What a fault speaks of.
#[derive(Clone, Copy)]
pub(crate) enum Wanted<'w> {
    /// A call of a function.
    Call(Func),
    /// A field of this name, of a value that has no fields.
    Field(&'w [u8]),
    /// A field of this name, of a map that lacks it.
    Entry(&'w [u8]),
    /// What a range visits.
    Range,
    /// A call of a template of this name.
    Template(&'w [u8]),
    /// Any action.
    Any,
}

/// An operand: with what is piped to its command, if that is one operand too.
#[derive(Clone, Copy)]
pub(crate) enum Given<'w> {
    /// A chain of fields, and the value at its end or at the place where it ends.
    Chain {
        root: Root,
        names: &'w [Bytes],
        value: &'w Value,
    },
    Number(i64),
    Text(&'w [u8]),
    Bool(bool),
    /// Anything else, or an operand of which nothing is known.
    Unknown,
}

/// Where a chain of fields begins.
#[derive(Clone, Copy)]
pub(crate) enum Root {
    Dot,
    /// The data, by `$`.
    Start,
    Parentheses,
}

/// What is found: the operands of a command, or the value that is asked for a field, in an action.
#[derive(Drop)]
pub(crate) struct Found<'w> {
    /// How many bytes of the file stand before the action.
    pub(crate) start: usize,
    pub(crate) operands: Vec<Given<'w>>,
    /// Whether a run surely gets there, if it gets to the end of what stands before.
    pub(crate) is_sure: bool,
}

/// What is known where a node stands.
#[derive(Clone, Copy)]
struct Scope<'w> {
    dot: Option<&'w Value>,
    /// Whether a run surely gets there.
    is_sure: bool,
}

impl<'w> Scope<'w> {
    /// That of what is only reached under a condition.
    fn sure_if(self, is_known: bool) -> Scope<'w> {
        Scope {
            dot: self.dot,
            is_sure: self.is_sure && is_known,
        }
    }
}

/// A search for commands in a template.
#[derive(Drop)]
struct CommandSearch<'w> {
    alloc: Global,
    line: u64,
    wanted: Wanted<'w>,
    /// Where the action begins that is visited.
    here: usize,
    /// The data with which the template starts, where that is known.
    start: Option<&'w Value>,
    /// How many items of lists may still be visited.
    items: usize,
    found: Vec<Found<'w>>,
}

/// The commands on a line of a template that a fault may be of, over data with which the template starts.
pub(crate) fn commands_at<'w>(
    alloc: Global,
    tree: &'w Tree,
    line: u64,
    wanted: Wanted<'w>,
    start: Option<&'w Value>,
) -> Result<Vec<Found<'w>>> {
    let mut search = CommandSearch {
        alloc,
        line,
        wanted,
        here: 0,
        start,
        items: MOST_ITEMS,
        found: Vec::new(alloc),
    };
    let scope = Scope {
        dot: start,
        is_sure: true,
    };
    search.visit_all(tree.nodes.as_slice(), scope, MOST_LEVELS)?;
    Ok(search.found)
}

/// What is looked for among nodes.
#[derive(Clone, Copy)]
enum Sought<'s> {
    /// A call of the template of this name.
    Call(&'s [u8]),
    /// What ends a turn of a range.
    Jump,
}

/// Whether a template of the set calls the one of this name, so that it may start with other data.
pub(crate) fn is_called(set: &Set, name: &[u8]) -> bool {
    for number in 0..set.len() {
        let (_, tree) = set.template(number);
        if has(tree.nodes.as_slice(), Sought::Call(name), MOST_LEVELS) {
            return true;
        }
    }
    false
}

/// Whether one of these nodes is what is looked for, or they nest too deep to see it.
fn has(nodes: &[Node], sought: Sought<'_>, levels: usize) -> bool {
    if levels == 0 {
        return true;
    }
    for node in nodes {
        let is_found = match (&node.what, sought) {
            (NodeKind::Template(called, _), Sought::Call(name)) => called.as_slice() == name,
            (NodeKind::Break | NodeKind::Continue, Sought::Jump) => true,
            (NodeKind::Control(control), _) => {
                has(control.body.as_slice(), sought, levels - 1)
                    || has(control.other.as_slice(), sought, levels - 1)
            }
            _ => false,
        };
        if is_found {
            return true;
        }
    }
    false
}

/// What a chain of fields comes to from a value: as far as maps have them.
pub(crate) fn value_at<'w>(start: &'w Value, names: &[Bytes]) -> Option<&'w Value> {
    let mut value = start;
    for name in names {
        value = value.get(from_utf8(name.as_slice()).ok()?)?;
    }
    Some(value)
}

/// What `index` gives for a key that is written out.
fn item_at<'w>(value: &'w Value, key: &Operand) -> Option<&'w Value> {
    match (value, key) {
        (Value::Object(_), Operand::Text(name)) => value.get(from_utf8(name.as_slice()).ok()?),
        (Value::Array(items), Operand::Number(index)) => items.get(usize::try_from(*index).ok()?),
        _ => None,
    }
}

/// Whether a value counts as true in a condition.
fn is_true(value: &Value) -> bool {
    match value {
        Value::Null => false,
        Value::Bool(is_true) => *is_true,
        Value::Number(number) => number.as_i64() != Some(0),
        Value::String(text) => !text.is_empty(),
        Value::Array(items) => !items.is_empty(),
        Value::Object(members) => !members.is_empty(),
    }
}

/// The names of the fields that an operand asks for.
fn fields_of(operand: &Operand) -> &[Bytes] {
    match operand {
        Operand::Fields(fields)
        | Operand::Variable { fields, .. }
        | Operand::Group { fields, .. } => fields.as_slice(),
        _ => &[],
    }
}

/// The only operand of a command, if it has one.
fn only_operand(command: &Command) -> Option<&Operand> {
    match command.operands.as_slice() {
        [operand] => Some(operand),
        _ => None,
    }
}

impl<'w> CommandSearch<'w> {
    /// Visits nodes.
    #[cycle(nodes)]
    fn visit_all(&mut self, nodes: &'w [Node], scope: Scope<'w>, levels: usize) -> Result<()> {
        if levels == 0 {
            return Ok(());
        }
        for node in nodes {
            self.visit(node, scope, levels - 1)?;
        }
        Ok(())
    }

    /// Visits a node.
    #[cycle(nodes)]
    fn visit(&mut self, node: &'w Node, scope: Scope<'w>, levels: usize) -> Result<()> {
        if node.line == self.line {
            self.here = node.start;
            self.visit_here(node, scope)?;
        }
        let NodeKind::Control(control) = &node.what else {
            return Ok(());
        };
        let commands = control.header.pipeline.commands.as_slice();
        let value = self.value(commands, scope, MOST_LEVELS);
        match (control.control, value) {
            (Control::Range, Some(Value::Array(items))) => {
                self.visit_items(control, items.as_slice(), scope, levels)
            }
            _ => self.visit_parts(control, value, scope, levels),
        }
    }

    /// Visits the body of a range for each item of a list, or its else part.
    #[cycle(nodes)]
    fn visit_items(
        &mut self,
        control: &'w ControlNode,
        items: &'w [Value],
        scope: Scope<'w>,
        levels: usize,
    ) -> Result<()> {
        if items.is_empty() {
            return self.visit_all(control.other.as_slice(), scope, levels);
        }
        let nodes = control.body.as_slice();
        let inside = scope.sure_if(!has(nodes, Sought::Jump, MOST_LEVELS));
        for item in items {
            let dot = if self.items > 0 { Some(item) } else { None };
            self.visit_all(nodes, Scope { dot, ..inside }, levels)?;
            if self.items == 0 {
                return Ok(());
            }
            self.items -= 1;
        }
        Ok(())
    }

    /// Visits the parts of a control of which this is the value, where it is known: one of them, or each that may be.
    #[cycle(nodes)]
    fn visit_parts(
        &mut self,
        control: &'w ControlNode,
        value: Option<&'w Value>,
        scope: Scope<'w>,
        levels: usize,
    ) -> Result<()> {
        let is_true = value.map(is_true);
        let outside = scope.sure_if(is_true.is_some());
        let dot = match control.control {
            Control::If => scope.dot,
            Control::With => value,
            Control::Range => None,
        };
        if is_true != Some(false) {
            self.visit_all(control.body.as_slice(), Scope { dot, ..outside }, levels)?;
        }
        if is_true != Some(true) {
            self.visit_all(control.other.as_slice(), outside, levels)?;
        }
        Ok(())
    }

    /// Visits a node of the line.
    fn visit_here(&mut self, node: &'w Node, scope: Scope<'w>) -> Result<()> {
        let none = Vec::new(self.alloc);
        let pipeline = match (self.wanted, &node.what) {
            (_, NodeKind::Text(_)) => return Ok(()),
            (Wanted::Any, _) => return self.add(none, scope),
            (Wanted::Template(wanted), NodeKind::Template(name, _)) if name.as_slice() == wanted =>
                {
                    return self.add(none, scope);
                }
            (Wanted::Range, NodeKind::Control(control)) if control.control == Control::Range => {
                return self.visit_range(&control.header.pipeline, scope);
            }
            (_, NodeKind::Action(header)) => &header.pipeline,
            (_, NodeKind::Template(_, Some(pipeline))) => pipeline,
            (_, NodeKind::Control(control)) => &control.header.pipeline,
            _ => return Ok(()),
        };
        self.commands(pipeline.commands.as_slice(), scope, MOST_LEVELS)
    }

    /// Adds what a range visits.
    fn visit_range(&mut self, pipeline: &'w Pipeline, scope: Scope<'w>) -> Result<()> {
        let mut operands = Vec::new(self.alloc);
        if let [command] = pipeline.commands.as_slice() {
            if let Some(operand) = only_operand(command) {
                operands.push(self.give(operand, scope))?;
            }
        }
        self.add(operands, scope)
    }

    /// Visits the commands of a pipeline.
    #[cycle(commands)]
    fn commands(&mut self, commands: &'w [Command], scope: Scope<'w>, levels: usize) -> Result<()> {
        if levels == 0 {
            return Ok(());
        }
        let mut piped: Option<Given<'w>> = None;
        for command in commands {
            self.visit_command(command, piped, scope)?;
            self.operands(command, scope, levels - 1)?;
            piped = Some(match (piped, only_operand(command)) {
                (None, Some(operand)) => self.give(operand, scope),
                _ => Given::Unknown,
            });
        }
        Ok(())
    }

    /// Visits what stands in parentheses among the operands of a command, and the fields that are wanted. Of `and` and `or`
    /// not each operand is evaluated.
    #[cycle(commands)]
    fn operands(&mut self, command: &'w Command, scope: Scope<'w>, levels: usize) -> Result<()> {
        let operands = command.operands.as_slice();
        let is_junction = matches!(
            operands.first(),
            Some(Operand::Function(Func::And | Func::Or))
        );
        let scope = scope.sure_if(!is_junction);
        for operand in operands {
            if let Operand::Group { commands, .. } = operand {
                self.commands(commands.as_slice(), scope, levels)?;
            }
            self.visit_fields(operand, scope)?;
        }
        Ok(())
    }

    /// Looks whether a command is the one that is wanted.
    fn visit_command(
        &mut self,
        command: &'w Command,
        piped: Option<Given<'w>>,
        scope: Scope<'w>,
    ) -> Result<()> {
        let (Wanted::Call(wanted), [Operand::Function(func), rest @ ..]) = (
            self.wanted,
            command.operands.as_slice(),
        ) else {
            return Ok(());
        };
        if *func != wanted {
            return Ok(());
        }
        let mut operands = Vec::new(self.alloc);
        for operand in rest {
            operands.push(self.give(operand, scope))?;
        }
        if let Some(piped) = piped {
            operands.push(piped)?;
        }
        self.add(operands, scope)
    }

    /// Looks whether a field of an operand is the one that is wanted, and adds the value that is asked for it.
    fn visit_fields(&mut self, operand: &'w Operand, scope: Scope<'w>) -> Result<()> {
        let (Wanted::Field(wanted) | Wanted::Entry(wanted)) = self.wanted else {
            return Ok(());
        };
        let names = fields_of(operand);
        for index in 0..names.len() {
            if names[index].as_slice() == wanted {
                let given = self.before(operand, names.get(..index).unwrap_or(&[]), scope);
                self.add(vec![in self.alloc; given]?, scope)?;
            }
        }
        Ok(())
    }

    /// What is known of the value to which these fields of an operand lead.
    fn before(&self, operand: &'w Operand, names: &'w [Bytes], scope: Scope<'w>) -> Given<'w> {
        match operand {
            Operand::Dot | Operand::Fields(_) => chain(Root::Dot, names, scope.dot),
            Operand::Variable { name, .. } if name.as_slice().is_empty() => {
                chain(Root::Start, names, self.start)
            }
            Operand::Group { commands, .. } => {
                let value = self.value(commands.as_slice(), scope, MOST_LEVELS);
                chain(Root::Parentheses, names, value)
            }
            _ => Given::Unknown,
        }
    }

    /// What is known of an operand.
    fn give(&self, operand: &'w Operand, scope: Scope<'w>) -> Given<'w> {
        match operand {
            Operand::Number(number) => Given::Number(*number),
            Operand::Text(text) => Given::Text(text.as_slice()),
            Operand::Bool(is_true) => Given::Bool(*is_true),
            _ => self.before(operand, fields_of(operand), scope),
        }
    }

    /// The value of a pipeline of a chain of fields, or of `index` with keys that are written out, where it is known.
    fn value(&self, commands: &'w [Command], scope: Scope<'w>, levels: usize) -> Option<&'w Value> {
        let [command] = commands else {
            return None;
        };
        let (operand, keys): (&'w Operand, &'w [Operand]) = match command.operands.as_slice() {
            [operand] => (operand, &[]),
            [Operand::Function(Func::Index), operand, keys @ ..] => (operand, keys),
            _ => return None,
        };
        let start = match operand {
            Operand::Dot | Operand::Fields(_) => scope.dot,
            Operand::Variable { name, .. } if name.as_slice().is_empty() => self.start,
            Operand::Group { commands, .. } if levels > 0 => {
                self.value(commands.as_slice(), scope, levels - 1)
            }
            _ => None,
        };
        let mut value = value_at(start?, fields_of(operand))?;
        for key in keys {
            value = item_at(value, key)?;
        }
        Some(value)
    }

    /// Adds a command.
    fn add(&mut self, operands: Vec<Given<'w>>, scope: Scope<'w>) -> Result<()> {
        Ok(
            self.found.push(Found {
                start: self.here,
                operands,
                is_sure: scope.is_sure,
            })?,
        )
    }
}

/// What is known of a chain of fields from a value.
fn chain<'w>(root: Root, names: &'w [Bytes], start: Option<&'w Value>) -> Given<'w> {
    match start.and_then(|start| value_at(start, names)) {
        Some(value) => Given::Chain { root, names, value },
        None => Given::Unknown,
    }
}
