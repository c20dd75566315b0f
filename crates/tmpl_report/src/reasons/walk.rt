//! The walk over templates that follows where their values come from in a document.

use crate::Result;
use std::alloc::AllocError;
use std::mem;
use std::str::from_utf8;
use tmpl_funcs::Func;
use tmpl_json_schema::{Document, Lost, Provenance};
use tmpl_schema::{Cause, Doubt};
use tmpl_syntax::{
    Binding, Command, Control, ControlNode, Node, NodeKind, Operand, Pipeline, Set, Tree,
};
use tmpl_values::Bytes;

/// How deep parentheses nest that are looked into: more than a file may have.
const LEVELS: usize = 1_000;

/// How deep controls nest that are visited, so that the stack suffices. Inside deeper ones no reason is found.
const MOST_CONTROLS: usize = 200;

/// How often templates are visited, until what is passed to them reaches a fixpoint.
const MOST_ROUNDS: usize = 12;

/// How many templates that are called are visited where reasons are found.
const MOST_TEMPLATES: usize = 1_000;

/// How many variables are in scope at once, and how many names are assigned, where reasons are found.
const MOST_VARIABLES: usize = 1_000;

/// A template, or a variable, and where its value comes from: none where that is not known.
#[derive(Drop)]
pub(crate) struct Holder<'w> {
    pub(crate) name: &'w [u8],
    pub(crate) provenance: Option<Provenance>,
}

/// A walk over a template.
#[derive(Drop)]
struct Walk<'w> {
    document: Document<'w>,
    name: &'w [u8],
    doubts: &'w [Doubt],
    /// For each alarm where the values come from of which it speaks: none where that is not known.
    asked: Vec<Option<Provenance>>,
    /// What is handed to templates that are called.
    handed: Vec<Holder<'w>>,
    /// Where dot comes from.
    dot: Option<Provenance>,
    /// The variables in scope, the innermost last.
    scope: Vec<Holder<'w>>,
    /// The names of variables that are assigned: nothing is known of them.
    assigned: Vec<&'w [u8]>,
    /// Whether there are more variables than are followed.
    is_crowded: bool,
}

/// A copy of where a value comes from, where that is known.
fn copy(provenance: &Option<Provenance>) -> Result<Provenance, Lost> {
    match provenance {
        Some(provenance) => Ok(provenance.clone()?),
        None => Err(Lost::Untold),
    }
}

/// What is found, or none; an error means that memory ran out.
fn if_told(found: Result<Provenance, Lost>) -> Result<Option<Provenance>> {
    match found {
        Ok(provenance) => Ok(Some(provenance)),
        Err(Lost::Untold) => Ok(None),
        Err(Lost::OutOfMemory) => Err(AllocError),
    }
}

/// Adds where a value may come from too. Gives whether that is more than was known.
fn widen(known: &mut Option<Provenance>, more: &Option<Provenance>) -> Result<bool> {
    let Some(provenance) = known else {
        return Ok(false);
    };
    let is_wider = match more {
        Some(more) => provenance.widen(more),
        None => Err(Lost::Untold),
    };
    match is_wider {
        Ok(is_wider) => Ok(is_wider),
        Err(Lost::OutOfMemory) => Err(AllocError),
        Err(Lost::Untold) => {
            *known = None;
            Ok(true)
        }
    }
}

/// What is looked for among the commands of an action.
#[derive(Clone, Copy)]
enum Subject<'w> {
    /// The values that are asked for the field of this name.
    Field(&'w [u8]),
    /// The lists of which the function needs this many items.
    Items(Func, u64),
}

/// What the alarm of this index speaks of.
#[derive(Clone, Copy)]
struct Topic<'w> {
    index: usize,
    subject: Subject<'w>,
}

impl<'w> Topic<'w> {
    /// What a cause speaks of.
    fn of(index: usize, cause: &'w Cause) -> Option<Topic<'w>> {
        let subject = match cause {
            Cause::Absent(name) | Cause::NoFields(name, _) => Subject::Field(name.as_slice()),
            Cause::FewItems(func, count) => Subject::Items(*func, *count),
            _ => return None,
        };
        Some(Topic { index, subject })
    }
}

/// Whether an operand is this number.
fn is_number(operand: &Operand, number: u64) -> bool {
    matches!(operand, Operand::Number(value) if u64::try_from(*value) == Ok(number))
}

/// Where lists come from, if they are no parts of others.
fn if_whole(found: Result<Provenance, Lost>) -> Result<Provenance, Lost> {
    let provenance = found?;
    if provenance.is_whole {
        Ok(provenance)
    } else {
        Err(Lost::Untold)
    }
}

impl<'w> Walk<'w> {
    /// Where the value of a variable comes from.
    fn variable(&self, name: &[u8]) -> Result<Provenance, Lost> {
        if self.is_crowded || self.assigned.iter().any(|other| *other == name) {
            return Err(Lost::Untold);
        }
        match self.scope.iter().rev().find(|holder| holder.name == name) {
            Some(holder) => copy(&holder.provenance),
            None => Err(Lost::Untold),
        }
    }

    /// Where the field of the field of .. comes from, by these names.
    fn chain(&self, start: Provenance, names: &[Bytes]) -> Result<Provenance, Lost> {
        let mut provenance = start;
        for name in names {
            provenance = self.field(&provenance, name.as_slice())?;
        }
        Ok(provenance)
    }

    fn field(&self, provenance: &Provenance, name: &[u8]) -> Result<Provenance, Lost> {
        match from_utf8(name) {
            Ok(name) => self.document.field(provenance, name),
            Err(_) => Err(Lost::Untold),
        }
    }

    /// Where what `index` gives for a key comes from.
    fn entry(&self, provenance: &Provenance, key: &Operand) -> Result<Provenance, Lost> {
        match key {
            Operand::Text(key) => self.field(provenance, key.as_slice()),
            Operand::Number(_) => self.document.elements(provenance),
            _ => Err(Lost::Untold),
        }
    }

    /// Where the value of a pipeline comes from.
    #[cycle(value)]
    fn pipeline(&self, levels: usize, commands: &[Command]) -> Result<Provenance, Lost> {
        if levels == 0 {
            return Err(Lost::Untold);
        }
        let fewer = levels - 1;
        match commands {
            [command] => self.command(fewer, command.operands.as_slice()),
            _ => Err(Lost::Untold),
        }
    }

    /// Where the value of a command comes from.
    #[cycle(value)]
    fn command(&self, levels: usize, operands: &[Operand]) -> Result<Provenance, Lost> {
        match operands {
            [operand] => self.operand(levels, operand),
            [Operand::Function(Func::Index), value, keys @ ..] => {
                let mut provenance = self.operand(levels, value)?;
                for key in keys {
                    provenance = self.entry(&provenance, key)?;
                }
                Ok(provenance)
            }
            [Operand::Function(Func::Slice), value, ..] => {
                let mut provenance = self.operand(levels, value)?;
                provenance.is_whole = false;
                Ok(provenance)
            }
            _ => Err(Lost::Untold),
        }
    }

    /// Where the value of an operand comes from.
    #[cycle(value)]
    fn operand(&self, levels: usize, operand: &Operand) -> Result<Provenance, Lost> {
        match operand {
            Operand::Dot => copy(&self.dot),
            Operand::Fields(fields) => self.chain(copy(&self.dot)?, fields.as_slice()),
            Operand::Variable { name, fields } => {
                self.chain(self.variable(name.as_slice())?, fields.as_slice())
            }
            Operand::Group { commands, fields } => self.chain(
                self.pipeline(levels, commands.as_slice())?,
                fields.as_slice(),
            ),
            _ => Err(Lost::Untold),
        }
    }

    /// Notes where a value comes from of which the alarm of this index speaks.
    fn ask(&mut self, index: usize, found: Result<Provenance, Lost>) -> Result<()> {
        let found = if_told(found)?;
        if let Some(asked) = self.asked.get_mut(index) {
            widen(asked, &found)?;
        }
        Ok(())
    }

    /// Looks for what an alarm speaks of among the fields of a value.
    fn look_at(
        &mut self,
        topic: Topic<'_>,
        start: Result<Provenance, Lost>,
        names: &[Bytes],
    ) -> Result<()> {
        let Subject::Field(wanted) = topic.subject else {
            return Ok(());
        };
        let mut provenance = start;
        for name in names {
            let before = provenance;
            provenance = match &before {
                Ok(provenance) => self.field(provenance, name.as_slice()),
                Err(lost) => Err(*lost),
            };
            if name.as_slice() == wanted {
                self.ask(topic.index, before)?;
            }
        }
        Ok(())
    }

    /// Looks for the list of which a key of `index` needs this many items.
    fn look_along(
        &mut self,
        index: usize,
        count: u64,
        start: Result<Provenance, Lost>,
        keys: &[Operand],
    ) -> Result<()> {
        let mut provenance = start;
        for key in keys {
            let list = provenance;
            provenance = match &list {
                Ok(provenance) => self.entry(provenance, key),
                Err(lost) => Err(*lost),
            };
            if is_number(key, count.saturating_sub(1)) {
                self.ask(index, if_whole(list))?;
            }
        }
        Ok(())
    }

    /// Looks whether a command calls the function that needs this many items of a list.
    fn look_call(&mut self, levels: usize, topic: Topic<'_>, operands: &[Operand]) -> Result<()> {
        let (Subject::Items(func, count), [Operand::Function(called), list, rest @ ..]) = (
            topic.subject,
            operands,
        ) else {
            return Ok(());
        };
        if *called != func {
            return Ok(());
        }
        let start = self.operand(levels, list);
        match rest {
            keys if func == Func::Index => self.look_along(topic.index, count, start, keys),
            [.., last] if is_number(last, count) => self.ask(topic.index, if_whole(start)),
            _ => Ok(()),
        }
    }

    /// Looks for what an alarm speaks of in commands.
    #[cycle(look)]
    fn look_into(&mut self, levels: usize, topic: Topic<'_>, commands: &[Command]) -> Result<()> {
        if levels == 0 {
            return self.ask(topic.index, Err(Lost::Untold));
        }
        let fewer = levels - 1;
        for command in commands {
            let operands = command.operands.as_slice();
            self.look_call(fewer, topic, operands)?;
            for operand in operands {
                self.look_operand(fewer, topic, operand)?;
            }
        }
        Ok(())
    }

    /// Looks for what an alarm speaks of in an operand.
    #[cycle(look)]
    fn look_operand(&mut self, levels: usize, topic: Topic<'_>, operand: &Operand) -> Result<()> {
        let (start, fields) = match operand {
            Operand::Fields(fields) => (copy(&self.dot), fields),
            Operand::Variable { name, fields } => (self.variable(name.as_slice()), fields),
            Operand::Group { commands, fields } => {
                self.look_into(levels, topic, commands.as_slice())?;
                (self.pipeline(levels, commands.as_slice()), fields)
            }
            _ => return Ok(()),
        };
        self.look_at(topic, start, fields.as_slice())
    }

    /// Looks for what the alarms speak of in the pipeline of an action that begins after this many bytes, which may be
    /// that of a range. Gives where its value comes from.
    fn value(
        &mut self,
        at: usize,
        pipeline: &Pipeline,
        is_range: bool,
    ) -> Result<Option<Provenance>> {
        let commands = pipeline.commands.as_slice();
        let doubts = self.doubts;
        for (index, doubt) in doubts.iter().enumerate() {
            if doubt.start != at || doubt.template.as_slice() != self.name {
                continue;
            }
            if is_range && matches!(doubt.cause, Cause::Range(_)) {
                let found = self.pipeline(LEVELS, commands);
                self.ask(index, found)?;
            } else if let Some(topic) = Topic::of(index, &doubt.cause) {
                self.look_into(LEVELS, topic, commands)?;
            }
        }
        if_told(self.pipeline(LEVELS, commands))
    }

    /// Puts a variable into scope.
    fn declare(&mut self, name: &'w [u8], provenance: &Option<Provenance>) -> Result<()> {
        if self.scope.len() >= MOST_VARIABLES {
            self.is_crowded = true;
            return Ok(());
        }
        let provenance = provenance.clone()?;
        Ok(self.scope.push(Holder { name, provenance })?)
    }

    /// Binds the variables of a header to a value.
    fn bind(&mut self, binding: &'w Binding, provenance: &Option<Provenance>) -> Result<()> {
        match binding {
            Binding::Declare(name) => self.declare(name.as_slice(), provenance),
            Binding::DeclarePair(pair) => {
                self.declare(pair.key.as_slice(), &None)?;
                self.declare(pair.element.as_slice(), provenance)
            }
            Binding::Unbound | Binding::Assign(_) => Ok(()),
        }
    }

    /// Visits nodes, and forgets the variables that they declare.
    #[cycle(nodes)]
    fn nodes(&mut self, levels: usize, nodes: &'w [Node]) -> Result<()> {
        if levels == 0 {
            return Ok(());
        }
        let fewer = levels - 1;
        let mark = self.scope.len();
        for node in nodes {
            self.node(fewer, node)?;
        }
        self.scope.truncate(mark);
        Ok(())
    }

    /// Visits a node.
    #[cycle(nodes)]
    fn node(&mut self, levels: usize, node: &'w Node) -> Result<()> {
        match &node.what {
            NodeKind::Text(_) | NodeKind::Break | NodeKind::Continue => Ok(()),
            NodeKind::Action(header) => {
                let provenance = self.value(node.start, &header.pipeline, false)?;
                self.bind(&header.binding, &provenance)
            }
            NodeKind::Control(control) => self.control(levels, node.start, control),
            NodeKind::Template(name, pipeline) => {
                let provenance = match pipeline {
                    Some(pipeline) => self.value(node.start, pipeline, false)?,
                    None => None,
                };
                let name = name.as_slice();
                Ok(self.handed.push(Holder { name, provenance })?)
            }
        }
    }

    /// Visits a control.
    #[cycle(nodes)]
    fn control(&mut self, levels: usize, start: usize, control: &'w ControlNode) -> Result<()> {
        let mark = self.scope.len();
        let is_range = control.control == Control::Range;
        let value = self.value(start, &control.header.pipeline, is_range)?;
        let inside = match &value {
            Some(provenance) if is_range => if_told(self.document.elements(provenance))?,
            _ => value.clone()?,
        };
        self.bind(&control.header.binding, &inside)?;
        let dot = match control.control {
            Control::If => self.dot.clone()?,
            _ => inside.clone()?,
        };
        let before = mem::replace(&mut self.dot, dot);
        self.nodes(levels, control.body.as_slice())?;
        self.dot = before;
        self.scope.truncate(mark);
        let outside = if is_range { None } else { inside };
        self.bind(&control.header.binding, &outside)?;
        self.nodes(levels, control.other.as_slice())?;
        self.scope.truncate(mark);
        Ok(())
    }
}

/// Adds a name that is not there yet, up to as many as are followed.
fn add_name<'w>(name: &'w [u8], names: &mut Vec<&'w [u8]>) -> Result<()> {
    if names.len() < MOST_VARIABLES && !names.iter().any(|other| *other == name) {
        names.push(name)?;
    }
    Ok(())
}

/// Adds the names of the variables that nodes assign.
fn add_assigned<'w>(levels: usize, nodes: &'w [Node], names: &mut Vec<&'w [u8]>) -> Result<()> {
    if levels == 0 {
        return Ok(());
    }
    let fewer = levels - 1;
    for node in nodes {
        let header = match &node.what {
            NodeKind::Action(header) => header,
            NodeKind::Control(control) => {
                add_assigned(fewer, control.body.as_slice(), names)?;
                add_assigned(fewer, control.other.as_slice(), names)?;
                &control.header
            }
            _ => continue,
        };
        if let Binding::Assign(name) = &header.binding {
            add_name(name.as_slice(), names)?;
        }
    }
    Ok(())
}

/// Visits a template that is passed this. Gives what it passes to others.
fn walk_tree<'w>(
    document: Document<'w>,
    doubts: &'w [Doubt],
    asked: Vec<Option<Provenance>>,
    dot: &Holder<'w>,
    tree: &'w Tree,
) -> Result<Walk<'w>> {
    let alloc = document.alloc;
    let mut assigned = Vec::new(alloc);
    add_assigned(MOST_CONTROLS, tree.nodes.as_slice(), &mut assigned)?;
    let mut walk = Walk {
        document,
        name: dot.name,
        doubts,
        asked,
        handed: Vec::new(alloc),
        dot: dot.provenance.clone()?,
        scope: Vec::new(alloc),
        is_crowded: assigned.len() >= MOST_VARIABLES,
        assigned,
    };
    walk.declare(b"", &dot.provenance)?;
    walk.nodes(MOST_CONTROLS, tree.nodes.as_slice())?;
    Ok(walk)
}

/// Notes what is handed to a template. Gives whether that is more than was known.
fn hand<'w>(dots: &mut Vec<Holder<'w>>, handed: Holder<'w>) -> Result<bool> {
    let place = dots.iter().position(|dot| dot.name == handed.name);
    let is_full = dots.len() >= MOST_TEMPLATES;
    match place.and_then(|place| dots.get_mut(place)) {
        Some(dot) => widen(&mut dot.provenance, &handed.provenance),
        None if is_full => Ok(false),
        None => {
            dots.push(handed)?;
            Ok(true)
        }
    }
}

/// Visits each template that is reached once. Gives whether more was found to be passed.
fn round<'w>(document: Document<'w>, set: &'w Set, dots: &mut Vec<Holder<'w>>) -> Result<bool> {
    let mut is_more = false;
    for index in 0..=set.len() {
        let Some(dot) = dots.get(index) else {
            break;
        };
        let Some(tree) = set.get(dot.name) else {
            continue;
        };
        let Walk { handed, .. } = walk_tree(document, &[], Vec::new(document.alloc), dot, tree)?;
        for holder in handed.into_iter() {
            is_more |= hand(dots, holder)?;
        }
    }
    Ok(is_more)
}

/// For each alarm where the values come from of which it speaks, in a run of the template of this name.
pub(crate) fn asked_of<'w>(
    document: Document<'w>,
    set: &'w Set,
    name: &'w [u8],
    doubts: &'w [Doubt],
) -> Result<Vec<Option<Provenance>>> {
    let alloc = document.alloc;
    let provenance = if_told(Provenance::of_data(alloc))?;
    let mut dots = vec![in alloc; Holder { name, provenance }]?;
    let mut asked = Vec::new(alloc);
    for rounds in 0..MOST_ROUNDS {
        if !round(document, set, &mut dots)? {
            break;
        }
        if rounds + 1 == MOST_ROUNDS {
            return Ok(asked);
        }
    }
    if dots.len() >= MOST_TEMPLATES {
        return Ok(asked);
    }
    for _ in doubts {
        asked.push(Some(Provenance::of_nothing(alloc)))?;
    }
    for dot in dots.as_slice() {
        if let Some(tree) = set.get(dot.name) {
            let Walk { asked: more, .. } = walk_tree(document, doubts, asked, dot, tree)?;
            asked = more;
        }
    }
    Ok(asked)
}
