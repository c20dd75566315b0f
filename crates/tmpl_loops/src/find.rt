//! The parts of copy loops, found in trees by the form of their nodes.
#![tactic(auto, using(tmpl_grammar::proofs::ViewLemmas::group_seen))]

ghost use Rattle.std.specs.Prelude.{◌≡◌, ◌∷◌, [], false, map};
ghost use Rattle.std.specs.Option.{option_map};
ghost use Rattle.std.specs.Str.{bytes_eq};
ghost use Rattle.tmpl_grammar.specs.View.{commands_in, operand_of, operands_in};
ghost use Rattle.tmpl_syntax.specs.View.{control_of, node_of, nodes_in};
ghost use Rattle.tmpl_loops.specs.Form.{are_all_seen, are_seen, are_variables, call_in, call_of, indexes, is_seen, is_variable, is_yes, lone, slices};
ghost use Rattle.tmpl_loops.specs.computed.Find.{after_texts, are_apart, assigns, begins, counts, declares, differ};
ghost use Rattle.tmpl_loops.specs.computed.Find.{first_assigned, first_begun, first_byte, first_declared, first_ended, first_range, ifs, is_call, is_end, is_rest, is_wanted};
ghost use Rattle.tmpl_loops.specs.computed.Find.{is_zero, negates, parts_after, parts_of, ranges, shows, start_of};
ghost use Rattle.tmpl_loops.specs.computed.View.{parts_seen, start_seen, wanted_of};

use tmpl_funcs::Func;
use tmpl_grammar::{Binding, Command, Operand};
use tmpl_syntax::{Control, ControlNode, Node, NodeKind};

/// The call that is a whole pipeline: its function and operands.
fn call_in(commands: &[Command]) -> Option<(Func, &[Operand])>
    ensures { option_map (λ c. (c.0, operands_in c.1.now)) result ≡ call_in (commands_in commands.now) }
{
    match commands {
        [] => None,
        [only, rest @ ..] => match rest {
            [] => call_of(only.operands.as_slice()),
            [_, _more @ ..] => None,
        },
    }
}

/// The call that a command is.
fn call_of(operands: &[Operand]) -> Option<(Func, &[Operand])>
    ensures { option_map (λ c. (c.0, operands_in c.1.now)) result ≡ call_of (operands_in operands.now) }
{
    match operands {
        [] => None,
        [first, rest @ ..] => match first {
            Operand::Function(func) => Some((*func, rest)),
            _ => None,
        },
    }
}

/// The operand that is a whole pipeline.
fn lone(commands: &[Command]) -> Option<&Operand>
    ensures { option_map (λ o. operand_of o.now) result ≡ lone (commands_in commands.now) }
{
    match commands {
        [] => None,
        [only, rest @ ..] => match rest {
            [] => match only.operands.as_slice() {
                [] => None,
                [first, others @ ..] => match others {
                    [] => Some(first),
                    [_, _more @ ..] => None,
                },
            },
            [_, _more @ ..] => None,
        },
    }
}

/// Whether an operand is this variable.
fn is_variable(name: &[u8], operand: &Operand) -> bool
    ensures { result ≡ is_variable name.now (operand_of operand.now) }
{
    match operand {
        Operand::Variable {
            name: found,
            fields,
        } => match fields.as_slice() {
            [] => name == found.as_slice(),
            [_, _more @ ..] => false,
        },
        _ => false,
    }
}

/// Whether operands are these variables.
fn are_variables(names: &[&[u8]], operands: &[Operand]) -> bool
    ensures { result ≡ are_variables (map (λ n. n.now) names.now) (operands_in operands.now) }
{
    match names {
        [] => match operands {
            [] => true,
            [_, _more @ ..] => false,
        },
        [name, more @ ..] => match operands {
            [] => false,
            [first, rest @ ..] => is_variable(name, first) && are_variables(more, rest),
        },
    }
}

/// Whether a pipeline calls `len` with this variable.
fn counts(text: &[u8], commands: &[Command]) -> bool
    ensures { result ≡ is_call (counts (text.now ∷ [])) (commands_in commands.now) }
{
    match call_in(commands) {
        Some((func, operands)) => match func {
            Func::Len => are_variables(&[text], operands),
            _ => false,
        },
        None => false,
    }
}

/// Whether a pipeline calls `not` with this variable.
fn negates(new: &[u8], commands: &[Command]) -> bool
    ensures { result ≡ is_call (negates (new.now ∷ [])) (commands_in commands.now) }
{
    match call_in(commands) {
        Some((func, operands)) => match func {
            Func::Not => are_variables(&[new], operands),
            _ => false,
        },
        None => false,
    }
}

/// Whether a pipeline calls `index` with these variables.
fn indexes(text: &[u8], index: &[u8], commands: &[Command]) -> bool
    ensures { result ≡ is_call (indexes (text.now ∷ index.now ∷ [])) (commands_in commands.now) }
{
    match call_in(commands) {
        Some((func, operands)) => match func {
            Func::Index => are_variables(&[text, index], operands),
            _ => false,
        },
        None => false,
    }
}

/// Whether a pipeline calls `slice` with these variables.
pub fn slices(names: &[&[u8]], commands: &[Command]) -> bool
    ensures { result ≡ is_call (slices (map (λ n. n.now) names.now)) (commands_in commands.now) }
{
    match call_in(commands) {
        Some((func, operands)) => match func {
            Func::Slice => are_variables(names, operands),
            _ => false,
        },
        None => false,
    }
}

/// Whether an operand is `0`.
fn is_zero(operand: &Operand) -> bool
    ensures { result ≡ is_zero (operand_of operand.now) }
{
    match operand {
        Operand::Number(number) => {
            let number = *number;
            if number < 0 {
                return false;
            }
            number as u64 == 0
        }
        _ => false,
    }
}

/// What an operand is held to that is a whole pipeline.
#[derive(Clone, Copy)]
enum Wanted<'w> {
    Dot,
    Zero,
    /// `false`
    No,
    /// The variable of this name.
    Variable(&'w [u8]),
}

/// Whether a pipeline is an operand that is wanted.
fn is_wanted(wanted: Wanted<'_>, commands: &[Command]) -> bool
    ensures { result ≡ is_wanted (wanted_of wanted.entry) (lone (commands_in commands.now)) }
{
    match lone(commands) {
        None => false,
        Some(operand) => match wanted {
            Wanted::Dot => matches!(operand, Operand::Dot),
            Wanted::Zero => is_zero(operand),
            Wanted::No => match operand {
                Operand::Bool(it) => !*it,
                _ => false,
            },
            Wanted::Variable(name) => is_variable(name, operand),
        },
    }
}

/// The name and the pipeline of a variable that an action declares.
#[tactic(auto, using(tmpl_syntax::proofs::ViewLemmas::controls))]
fn declares(node: &Node) -> Option<(&[u8], &[Command])>
    ensures { option_map (λ d. (d.0.now, commands_in d.1.now)) result ≡ declares (node_of node.now).what }
{
    match &node.what {
        NodeKind::Action(header) => match &header.binding {
            Binding::Declare(name) => Some((name.as_slice(), header.pipeline.commands.as_slice())),
            Binding::Unbound | Binding::Assign(_) | Binding::DeclarePair(_) => None,
        },
        NodeKind::Text(_) | NodeKind::Control(_) | NodeKind::Break => None,
        NodeKind::Continue | NodeKind::Template(_, _) => None,
    }
}

/// .. and of one to which it assigns.
#[tactic(auto, using(tmpl_syntax::proofs::ViewLemmas::controls))]
fn assigns(node: &Node) -> Option<(&[u8], &[Command])>
    ensures { option_map (λ d. (d.0.now, commands_in d.1.now)) result ≡ assigns (node_of node.now).what }
{
    match &node.what {
        NodeKind::Action(header) => match &header.binding {
            Binding::Assign(name) => Some((name.as_slice(), header.pipeline.commands.as_slice())),
            Binding::Unbound | Binding::Declare(_) | Binding::DeclarePair(_) => None,
        },
        NodeKind::Text(_) | NodeKind::Control(_) | NodeKind::Break => None,
        NodeKind::Continue | NodeKind::Template(_, _) => None,
    }
}

/// The pipeline whose value an action writes.
#[tactic(auto, using(tmpl_syntax::proofs::ViewLemmas::controls))]
fn shows(node: &Node) -> Option<&[Command]>
    ensures { option_map (λ p. commands_in p.now) result ≡ shows (node_of node.now).what }
{
    match &node.what {
        NodeKind::Action(header) => match &header.binding {
            Binding::Unbound => Some(header.pipeline.commands.as_slice()),
            Binding::Assign(_) | Binding::Declare(_) | Binding::DeclarePair(_) => None,
        },
        NodeKind::Text(_) | NodeKind::Control(_) | NodeKind::Break => None,
        NodeKind::Continue | NodeKind::Template(_, _) => None,
    }
}

/// The pipeline and the body of an `if` that has no other part.
#[tactic(auto, using(tmpl_syntax::proofs::ViewLemmas::controls))]
fn if_in(control: &ControlNode) -> Option<(&[Command], &[Node])>
    ensures { option_map (λ b. (commands_in b.0.now, nodes_in b.1.now)) result ≡ ifs (control_of control.now) }
{
    match control.other.as_slice() {
        [] => {}
        [_, _more @ ..] => return None,
    }
    match control.control {
        Control::If => match &control.header.binding {
            Binding::Unbound => Some((
                control.header.pipeline.commands.as_slice(),
                control.body.as_slice(),
            )),
            Binding::Assign(_) | Binding::Declare(_) | Binding::DeclarePair(_) => None,
        },
        Control::With | Control::Range => None,
    }
}

/// .. where a node is one.
fn ifs(node: &Node) -> Option<(&[Command], &[Node])>
    ensures { option_map (λ b. (commands_in b.0.now, nodes_in b.1.now)) result ≡ ifs (node_of node.now).what }
{
    match &node.what {
        NodeKind::Control(control) => if_in(control),
        _ => None,
    }
}

/// The variable, the pipeline and the body of a range with one variable that has no other part.
#[tactic(auto, using(tmpl_syntax::proofs::ViewLemmas::controls))]
fn range_in(control: &ControlNode) -> Option<(&[u8], &[Command], &[Node])>
    ensures { option_map (λ r. ((r.0.now, commands_in r.1.now), nodes_in r.2.now)) result ≡ ranges (control_of control.now) }
{
    match control.other.as_slice() {
        [] => {}
        [_, _more @ ..] => return None,
    }
    match control.control {
        Control::Range => match &control.header.binding {
            Binding::Declare(name) => Some((
                name.as_slice(),
                control.header.pipeline.commands.as_slice(),
                control.body.as_slice(),
            )),
            Binding::Unbound | Binding::Assign(_) | Binding::DeclarePair(_) => None,
        },
        Control::With | Control::If => None,
    }
}

/// .. where a node is one.
fn ranges(node: &Node) -> Option<(&[u8], &[Command], &[Node])>
    ensures { option_map (λ r. ((r.0.now, commands_in r.1.now), nodes_in r.2.now)) result ≡ ranges (node_of node.now).what }
{
    match &node.what {
        NodeKind::Control(control) => range_in(control),
        _ => None,
    }
}

/// The variable that the first node declares by what is wanted, and the nodes after it.
fn first_declared<'t>(wanted: Wanted<'_>, nodes: &'t [Node]) -> Option<(&'t [u8], &'t [Node])>
    ensures { option_map (λ d. (d.0.now, nodes_in d.1.now)) result
        ≡ first_declared (wanted_of wanted.entry) (nodes_in nodes.now) }
{
    match nodes {
        [] => None,
        [first, rest @ ..] => match declares(first) {
            Some((name, commands)) => {
                if is_wanted(wanted, commands) {
                    Some((name, rest))
                } else {
                    None
                }
            }
            None => None,
        },
    }
}

/// The nodes after texts.
#[tactic(auto, using(tmpl_syntax::proofs::ViewLemmas::controls))]
pub fn after_texts(nodes: &[Node]) -> &[Node]
    ensures { nodes_in result.now ≡ after_texts (nodes_in nodes.now) }
{
    match nodes {
        [] => nodes,
        [first, rest @ ..] => match &first.what {
            NodeKind::Text(_) => after_texts(rest),
            NodeKind::Action(_) | NodeKind::Control(_) | NodeKind::Break => nodes,
            NodeKind::Continue | NodeKind::Template(_, _) => nodes,
        },
    }
}

/// How a loop starts: the variables of the text, of where the bytes begin that are still to be written, and of whether
/// they begin anew, and the nodes after these and texts.
#[derive(Clone, Copy)]
struct Start<'t> {
    text: &'t [u8],
    from: &'t [u8],
    new: &'t [u8],
    rest: &'t [Node],
}

/// How a loop starts.
fn start_of(nodes: &[Node]) -> Option<Start<'_>>
    ensures { option_map start_seen result ≡ start_of (nodes_in nodes.now) }
{
    let (text, rest) = first_declared(Wanted::Dot, nodes)?;
    let (from, rest) = first_declared(Wanted::Zero, rest)?;
    let (new, rest) = first_declared(Wanted::No, rest)?;
    Some(Start {
        text,
        from,
        new,
        rest: after_texts(rest),
    })
}

/// The variable of the place and the body, where the first node is the range, and the nodes after it.
fn first_range<'t>(text: &[u8], nodes: &'t [Node]) -> Option<(&'t [u8], &'t [Node], &'t [Node])>
    ensures { option_map (λ r. (r.0.now, nodes_in r.1.now, nodes_in r.2.now)) result
        ≡ first_range text.now (nodes_in nodes.now) }
{
    match nodes {
        [] => None,
        [first, rest @ ..] => match ranges(first) {
            Some((name, commands, body)) => {
                if counts(text, commands) {
                    Some((name, body, rest))
                } else {
                    None
                }
            }
            None => None,
        },
    }
}

/// The variable of the byte, where the first node declares it, and the nodes after it.
fn first_byte<'t>(text: &[u8], index: &[u8], nodes: &'t [Node]) -> Option<(&'t [u8], &'t [Node])>
    ensures { option_map (λ d. (d.0.now, nodes_in d.1.now)) result
        ≡ first_byte text.now index.now (nodes_in nodes.now) }
{
    match nodes {
        [] => None,
        [first, rest @ ..] => match declares(first) {
            Some((name, commands)) => {
                if indexes(text, index, commands) {
                    Some((name, rest))
                } else {
                    None
                }
            }
            None => None,
        },
    }
}

/// The nodes after the first, where that assigns to the variable what is wanted.
fn first_assigned<'t>(name: &[u8], wanted: Wanted<'_>, nodes: &'t [Node]) -> Option<&'t [Node]>
    ensures { option_map (λ ns. nodes_in ns.now) result
        ≡ first_assigned name.now (wanted_of wanted.entry) (nodes_in nodes.now) }
{
    match nodes {
        [] => None,
        [first, rest @ ..] => match assigns(first) {
            Some((found, commands)) => {
                if found == name && is_wanted(wanted, commands) {
                    Some(rest)
                } else {
                    None
                }
            }
            None => None,
        },
    }
}

/// Whether there are no nodes.
pub fn is_end(nodes: &[Node]) -> bool
    ensures { result ≡ is_end (nodes_in nodes.now) }
{
    match nodes {
        [] => true,
        [_, _more @ ..] => false,
    }
}

/// Whether these are `{{$from = $i}}{{$is_new = false}}`.
fn begins(from: &[u8], new: &[u8], index: &[u8], nodes: &[Node]) -> bool
    ensures { result ≡ begins from.now new.now index.now (nodes_in nodes.now) }
{
    match first_assigned(from, Wanted::Variable(index), nodes) {
        Some(rest) => match first_assigned(new, Wanted::No, rest) {
            Some(rest) => is_end(rest),
            None => false,
        },
        None => false,
    }
}

/// The nodes after the first, where that is `{{if $is_new}}{{$from = $i}}{{$is_new = false}}{{end}}`.
fn first_begun<'t>(from: &[u8], new: &[u8], index: &[u8], nodes: &'t [Node]) -> Option<&'t [Node]>
    ensures { option_map (λ ns. nodes_in ns.now) result
        ≡ first_begun from.now new.now index.now (nodes_in nodes.now) }
{
    match nodes {
        [] => None,
        [first, rest @ ..] => match ifs(first) {
            Some((commands, body)) => {
                if is_wanted(Wanted::Variable(new), commands) && begins(from, new, index, body) {
                    Some(rest)
                } else {
                    None
                }
            }
            None => None,
        },
    }
}

/// Whether these are `{{slice $text $from}}`.
fn is_rest(text: &[u8], from: &[u8], nodes: &[Node]) -> bool
    ensures { result ≡ is_rest text.now from.now (nodes_in nodes.now) }
{
    match nodes {
        [] => false,
        [first, rest @ ..] => match shows(first) {
            Some(commands) => is_end(rest) && slices(&[text, from], commands),
            None => false,
        },
    }
}

/// The nodes after the first, where that is `{{if not $is_new}}{{slice $text $from}}{{end}}`.
fn first_ended<'t>(text: &[u8], from: &[u8], new: &[u8], nodes: &'t [Node]) -> Option<&'t [Node]>
    ensures { option_map (λ ns. nodes_in ns.now) result
        ≡ first_ended text.now from.now new.now (nodes_in nodes.now) }
{
    match nodes {
        [] => None,
        [first, rest @ ..] => match ifs(first) {
            Some((commands, body)) => {
                if negates(new, commands) && is_rest(text, from, body) {
                    Some(rest)
                } else {
                    None
                }
            }
            None => None,
        },
    }
}

/// The variables of a loop, what its turns do after they begin, and what stands behind it.
#[derive(Clone, Copy)]
pub struct Parts<'t> {
    pub text: &'t [u8],
    pub from: &'t [u8],
    pub new: &'t [u8],
    pub index: &'t [u8],
    pub byte: &'t [u8],
    pub steps: &'t [Node],
    pub tail: &'t [Node],
}

/// The parts of a loop that starts so.
fn parts_after<'t>(start: &Start<'t>) -> Option<Parts<'t>>
    ensures { option_map parts_seen result ≡ parts_after (start_seen start.now) }
{
    let (index, body, behind) = first_range(start.text, start.rest)?;
    let (byte, turn) = first_byte(start.text, index, body)?;
    let steps = first_begun(start.from, start.new, index, turn)?;
    let tail = first_ended(start.text, start.from, start.new, behind)?;
    Some(Parts {
        text: start.text,
        from: start.from,
        new: start.new,
        index,
        byte,
        steps,
        tail,
    })
}

/// The parts of a loop, if nodes are one.
pub fn parts_of(nodes: &[Node]) -> Option<Parts<'_>>
    ensures { option_map parts_seen result ≡ parts_of (nodes_in nodes.now) }
{
    match start_of(nodes) {
        Some(start) => parts_after(&start),
        None => None,
    }
}

/// Whether names differ.
pub fn differ(name: &[u8], other: &[u8]) -> bool
    ensures { result ≡ differ name.now other.now }
{
    name != other
}

/// Whether the variables of a loop do.
pub fn are_apart(parts: &Parts<'_>) -> bool
    ensures { result ≡ are_apart (parts_seen parts.now) }
{
    differ(parts.byte, parts.text)
        && (differ(parts.byte, parts.from)
            && (differ(parts.byte, parts.new)
                && (differ(parts.byte, parts.index)
                    && (differ(parts.from, parts.text)
                        && (differ(parts.new, parts.text)
                            && (differ(parts.new, parts.from)
                                && (differ(parts.index, parts.text)
                                    && (differ(parts.index, parts.from)
                                        && differ(parts.index, parts.new)))))))))
}

/// Whether an operand is made of the byte alone.
#[cycle(seen)]
fn is_seen(byte: &[u8], operand: &Operand) -> bool
    ensures { result ≡ is_seen (λ name. bytes_eq byte.now name) (λ p. false) (operand_of operand.now) }
{
    match operand {
        Operand::Dot | Operand::Fields(_) => false,
        Operand::Variable { name, fields } => match fields.as_slice() {
            [] => byte == name.as_slice(),
            [_, _more @ ..] => false,
        },
        Operand::Bool(_) | Operand::Number(_) | Operand::Text(_) => true,
        Operand::Nil | Operand::Function(_) => true,
        Operand::Group { commands, fields } => match fields.as_slice() {
            [] => are_all_seen(byte, commands.as_slice()),
            [_, _more @ ..] => false,
        },
    }
}

/// Whether operands are.
#[cycle(seen)]
fn are_seen(byte: &[u8], operands: &[Operand]) -> bool
    ensures { result ≡ are_seen (λ name. bytes_eq byte.now name) (λ p. false) (operands_in operands.now) }
{
    match operands {
        [] => true,
        [first, rest @ ..] => is_seen(byte, first) && are_seen(byte, rest),
    }
}

/// Whether commands are.
#[cycle(seen)]
pub fn are_all_seen(byte: &[u8], commands: &[Command]) -> bool
    ensures { result ≡ are_all_seen (λ name. bytes_eq byte.now name) (λ p. false) (commands_in commands.now) }
{
    match commands {
        [] => true,
        [first, rest @ ..] => {
            are_seen(byte, first.operands.as_slice()) && are_all_seen(byte, rest)
        }
    }
}

/// Whether a pipeline is `true`.
pub fn is_yes(commands: &[Command]) -> bool
    ensures { result ≡ is_yes (lone (commands_in commands.now)) }
{
    match lone(commands) {
        Some(operand) => match operand {
            Operand::Bool(it) => *it,
            _ => false,
        },
        None => false,
    }
}
