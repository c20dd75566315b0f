//! What the parts of an action say: operands, commands, pipelines and headers.
use tmpl_funcs::Func;
use tmpl_values::Bytes;

/// What a value comes from ("Arguments" in the documentation of Go's text/template).
#[cycle(pipeline)]
#[derive(Drop)]
pub enum Operand {
    /// `.`
    Dot,
    /// A chain of fields from dot, `.a.b`, by the names without their dots.
    Fields(Vec<Bytes>),
    /// A variable, `$x`, by its name without the `$`, and the chain of fields after it, if there is one.
    /// The variable of the empty name is the dot with which the template started.
    Variable {
        name: Bytes,
        fields: Vec<Bytes>,
    },
    /// `true` or `false`
    Bool(bool),
    /// A whole number, or the code of a character.
    Number(i64),
    /// A string or a raw string, by what it stands for.
    Text(Bytes),
    /// `nil`
    Nil,
    /// A function: what its command calls, or else a call without arguments.
    Function(Func),
    /// A pipeline in parentheses, by its commands, and the chain of fields after it, if there is one.
    Group {
        commands: Vec<Command>,
        fields: Vec<Bytes>,
    },
}

/// One command of a pipeline, of at least one operand ("Pipelines").
#[cycle(pipeline)]
#[derive(Drop)]
pub struct Command {
    pub operands: Vec<Operand>,
}

/// What an action's value comes from: at least one command, of which each gives its value to the next
/// as its last argument ("Pipelines").
#[derive(Drop)]
pub struct Pipeline {
    pub commands: Vec<Command>,
}

/// The variables that take the value of a pipeline ("Variables"), by their names without the `$`.
#[derive(Drop)]
pub enum Binding {
    /// None does.
    Unbound,
    /// `$x := P`
    Declare(Bytes),
    /// `$x = P`
    Assign(Bytes),
    /// `$i, $x := P`, of a range alone.
    DeclarePair(Box<Pair>),
}

/// The two variables of a range: one for the index or key, and one for the element.
#[derive(Drop)]
pub struct Pair {
    pub key: Bytes,
    pub element: Bytes,
}

/// A pipeline, and the variables that take its value.
#[derive(Drop)]
pub struct Header {
    pub binding: Binding,
    pub pipeline: Pipeline,
}

/// What opens a part that an `end` closes ("Actions").
#[derive(Clone, Copy, Debug, PartialEq, Eq)]
pub enum Control {
    If,
    With,
    Range,
}
