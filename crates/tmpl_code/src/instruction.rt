//! Instructions of flat code.
use crate::tables::Span;
use tmpl_funcs::Func;

/// What the form of a command alone refuses. It is put where the run would get to it.
#[derive(Clone, Copy)]
pub enum CommandError {
    /// An argument or a piped value for what is no function.
    NotAFunction,
    /// `nil` as a whole command.
    NilCommand,
    /// A function that does not take this number of arguments.
    WrongCount(Func),
}

/// An instruction. Jumps are relative to the next instruction; slot 0 is the newest cell. A variable that a header
/// declares stays below what its node pushes. Counts have 32 bits, and so have the places of texts and names in the
/// tables of the program, and a line beside another number, so that an instruction takes 16 bytes.
#[derive(Clone, Copy)]
pub enum Instruction {
    /// Takes a step at this line, which later faults name; stops if none is left.
    Spend(u64),
    /// Takes a step as [`Instruction::Spend`] does, and puts out a text of the template.
    Put {
        text: u32,
        line: u32,
    },
    /// Pushes nothing, the value of what is missing.
    PushNothing,
    /// Pushes a truth value.
    PushBool(bool),
    /// Pushes a whole number.
    PushNumber(i64),
    /// Pushes a text of the template.
    PushText(u32),
    /// Pushes dot.
    PushDot,
    /// Pushes a field of a field of .. of dot; stops if there is none.
    PushFields(Span),
    /// Pushes the value of a slot.
    PushSlot(u32),
    /// Replaces the newest value by its field of a field of ..; stops if there is none.
    Chain(Span),
    /// Pops `count` arguments and any piped value below, which is the last argument; pushes the result.
    Call {
        func: Func,
        count: u32,
        piped: bool,
    },
    /// If the newest value decides an `or`, or else an `and`, keeps it, drops any piped value below and jumps; else pops
    /// it.
    Decide {
        is_or: bool,
        piped: bool,
        skip: u32,
    },
    /// Replaces a null on top by nothing.
    Settle,
    /// Stops, since the form of a command is refused.
    Refuse(CommandError),
    /// Stops, since there is no template of this name to call.
    RefuseTemplate(u32),
    /// Pops the newest value and puts out its text.
    Show,
    /// Takes a step as [`Instruction::Spend`] does, and puts out the text of dot.
    ShowDot {
        line: u32,
    },
    /// Takes a step, and puts out the text of a field of a field of .. of dot; stops if there is none.
    ShowFields {
        names: Span,
        line: u32,
    },
    /// Takes a step, and puts out the text of the value of a slot.
    ShowSlot {
        slot: u32,
        line: u32,
    },
    /// Takes a step, and puts out the text of a field of the value of a slot; stops if there is none.
    ShowSlotField {
        slot: u32,
        name: u32,
        line: u32,
    },
    /// Makes the newest value a variable; with a declared index or key, nothing becomes one below it.
    Hold {
        key: bool,
    },
    /// Copies the newest value to the slot, counted from below that value.
    Set(u32),
    /// Copies dot to the slot.
    SetDot(u32),
    /// Jumps if the newest value is empty; pops it unless it is a variable.
    Unless {
        kept: bool,
        skip: u32,
    },
    /// Makes the newest value dot and saves the outer dot in its cell, or in a new one if the value is a variable. If it
    /// is empty, jumps instead, and pops it unless it is a variable.
    EnterWith {
        kept: bool,
        skip: u32,
    },
    /// Pops `count` cells, restores dot from the next one, pops the variables of the header, and jumps.
    EndWith {
        count: u32,
        variables: u32,
        skip: u32,
    },
    /// Pops `count` cells and jumps.
    Forget {
        count: u32,
        skip: u32,
    },
    /// Opens a range over the newest value and takes a step: saves dot and the place of the next instruction in a new
    /// cell. If the value has no element, pops it and jumps; stops if no range is possible, or if an index or key is
    /// declared and there is none.
    Enter {
        key: bool,
        skip: u32,
    },
    /// Makes the visited element dot, and the value of as many variables as are declared: none, one, or one above one
    /// for its index or key.
    Turn(u32),
    /// Pops `count` cells and goes on with the next element at the place that the range saved, which takes a step at
    /// this line; if there is none, pops the range, restores dot and jumps.
    Next {
        count: u32,
        skip: u32,
        line: u32,
    },
    /// Pops `count` cells and the range below them, restores dot and jumps.
    Leave {
        count: u32,
        skip: u32,
    },
    /// Stops at this line, which later faults name, if no step is left, or if no deeper call is allowed.
    Deepen(u64),
    /// Takes a step, saves dot and the place of the next instruction, and runs the template of this number with the
    /// newest value as dot and `$`.
    Invoke(u32),
    /// Pops `count` cells and the three of the template below them, restores dot and goes on in the caller; ends the
    /// run if there is none.
    Return(u32),
}
