//! What a template file is cut into.

/// The kind of a token of an action. A name is a run of name bytes: letters and digits of ASCII,
/// `_` and every byte from 80h.
#[derive(Clone, Copy, Debug, PartialEq, Eq)]
pub enum TokenKind {
    /// White space, up to the first other byte or the first right trim marker, of which the last byte of white space
    /// is a part.
    Space,
    /// A longest name that does not begin with a digit.
    Word,
    /// A `+` or `-` or none, a digit, and the longest run of name bytes and dots.
    Number,
    /// A dot and a longest name, not empty.
    Field,
    /// A dot with no name after it.
    Dot,
    /// A `$` and a longest name, perhaps empty.
    Variable,
    /// A `"` to the next `"` that no backslash escapes, with no newline inside.
    String,
    /// A backquote to the next backquote.
    RawString,
    /// A `'` to the next `'` that no backslash escapes, with no newline inside.
    Character,
    /// `:=`
    Declare,
    /// `=`
    Assign,
    /// `,`
    Comma,
    /// One bar.
    Pipe,
    /// `(`
    LeftParenthesis,
    /// `)`
    RightParenthesis,
}

/// A token of an action: its kind, and its bytes in the file.
#[derive(Clone, Copy, Debug)]
pub struct Token<'b> {
    pub kind: TokenKind,
    pub bytes: &'b [u8],
}

/// A piece of a template file. A line counts from 1.
#[derive(Debug, Drop)]
pub enum Piece<'b> {
    /// Bytes that stand for themselves, at least one, the line of the first of them, and how many bytes of the file
    /// stand before it.
    Text {
        line: u64,
        start: usize,
        bytes: &'b [u8],
    },
    /// The tokens between `{{` and `}}`, and the line of the `{{`.
    Action {
        line: u64,
        tokens: Vec<Token<'b>>,
    },
    /// An action that is not closed or has a place where no token begins. It is the last piece.
    Unreadable {
        line: u64,
    },
}
