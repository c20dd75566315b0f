//! Something that is found.
ghost use Rattle.std.specs.Prelude.{◌≡◌, string_bytes};
ghost use Rattle.tmpl_problems.specs.Errors.{error_at};
ghost use Rattle.tmpl_problems.specs.Level.{is_error, word_of};
ghost use Rattle.tmpl_problems.specs.computed.Added.{is_same};

use crate::rule::Rule;
use std::marker::Model;

/// How grave it is.
#[derive(Clone, Copy)]
pub enum Level {
    Error,
    Warning,
}

impl Level {
    /// Its word.
    pub(crate) fn word(self) -> &'static str
        ensures { result.now ≡ word_of self }
    {
        match self {
            Level::Error => "error",
            Level::Warning => "warning",
        }
    }
}

/// Something that is found at a place of a file. Contracts see its texts.
#[derive(Drop)]
pub struct Finding<'a> {
    /// The path of the file, as it was given.
    pub file: &'a str,
    pub level: Level,
    /// Its line, from 1.
    pub line: u64,
    /// Its column, from 1, by characters.
    pub column: u64,
    /// What it is against.
    pub rule: Rule,
    pub text: String,
    /// A note on it.
    pub note: Option<String>,
}

impl<'a> Model for Finding<'a> {
    ghost use Rattle.std.specs.Prelude.{option_map, string_bytes};
    ghost use Rattle.tmpl_problems.specs.Finding.{Finding};

    ghost Value = { Finding };

    ghost view = { λ e. record {
      file = e.file.now;
      line = e.line;
      column = e.column;
      level = e.level;
      rule = e.rule.id.now;
      text = string_bytes e.text;
      note = option_map string_bytes e.note;
    } };
}

impl<'a> Finding<'a> {
    /// An error at a line and a column, without a note.
    pub fn error(file: &'a str, place: (u64, u64), rule: Rule, text: String) -> Finding<'a>
        ensures { result ≡ error_at file.now place rule.id.now (string_bytes text) }
    {
        let (line, column) = place;
        Finding {
            file,
            level: Level::Error,
            line,
            column,
            rule,
            text,
            note: None,
        }
    }

    /// Whether it is an error.
    pub(crate) fn is_error(&self) -> bool
        ensures { result ≡ is_error self.now.level }
    {
        matches!(self.level, Level::Error)
    }

    /// Whether the other says the same of the same place.
    pub(crate) fn is_same(&self, other: &Finding<'_>) -> bool
        ensures { result ≡ is_same self.now other.now }
    {
        self.file == other.file
            && (self.line == other.line && self.column == other.column)
            && self.text.as_str() == other.text.as_str()
    }
}
