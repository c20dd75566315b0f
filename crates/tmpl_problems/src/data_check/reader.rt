//! A reading of JSON that says where it ends to be JSON, and which numbers are not whole.

use crate::data_check::number::{is_whole, number_flaw};
use indexmap::IndexSet;
use std::alloc::{AllocError, Global};
use std::str::from_utf8;
use tmpl_syntax::NameHash;

/// The most of one kind that are reported.
const MOST_FOUND: usize = 100;

/// The most bytes of a key or a number that are shown.
const MOST_SHOWN: usize = 80;

/// The most lists and objects inside one another.
const MOST_OPEN: usize = 127;

/// What kind of thing is wrong.
#[derive(Clone, Copy, PartialEq)]
pub(crate) enum Flaw {
    NotJson,
    NotWhole,
    SecondKey,
}

/// What is wrong after this many bytes.
#[derive(Drop)]
pub(crate) struct Wrong {
    pub(crate) start: usize,
    pub(crate) text: String,
    pub(crate) flaw: Flaw,
}

/// What is open: a list at an item, or an object at an entry.
#[derive(Drop)]
enum Level<'b> {
    List(u64),
    Object(Entries<'b>),
}

/// The key of the entry at which an object is, and the keys so far.
#[derive(Drop)]
struct Entries<'b> {
    key: &'b [u8],
    keys: IndexSet<&'b [u8], NameHash>,
}

/// What is wanted next.
#[derive(Clone, Copy)]
enum Wanted {
    Value,
    /// A value, or the end of the list that was just opened.
    ValueOrEnd,
    Key,
    /// A key, or the end of the object that was just opened.
    KeyOrEnd,
    Colon,
    /// A comma or the end of what is open, or the end of the file.
    Next,
}

/// A reading under way.
#[derive(Drop)]
pub(crate) struct Reader<'b> {
    alloc: Global,
    bytes: &'b [u8],
    at: usize,
    open: Vec<Level<'b>>,
    pub(crate) found: Vec<Wrong>,
}

impl<'b> Reader<'b> {
    /// A reading of these bytes.
    pub(crate) fn new(alloc: Global, bytes: &'b [u8]) -> Reader<'b> {
        Reader {
            alloc,
            bytes,
            at: 0,
            open: Vec::new(alloc),
            found: Vec::new(alloc),
        }
    }

    /// Reads all.
    pub(crate) fn read(&mut self) -> Result<(), AllocError> {
        let mut next = match from_utf8(self.bytes) {
            Ok(_) => Some(Wanted::Value),
            Err(error) => self.stop_past(error.valid_up_to(), "UTF-8 is wanted")?,
        };
        for _ in 0..=self.bytes.len() {
            let Some(wanted) = next else {
                return Ok(());
            };
            self.skip_space();
            next = self.step(wanted)?;
        }
        Ok(())
    }

    /// Ends the reading: this is not JSON.
    fn stop<T>(&mut self, text: &str) -> Result<Option<T>, AllocError> {
        let text = String::from_str(self.alloc, text)?;
        self.note(self.at, text, Flaw::NotJson)?;
        Ok(None)
    }

    /// Ends the reading after this many bytes more.
    fn stop_past<T>(&mut self, count: usize, text: &str) -> Result<Option<T>, AllocError> {
        self.pass(count);
        self.stop(text)
    }

    /// Notes what is wrong, unless enough of its kind are reported.
    fn note(&mut self, start: usize, text: String, flaw: Flaw) -> Result<(), AllocError> {
        let told = self.found.iter().filter(|wrong| wrong.flaw == flaw).count();
        if told < MOST_FOUND {
            self.found.push(Wrong { start, text, flaw })?;
        }
        Ok(())
    }

    /// The bytes that are left.
    fn rest(&self) -> &'b [u8] {
        self.bytes.get(self.at..).unwrap_or(&[])
    }

    /// The next byte.
    fn peek(&self) -> Option<u8> {
        self.bytes.get(self.at).copied()
    }

    /// Passes this many bytes.
    fn pass(&mut self, count: usize) {
        self.at = self.at.saturating_add(count);
    }

    /// Passes white space.
    fn skip_space(&mut self) {
        let count = self
            .rest()
            .iter()
            .take_while(|b| matches!(**b, b' ' | b'\t' | b'\n' | b'\r'))
            .count();
        self.pass(count);
    }

    /// Reads what is wanted, and says what is wanted after it; none at the end.
    fn step(&mut self, wanted: Wanted) -> Result<Option<Wanted>, AllocError> {
        match (wanted, self.peek()) {
            (Wanted::ValueOrEnd, Some(b']')) | (Wanted::KeyOrEnd, Some(b'}')) => Ok(self.close()),
            (Wanted::Value | Wanted::ValueOrEnd, _) => self.value(),
            (Wanted::Key | Wanted::KeyOrEnd, _) => self.key(),
            (Wanted::Colon, Some(b':')) => {
                self.pass(1);
                Ok(Some(Wanted::Value))
            }
            (Wanted::Colon, _) => self.stop("\":\" is wanted after a key"),
            (Wanted::Next, byte) => self.next(byte),
        }
    }

    /// Closes what was opened last.
    fn close(&mut self) -> Option<Wanted> {
        self.pass(1);
        let _ = self.open.pop();
        Some(Wanted::Next)
    }

    /// Reads what stands after a value.
    fn next(&mut self, byte: Option<u8>) -> Result<Option<Wanted>, AllocError> {
        match (self.open.last_mut(), byte) {
            (None, None) => Ok(None),
            (None, Some(_)) => self.stop("the end is wanted after the value"),
            (Some(Level::List(index)), Some(b',')) => {
                *index = index.saturating_add(1);
                self.pass(1);
                Ok(Some(Wanted::Value))
            }
            (Some(Level::Object(_)), Some(b',')) => {
                self.pass(1);
                Ok(Some(Wanted::Key))
            }
            (Some(Level::List(_)), Some(b']')) | (Some(Level::Object(_)), Some(b'}')) => {
                Ok(self.close())
            }
            (Some(Level::List(_)), _) => self.stop("\",\" or \"]\" is wanted after an item"),
            (Some(Level::Object(_)), _) => self.stop("\",\" or \"}\" is wanted after an entry"),
        }
    }

    /// Reads a value.
    fn value(&mut self) -> Result<Option<Wanted>, AllocError> {
        match self.peek() {
            Some(b'[') => self.enter(Level::List(0), Wanted::ValueOrEnd),
            Some(b'{') => {
                let keys = IndexSet::with_hasher(self.alloc, NameHash::fixed());
                self.enter(Level::Object(Entries { key: &[], keys }), Wanted::KeyOrEnd)
            }
            Some(b'"') => Ok(self.string()?.and(Some(Wanted::Next))),
            Some(b'-' | b'0'..=b'9') => self.number(),
            _ => self.word(),
        }
    }

    /// Opens a list or an object.
    fn enter(&mut self, level: Level<'b>, wanted: Wanted) -> Result<Option<Wanted>, AllocError> {
        if self.open.len() >= MOST_OPEN {
            return self.stop("at most 127 lists and objects stand inside one another");
        }
        self.pass(1);
        self.open.push(level)?;
        Ok(Some(wanted))
    }

    /// Reads `true`, `false` or `null`.
    fn word(&mut self) -> Result<Option<Wanted>, AllocError> {
        let words: [&[u8]; 3] = [b"true", b"false", b"null"];
        for word in words {
            if self.rest().starts_with(word) {
                self.pass(word.len());
                return Ok(Some(Wanted::Next));
            }
        }
        match self.peek() {
            None => self.stop("a value is wanted, and the file ends"),
            Some(b']') => self.stop("a value is wanted after \",\""),
            Some(b'\'') => self.stop("a value is wanted: texts stand in double quotes"),
            Some(b'/' | b'#') => self.stop("a value is wanted: JSON has no comments"),
            Some(0xef) if self.at == 0 => self.stop(
                "a value is wanted, and no byte order mark before it",
            ),
            Some(b'A'..=b'Z' | b'a'..=b'z') if self.open.len() == 0 => self.stop(
                "a value is wanted: if this is YAML, make JSON of it first",
            ),
            Some(_) => self.stop("a value is wanted"),
        }
    }

    /// Reads a key.
    fn key(&mut self) -> Result<Option<Wanted>, AllocError> {
        let start = self.at;
        match self.peek() {
            Some(b'"') => {}
            Some(b'}') => return self.stop("a key is wanted after \",\""),
            None => return self.stop("a key is wanted, and the file ends"),
            Some(_) => return self.stop("a key in double quotes is wanted"),
        }
        let Some(name) = self.string()? else {
            return Ok(None);
        };
        if let Some(Level::Object(entries)) = self.open.last_mut() {
            entries.key = name;
            if !entries.keys.insert(name)? {
                let mut said = self.path()?;
                said.push_str(": the key is given twice, and the last counts")?;
                self.note(start, said, Flaw::SecondKey)?;
            }
        }
        Ok(Some(Wanted::Colon))
    }

    /// Reads a text, and gives what stands between its quotes.
    fn string(&mut self) -> Result<Option<&'b [u8]>, AllocError> {
        self.pass(1);
        let rest = self.rest();
        let mut is_escaped = false;
        for (index, byte) in rest.iter().enumerate() {
            if is_escaped {
                if !matches!(
                    *byte,
                    b'"' | b'\\' | b'/' | b'b' | b'f' | b'n' | b'r' | b't' | b'u'
                ) {
                    return self.stop_past(
                        index,
                        "no such escape: after \"\\\" stands one of \"\\/bfnrtu",
                    );
                }
                is_escaped = false;
            } else if *byte == b'\\' {
                is_escaped = true;
            } else if *byte == b'"' {
                self.pass(index.saturating_add(1));
                return Ok(Some(rest.get(..index).unwrap_or(&[])));
            } else if *byte < 0x20 {
                return self.stop_past(
                    index,
                    "a text has no newline, tab or other control byte: write \\n or \\t",
                );
            }
        }
        self.stop_past(rest.len(), "a text is not closed")
    }

    /// Reads a number.
    fn number(&mut self) -> Result<Option<Wanted>, AllocError> {
        let rest = self.rest();
        let count = rest
            .iter()
            .take_while(|b| matches!(**b, b'-' | b'+' | b'.' | b'e' | b'E' | b'0'..=b'9'))
            .count();
        let text = rest.get(..count).unwrap_or(&[]);
        if self.at == 0 && text.starts_with(b"---") {
            return self.stop("a value is wanted: if this is YAML, make JSON of it first");
        }
        if let Some(flaw) = number_flaw(text) {
            return self.stop_past(flaw, "this is no number of JSON");
        }
        if !is_whole(text) {
            let mut said = self.path()?;
            said.push_str(": ")?;
            show(&mut said, text)?;
            said.push_str(" is not whole or is out of range")?;
            self.note(self.at, said, Flaw::NotWhole)?;
        }
        self.pass(count);
        Ok(Some(Wanted::Next))
    }

    /// The path to what is read.
    fn path(&self) -> Result<String, AllocError> {
        let mut said = String::new(self.alloc);
        for level in self.open.as_slice() {
            match level {
                Level::List(index) => write!(said, "[{index}]")?,
                Level::Object(entries) => {
                    said.push('.')?;
                    show(&mut said, entries.key)?;
                }
            }
        }
        if said.is_empty() {
            said.push('.')?;
        }
        Ok(said)
    }
}

/// Adds a piece of the file, of which two dots follow the beginning where it is long. Where that cuts a character, its
/// bytes from 80h are shown as `?`.
fn show(said: &mut String, bytes: &[u8]) -> Result<(), AllocError> {
    let front = bytes.get(..MOST_SHOWN).unwrap_or(bytes);
    match from_utf8(front) {
        Ok(text) => said.push_str(text)?,
        Err(_) => {
            for byte in front {
                said.push(if byte.is_ascii() { *byte as char } else { '?' })?;
            }
        }
    }
    if bytes.len() > MOST_SHOWN {
        said.push_str("..")?;
    }
    Ok(())
}
