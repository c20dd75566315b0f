//! A file in which each action that can't be read is one that can, so that what stands after it is read too.

use crate::problem::{MOST_PROBLEMS, Problem};
use crate::scan::{place_in, rest_after};
use std::alloc::{AllocError, Global};
use tmpl_hints::{Opening, Role, marker_len, role_named, unreadable};
use tmpl_lex::{AfterText, Part, Rest, Token, first_part};
use tmpl_syntax::{About, ParseKind, Place, Refused};

/// The bytes of a file, which are the same but in actions that can't be read, up to the first of these that is left out;
/// and what is wrong with them.
#[derive(Drop)]
pub(crate) struct Readable {
    alloc: Global,
    pub(crate) bytes: Vec<u8>,
    pub(crate) gaps: Vec<Problem>,
    /// How many pieces were read.
    count: usize,
    /// How many more actions can't be read.
    pub(crate) left: usize,
}

/// Reads on after each action that can't be read: from its first `}}` on, or from the next `{{` on, if that comes
/// first. In its place stand its tokens up to where none begins and a comma, which no action has there, so that it is
/// refused.
pub(crate) fn read_on(alloc: Global, file: &[u8]) -> Result<Readable, AllocError> {
    let mut readable = Readable::new(alloc);
    let mut tokens = Vec::new(alloc);
    let mut place = Place::first();
    let mut rest = Rest::of(file);
    loop {
        let part = first_part(file, rest, &mut tokens)?;
        let next = rest_after(file, rest, part);
        let stretch = Stretch::between(file, rest, part, next);
        if let AfterText::Unreadable(_) = part.after {
            place = place_in(place, file, part.opens);
        }
        readable.pass(stretch, place, tokens.as_slice(), part)?;
        match next {
            Some(after) => rest = after,
            None => return Ok(readable),
        }
    }
}

/// The bytes of a part of a file before its action, those of the action, and all from there on.
#[derive(Clone, Copy)]
struct Stretch<'b> {
    before: &'b [u8],
    action: &'b [u8],
    onward: &'b [u8],
}

impl<'b> Stretch<'b> {
    /// The stretch of a part of what is left, with this after it.
    fn between(
        file: &'b [u8],
        rest: Rest<'b>,
        part: Part<'b>,
        next: Option<Rest<'b>>,
    ) -> Stretch<'b> {
        let from = file.len().saturating_sub(rest.bytes.len());
        let beyond = match next {
            Some(after) => after.bytes.len(),
            None => 0,
        };
        let onward = file.get(part.opens..).unwrap_or(&[]);
        let (action, _) = onward.split_at(onward.len().saturating_sub(beyond));
        Stretch {
            before: file.get(from..part.opens).unwrap_or(&[]),
            action,
            onward,
        }
    }
}

impl Readable {
    /// Nothing yet.
    fn new(alloc: Global) -> Readable {
        Readable {
            alloc,
            bytes: Vec::new(alloc),
            gaps: Vec::new(alloc),
            count: 0,
            left: 0,
        }
    }

    /// Passes a part, which stands there if its action can't be read. After the most problems that are reported it only
    /// counts.
    fn pass(
        &mut self,
        stretch: Stretch<'_>,
        place: Place,
        tokens: &[Token<'_>],
        part: Part<'_>,
    ) -> Result<(), AllocError> {
        let is_gap = matches!(part.after, AfterText::Unreadable(_));
        if self.gaps.len() == MOST_PROBLEMS && is_gap || self.left > 0 {
            self.left = self.left.saturating_add(usize::from(is_gap));
            return Ok(());
        }
        self.bytes.extend_from_slice(stretch.before)?;
        if !part.text.is_empty() {
            self.count = self.count.saturating_add(1);
        }
        match part.after {
            AfterText::Nothing => return Ok(self.bytes.extend_from_slice(stretch.action)?),
            AfterText::Action(_) => self.bytes.extend_from_slice(stretch.action)?,
            AfterText::Unreadable(_) => {
                let after = stretch.onward.get(2..).unwrap_or(&[]);
                let detail = unreadable(self.alloc, tokens, after)?;
                self.gaps.push(gap_at(place, self.count, detail))?;
                self.fill(stretch.action, tokens)?;
            }
        }
        self.count = self.count.saturating_add(1);
        Ok(())
    }

    /// Adds what stands in the place of an action that can't be read, of which these tokens were read.
    fn fill(&mut self, action: &[u8], tokens: &[Token<'_>]) -> Result<(), AllocError> {
        let Some(room) = action.len().checked_sub(4) else {
            return self.pad(action.len());
        };
        let kept = kept_in(self.alloc, action, tokens, room)?;
        self.bytes.extend_from_slice(b"{{")?;
        self.bytes.extend_from_slice(kept.as_slice())?;
        self.pad(room.saturating_sub(kept.len()))?;
        self.bytes.extend_from_slice(b"}}")
    }

    /// Adds this many spaces.
    fn pad(&mut self, count: usize) -> Result<(), AllocError> {
        for _ in 0..count {
            self.bytes.push(b' ')?;
        }
        Ok(())
    }
}

/// What is wrong at the place of an action that can't be read and stands after this many pieces.
fn gap_at(place: Place, count: usize, detail: String) -> Problem {
    Problem {
        refused: Refused {
            place: count,
            start: place.start,
            line: place.line,
            column: place.column,
            kind: ParseKind::Unreadable,
            about: About::Nothing,
        },
        detail,
    }
}

/// What stands between `{{` and `}}` in the place of an action that can't be read, at most this many bytes: the word of
/// a part of Handlebars, or the tokens that were read and a comma.
fn kept_in(
    alloc: Global,
    action: &[u8],
    tokens: &[Token<'_>],
    room: usize,
) -> Result<Vec<u8>, AllocError> {
    let mut kept = Vec::new(alloc);
    let inside = action.get(2..).unwrap_or(&[]);
    let body = inside.get(marker_len(inside)..).unwrap_or(&[]);
    if let Some(word) = word_of_part(body) {
        push_within(&mut kept, word.as_bytes(), room)?;
    } else {
        for token in tokens {
            if !push_within(&mut kept, token.bytes, room.saturating_sub(1))? {
                break;
            }
        }
        push_within(&mut kept, b",", room)?;
    }
    Ok(kept)
}

/// Adds bytes, if there is room for them; says whether there was.
fn push_within(kept: &mut Vec<u8>, bytes: &[u8], room: usize) -> Result<bool, AllocError> {
    let is_room = bytes.len() <= room.saturating_sub(kept.len());
    if is_room {
        kept.extend_from_slice(bytes)?;
    }
    Ok(is_room)
}

/// The word in place of `#NAME`, `^NAME` and `/NAME`, with which parts of Handlebars begin and end.
fn word_of_part(body: &[u8]) -> Option<&'static str> {
    match body {
        [b'#' | b'^', rest @ ..] => match role_named(name_at_front(rest)) {
            Role::Open(Opening::Define) => Some("block"),
            Role::Open(opening) => Some(opening.word()),
            _ => Some("if"),
        },
        [b'/', b'*', ..] => None,
        [b'/', ..] => Some("end"),
        _ => None,
    }
}

/// The bytes of a name at the front.
fn name_at_front(bytes: &[u8]) -> &[u8] {
    let taken = bytes
        .iter()
        .take_while(|b| b.is_ascii_alphanumeric() || **b == b'_')
        .count();
    let (name, _) = bytes.split_at(taken);
    name
}
