//! Reading a regular expression: sets of characters.
ghost use Rattle.std.specs.Prelude.{◌≡◌, ℕ, List, true, ◌∷◌, ◌++◌, IfOk, IfSome, MatchOption};
ghost use Rattle.std.specs.Str.{byte};
ghost use Rattle.tmpl_formats.specs.Pattern as tree;
ghost use Rattle.tmpl_formats.specs.PatternText.{IsKind, has_hyphen, HasMember, HasItem, HasItems, HasAtom, line_ends};
ghost use Rattle.tmpl_formats.specs.PatternView.{tree_of};
ghost use Rattle.tmpl_formats.specs.declared.pattern.Span.{Span};

use crate::pattern::{Class, Node, Span};
use crate::pattern_text::{MOST_CODE, Reader, starts};
use std::alloc::{AllocError, Global};

/// Ranges of code points.
macro_rules! spans {
    ($($first:literal..=$last:expr),*) => {
        [$(Span { first: $first, last: $last }),*]
    };
}

static DIGITS: [Span; 1] = spans!(48..=57);

static NO_DIGITS: [Span; 2] = spans!(0..=47, 58..=MOST_CODE);

static WORD: [Span; 4] = spans!(48..=57, 65..=90, 95..=95, 97..=122);

static NO_WORD: [Span; 5] = spans!(0..=47, 58..=64, 91..=94, 96..=96, 123..=MOST_CODE);

static WHITE: [Span; 10] = spans!(
    9..=13,
    32..=32,
    0xA0..=0xA0,
    0x1680..=0x1680,
    0x2000..=0x200A,
    0x2028..=0x2029,
    0x202F..=0x202F,
    0x205F..=0x205F,
    0x3000..=0x3000,
    0xFEFF..=0xFEFF
);

static NO_WHITE: [Span; 11] = spans!(
    0..=8,
    14..=31,
    33..=0x9F,
    0xA1..=0x167F,
    0x1681..=0x1FFF,
    0x200B..=0x2027,
    0x202A..=0x202E,
    0x2030..=0x205E,
    0x2060..=0x2FFF,
    0x3001..=0xFEFE,
    0xFF00..=MOST_CODE
);

static LINE_ENDS: [Span; 3] = spans!(10..=10, 13..=13, 0x2028..=0x2029);

/// The ends of lines, which `.` does not match.
pub(crate) fn ends_of_lines() -> &'static [Span]
    ensures { result.now ≡ line_ends }
{
    &LINE_ENDS
}

/// The set that the letter stands for after a backslash.
fn kind_of(letter: char) -> Option<&'static [Span]>
    ensures { IfSome result (λ spans. IsKind letter spans.now) }
{
    match letter {
        'd' => Some(&DIGITS),
        'D' => Some(&NO_DIGITS),
        'w' => Some(&WORD),
        'W' => Some(&NO_WORD),
        's' => Some(&WHITE),
        'S' => Some(&NO_WHITE),
        _ => None,
    }
}

impl<'t> Reader<'t> {
    /// Reads a letter that stands for a set, if one is next.
    pub(crate) fn kind(&mut self) -> Option<&'static [Span]>
        ensures { MatchOption result (self.new.rest.now ≡ self.old.rest.now)
            (λ spans. (c : ℕ) × (self.old.rest.now ≡ c ∷ self.new.rest.now) × IsKind c spans.now) }
    {
        let (first, rest) = self.rest.split_first()?;
        let spans = kind_of(*first)?;
        self.rest = rest;
        Some(spans)
    }

    /// A leaf of this class, if there may be as many nodes and ranges more.
    fn one(&mut self, is_negated: bool, spans: Vec<Span>) -> Option<Node>
        ensures rest { self.new.rest.now ≡ self.old.rest.now }
        ensures tree { IfSome result (λ node. tree_of node ≡ tree.One is_negated spans.items) }
    {
        if spans.len() >= self.left {
            return None;
        }
        self.left -= spans.len() + 1;
        Some(Node::One(Class { is_negated, spans }, false))
    }

    /// A leaf of the class of these ranges.
    pub(crate) fn set(
        &mut self,
        alloc: Global,
        is_negated: bool,
        spans: &[Span],
    ) -> Result<Option<Node>, AllocError>
        ensures rest { self.new.rest.now ≡ self.old.rest.now }
        ensures tree { IfOk result (λ read. IfSome read (λ node. tree_of node ≡ tree.One is_negated spans.now)) }
    {
        let mut copy = Vec::new(alloc);
        copy.extend_from_slice(spans)?;
        Ok(self.one(is_negated, copy))
    }

    /// Whether the hyphen of a range is next: one that is not last in its class.
    fn begins_range(&self) -> bool
        ensures { result ≡ has_hyphen self.now.rest.now }
    {
        matches!(self.rest.split_first(), Some((first, more)) if *first == '-' && !starts(more, ']'))
    }

    /// Reads what follows a backslash in a class and stands for one character.
    fn escaped_member(&mut self) -> Option<u32>
        ensures { IfSome result (λ code. HasMember (byte "\\" ∷ self.old.rest.now) code self.new.rest.now) }
    {
        if self.takes('-') {
            Some(45)
        } else if self.takes('b') {
            Some(8)
        } else {
            self.escape()
        }
    }

    /// Reads one character of a class.
    fn member(&mut self) -> Option<u32>
        ensures { IfSome result (λ code. HasMember self.old.rest.now code self.new.rest.now) }
    {
        let c = self.next()?;
        if c == '\\' {
            self.escaped_member()
        } else if c == ']' {
            None
        } else {
            Some(u32::from(c))
        }
    }

    /// Reads a character or a range of a class, and adds it.
    fn range(&mut self, spans: &mut Vec<Span>) -> Result<bool, AllocError>
        ensures { IfOk result (λ went. went ≡ true → (items : List Span) × (spans.new.items ≡ spans.old.items ++ items) × HasItem self.old.rest.now items self.new.rest.now) }
    {
        let Some(first) = self.member() else {
            return Ok(false);
        };
        if !self.begins_range() {
            spans.push(Span { first, last: first })?;
            return Ok(true);
        }
        if !self.takes('-') {
            return Ok(false);
        }
        let Some(last) = self.member() else {
            return Ok(false);
        };
        if last < first {
            return Ok(false);
        }
        spans.push(Span { first, last })?;
        Ok(true)
    }

    /// Reads a letter after a backslash that stands for a set in a class, and adds the set.
    fn kind_in_class(&mut self, spans: &mut Vec<Span>) -> Result<bool, AllocError>
        ensures { IfOk result (λ went. went ≡ true → (items : List Span) × (spans.new.items ≡ spans.old.items ++ items) × HasItem (byte "\\" ∷ self.old.rest.now) items self.new.rest.now) }
    {
        let Some(kind) = self.kind() else {
            return Ok(false);
        };
        if self.begins_range() {
            return Ok(false);
        }
        spans.extend_from_slice(kind)?;
        Ok(true)
    }

    /// Whether a backslash is next, and a letter after it that stands for a set.
    fn begins_kind(&self) -> bool {
        match self.rest {
            ['\\', letter, ..] => kind_of(*letter).is_some(),
            _ => false,
        }
    }

    /// Reads a character, a range or a set of a class, and adds it.
    fn item(&mut self, spans: &mut Vec<Span>) -> Result<bool, AllocError>
        ensures { IfOk result (λ went. went ≡ true → (items : List Span) × (spans.new.items ≡ spans.old.items ++ items) × HasItem self.old.rest.now items self.new.rest.now) }
    {
        if self.begins_kind() {
            if !self.takes('\\') {
                return Ok(false);
            }
            return self.kind_in_class(spans);
        }
        self.range(spans)
    }

    /// Reads the items of a class up to the bracket that closes it.
    fn items(&mut self, alloc: Global) -> Result<Option<Vec<Span>>, AllocError>
        ensures { IfOk result (λ read. IfSome read (λ spans. HasItems self.old.rest.now spans.items (byte "]" ∷ self.new.rest.now))) }
    {
        let mut spans = Vec::new(alloc);
        let most = self.rest.len();
        for _ in 0..most {
            if self.takes(']') {
                return Ok(Some(spans));
            }
            if !self.item(&mut spans)? {
                return Ok(None);
            }
        }
        Ok(None)
    }

    /// Reads a class whose bracket was read.
    pub(crate) fn class(&mut self, alloc: Global) -> Result<Option<Node>, AllocError>
        ensures { IfOk result (λ read. IfSome read (λ node. HasAtom (byte "[" ∷ self.old.rest.now) (tree_of node) self.new.rest.now)) }
    {
        let is_negated = self.takes('^');
        let Some(spans) = self.items(alloc)? else {
            return Ok(None);
        };
        Ok(self.one(is_negated, spans))
    }
}
