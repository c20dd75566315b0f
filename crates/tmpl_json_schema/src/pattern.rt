//! Texts of a `pattern`, without memory: a value that is drawn has one of these, and no other text is seen to match.

/// The longest text of a pattern, and the most groups that are open at once.
const MOST_BYTES: usize = 120;

const MOST_OPEN: usize = 8;

/// How many times more than it has to each part of a pattern is repeated, text by text.
pub(crate) const REPEATS: [usize; 5] = [0, 1, 3, 8, 30];

/// What is seen instead of a class that leaves bytes out.
const OTHERS: &[u8] = b"a0-_.A :/";

/// A group that is open: where its text begins, how many anchors came before it, and whether it is skipped.
#[derive(Clone, Copy)]
struct Group {
    start: usize,
    anchors: usize,
    is_skipped: bool,
}

/// A text of a pattern in the making.
#[derive(Clone, Copy)]
pub(crate) struct PatternText<'p> {
    rest: &'p [u8],
    repeats: usize,
    bytes: [u8; MOST_BYTES],
    len: usize,
    groups: [Group; MOST_OPEN],
    open: usize,
    anchors: usize,
    is_ended: bool,
    is_skipped: bool,
}

/// The text of a pattern in which each part is repeated so many times more than it has to, if the pattern is read here.
pub(crate) fn text_of_pattern(pattern: &str, repeats: usize) -> Option<PatternText<'_>> {
    let none = Group {
        start: 0,
        anchors: 0,
        is_skipped: false,
    };
    let mut text = PatternText {
        rest: pattern.as_bytes(),
        repeats,
        bytes: [0; MOST_BYTES],
        len: 0,
        groups: [none; MOST_OPEN],
        open: 0,
        anchors: 0,
        is_ended: false,
        is_skipped: false,
    };
    for _ in 0..pattern.len() {
        if text.rest.is_empty() {
            break;
        }
        text.step()?;
    }
    if text.open == 0 && text.rest.is_empty() {
        Some(text)
    } else {
        None
    }
}

/// Whether a text is one of those that are drawn of a pattern.
pub(crate) fn is_of_pattern(pattern: &str, text: &str) -> bool {
    for repeats in REPEATS {
        if let Some(drawn) = text_of_pattern(pattern, repeats) {
            if drawn.as_bytes() == text.as_bytes() {
                return true;
            }
        }
    }
    false
}

/// Whether a text matches a pattern, if that is seen: the text is one of those that are drawn, or the pattern is of
/// letters, digits, `_` and `-` alone, between anchors.
pub(crate) fn is_pattern_met(pattern: &str, text: &str) -> Option<bool> {
    if is_of_pattern(pattern, text) {
        return Some(true);
    }
    let rest = pattern.strip_prefix('^').unwrap_or(pattern);
    let plain = rest.strip_suffix('$').unwrap_or(rest);
    if !plain.bytes().all(is_plain) {
        return None;
    }
    let is_begun = rest.len() < pattern.len();
    let is_ended = plain.len() < rest.len();
    Some(match (is_begun, is_ended) {
        (true, true) => text == plain,
        (true, false) => text.as_bytes().starts_with(plain.as_bytes()),
        (false, true) => text.as_bytes().ends_with(plain.as_bytes()),
        (false, false) => text.contains(plain),
    })
}

/// Whether a byte stands for itself in a pattern.
fn is_plain(byte: u8) -> bool {
    byte.is_ascii_alphanumeric() || byte == b'_' || byte == b'-'
}

impl<'p> PatternText<'p> {
    /// The text.
    pub(crate) fn as_bytes(&self) -> &[u8] {
        self.bytes.get(..self.len).unwrap_or(&[])
    }

    /// Reads one part of the pattern with its quantifier, or an anchor, or one side of a group.
    fn step(&mut self) -> Option<()> {
        let first = self.next()?;
        match first {
            b'^' => self.begin(),
            b'$' => self.end(),
            b'|' => {
                self.is_skipped = true;
                Some(())
            }
            b'(' => self.open_group(),
            b')' => self.close_group(),
            b'*' | b'+' | b'?' | b'{' | 0x80..=0xFF => None,
            _ => {
                let start = self.len;
                let byte = match first {
                    b'[' => self.class()?,
                    b'\\' => unescape(self.next()?)?,
                    b'.' => b'a',
                    _ => first,
                };
                self.push(byte)?;
                self.repeat(start, self.anchors)
            }
        }
    }

    /// The next byte of the pattern.
    fn next(&mut self) -> Option<u8> {
        let (first, rest) = self.rest.split_first()?;
        self.rest = rest;
        Some(*first)
    }

    /// Adds a byte to the text, unless this alternative is not the one that is drawn.
    fn push(&mut self, byte: u8) -> Option<()> {
        if self.is_skipped {
            return Some(());
        }
        if self.is_ended {
            return None;
        }
        let place = self.bytes.get_mut(self.len)?;
        *place = byte;
        self.len = self.len.saturating_add(1);
        Some(())
    }

    /// The beginning of a text is nowhere else.
    fn begin(&mut self) -> Option<()> {
        self.anchors = self.anchors.saturating_add(1);
        if self.len == 0 || self.is_skipped {
            Some(())
        } else {
            None
        }
    }

    /// After the end of a text nothing comes.
    fn end(&mut self) -> Option<()> {
        self.anchors = self.anchors.saturating_add(1);
        if !self.is_skipped {
            self.is_ended = true;
        }
        Some(())
    }

    /// Begins a group; one with `?` is read only where it merely groups.
    fn open_group(&mut self) -> Option<()> {
        if let [b'?', after @ ..] = self.rest {
            let [b':', rest @ ..] = after else {
                return None;
            };
            self.rest = rest;
        }
        let place = self.groups.get_mut(self.open)?;
        *place = Group {
            start: self.len,
            anchors: self.anchors,
            is_skipped: self.is_skipped,
        };
        self.open = self.open.saturating_add(1);
        Some(())
    }

    /// Ends a group.
    fn close_group(&mut self) -> Option<()> {
        let last = self.open.checked_sub(1)?;
        let group = *self.groups.get(last)?;
        self.open = last;
        self.is_skipped = group.is_skipped;
        self.repeat(group.start, group.anchors)
    }

    /// Repeats what was added from there on, as the quantifier says that comes next.
    fn repeat(&mut self, start: usize, anchors: usize) -> Option<()> {
        let count = self.quantifier()?;
        if self.is_skipped || count == 1 {
            return Some(());
        }
        if self.anchors != anchors {
            return None;
        }
        if count > MOST_BYTES {
            return None;
        }
        let end = self.len;
        if count == 0 {
            self.len = start;
        }
        for _ in 1..count {
            for at in start..end {
                let byte = *self.bytes.get(at)?;
                self.push(byte)?;
            }
        }
        Some(())
    }

    /// How many times a part is repeated, by the quantifier that comes next, if one does.
    fn quantifier(&mut self) -> Option<usize> {
        let count = match self.rest {
            [b'*', rest @ ..] => {
                self.rest = rest;
                self.repeats
            }
            [b'+', rest @ ..] => {
                self.rest = rest;
                self.repeats.saturating_add(1)
            }
            [b'?', rest @ ..] => {
                self.rest = rest;
                self.repeats.min(1)
            }
            [b'{', rest @ ..] => {
                self.rest = rest;
                self.counts()?
            }
            _ => return Some(1),
        };
        if let [b'?', rest @ ..] = self.rest {
            self.rest = rest;
        }
        Some(count)
    }

    /// The count of a quantifier in braces, of which the first was read.
    fn counts(&mut self) -> Option<usize> {
        let least = self.number()?;
        match self.next()? {
            b'}' => Some(least),
            b',' => {
                let more = least.saturating_add(self.repeats);
                if let [b'}', rest @ ..] = self.rest {
                    self.rest = rest;
                    return Some(more);
                }
                let most = self.number()?;
                match self.next()? {
                    b'}' if least <= most => Some(more.min(most)),
                    _ => None,
                }
            }
            _ => None,
        }
    }

    /// A number of at most three digits.
    fn number(&mut self) -> Option<usize> {
        let mut number: usize = 0;
        let mut digits: usize = 0;
        for _ in 0..3 {
            match self.rest {
                [digit @ b'0'..=b'9', rest @ ..] => {
                    number = number
                        .saturating_mul(10)
                        .saturating_add(usize::from(digit.saturating_sub(b'0')));
                    digits = digits.saturating_add(1);
                    self.rest = rest;
                }
                _ => break,
            }
        }
        if digits > 0 { Some(number) } else { None }
    }

    /// A byte of a class, whose `[` was read.
    fn class(&mut self) -> Option<u8> {
        let inside = self.rest;
        if let [b'^', rest @ ..] = inside {
            self.rest = rest;
            self.choose(None)?;
            let end = self.rest;
            for other in OTHERS {
                self.rest = rest;
                if self.choose(Some(*other))?.is_none() {
                    return Some(*other);
                }
            }
            self.rest = end;
            return None;
        }
        self.choose(None)?
    }

    /// The first byte of a class up to its `]`, or this one where the class has it.
    fn choose(&mut self, wanted: Option<u8>) -> Option<Option<u8>> {
        let mut found: Option<u8> = None;
        for _ in 0..self.rest.len() {
            let first = self.next()?;
            if first == b']' {
                return Some(found);
            }
            let (low, high) = self.range(first, wanted.is_some())?;
            let here = match wanted {
                None => Some(low),
                Some(byte) if low <= byte && byte <= high => wanted,
                Some(_) => None,
            };
            found = found.or(here);
        }
        None
    }

    /// The bytes of a part of a class that begins with this one: all of them, or where that is not asked for, some.
    fn range(&mut self, first: u8, is_exact: bool) -> Option<(u8, u8)> {
        let low = match first {
            b'\\' => {
                let sign = self.next()?;
                match sign {
                    b'd' => return Some((b'0', b'9')),
                    b'w' | b's' | b'D' | b'W' | b'S' if is_exact => return None,
                    _ => unescape(sign)?,
                }
            }
            0x80..=0xFF => return None,
            _ => first,
        };
        match self.rest {
            [b'-', next, rest @ ..] if *next != b']' => {
                if *next == b'\\' || *next < low || *next >= 0x80 {
                    return None;
                }
                self.rest = rest;
                Some((low, *next))
            }
            _ => Some((low, low)),
        }
    }
}

/// A byte of what stands after a backslash, if that is known.
fn unescape(sign: u8) -> Option<u8> {
    match sign {
        b'd' => Some(b'0'),
        b'w' | b'D' | b'S' => Some(b'a'),
        b's' => Some(b' '),
        b'W' => Some(b'-'),
        b't' => Some(b'\t'),
        b'n' => Some(b'\n'),
        b'r' => Some(b'\r'),
        b'0'..=b'9' | b'A'..=b'Z' | b'a'..=b'z' | 0x80..=0xFF => None,
        _ => Some(sign),
    }
}
