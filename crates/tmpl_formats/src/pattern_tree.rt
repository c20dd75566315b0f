//! Reading a regular expression: atoms, terms, sequences and alternatives.
ghost use Rattle.std.specs.Prelude.{◌≡◌, ℕ, Option, false, ◌∷◌, IfOk, IfSome};
ghost use Rattle.std.specs.Str.{byte, chars};
ghost use Rattle.tmpl_formats.specs.Pattern as tree;
ghost use Rattle.tmpl_formats.specs.PatternText.{single, HasAtom, HasTerm, HasSequence, HasAlternatives, HasQuantifier, IsRepeated, Writes};
ghost use Rattle.tmpl_formats.specs.PatternView.{tree_of};
ghost use Rattle.tmpl_formats.specs.computed.PatternRows.{HasRow, trees_of};

use crate::pattern::{Node, Pattern, Span};
use crate::pattern_class::ends_of_lines;
use crate::pattern_parts::{is_once, repeat, whole};
use crate::pattern_text::{Reader, has_meaning, starts};
use std::alloc::{AllocError, Global};

/// The most groups inside one another.
const MOST_GROUPS: u32 = 50;

/// The most nodes and ranges.
const MOST_NODES: usize = 20_000;

impl<'t> Reader<'t> {
    /// A leaf of one character.
    fn single(&mut self, alloc: Global, code: u32) -> Result<Option<Node>, AllocError>
        ensures rest { self.new.rest.now ≡ self.old.rest.now }
        ensures tree { IfOk result (λ read. IfSome read (λ node. tree_of node ≡ tree.One false (single code))) }
    {
        self.set(
            alloc,
            false,
            &[Span {
                first: code,
                last: code,
            }],
        )
    }

    /// Reads what follows a backslash.
    fn escaped_atom(&mut self, alloc: Global) -> Result<Option<Node>, AllocError>
        ensures { IfOk result (λ read. IfSome read (λ node. HasAtom (byte "\\" ∷ self.old.rest.now) (tree_of node) self.new.rest.now)) }
    {
        if let Some(spans) = self.kind() {
            return self.set(alloc, false, spans);
        }
        let Some(code) = self.escape() else {
            return Ok(None);
        };
        self.single(alloc, code)
    }

    /// Reads an atom that is no group.
    fn plain_atom(&mut self, alloc: Global) -> Result<Option<Node>, AllocError>
        ensures { IfOk result (λ read. IfSome read (λ node. HasAtom self.old.rest.now (tree_of node) self.new.rest.now)) }
    {
        let Some(c) = self.next() else {
            return Ok(None);
        };
        match c {
            '[' => self.class(alloc),
            '\\' => self.escaped_atom(alloc),
            '.' => self.set(alloc, true, ends_of_lines()),
            _ => {
                if has_meaning(c) {
                    Ok(None)
                } else {
                    self.single(alloc, u32::from(c))
                }
            }
        }
    }

    /// Reads how often an atom is repeated.
    fn repeated(
        &mut self,
        alloc: Global,
        turn: Node,
        size: usize,
    ) -> Result<Option<Node>, AllocError>
        ensures { IfOk result (λ read. IfSome read (λ node. (least : ℕ) × (most : Option ℕ) × HasQuantifier self.old.rest.now least most self.new.rest.now × IsRepeated (tree_of turn) least most (tree_of node))) }
    {
        let Some(times) = self.quantifier() else {
            return Ok(None);
        };
        if is_once(times) {
            return Ok(Some(turn));
        }
        if !self.affords(size, times) {
            return Ok(None);
        }
        Ok(Some(repeat(alloc, &turn, times)?))
    }

    /// Reads alternatives and the parenthesis after them.
    #[cycle(pattern)]
    fn closed(&mut self, alloc: Global, depth: u32) -> Result<Option<Node>, AllocError>
        ensures { IfOk result (λ read. IfSome read (λ node. HasAlternatives self.old.rest.now (tree_of node) (byte ")" ∷ self.new.rest.now))) }
    {
        let Some(node) = self.alternatives(alloc, depth)? else {
            return Ok(None);
        };
        if self.takes(')') {
            Ok(Some(node))
        } else {
            Ok(None)
        }
    }

    /// Reads a group whose parenthesis was read.
    #[cycle(pattern)]
    fn group(&mut self, alloc: Global, depth: u32) -> Result<Option<Node>, AllocError>
        ensures { IfOk result (λ read. IfSome read (λ node. HasAtom (byte "(" ∷ self.old.rest.now) (tree_of node) self.new.rest.now)) }
    {
        if depth == 0 {
            return Ok(None);
        }
        if !self.takes('?') {
            return self.closed(alloc, depth - 1);
        }
        if !self.takes(':') {
            return Ok(None);
        }
        self.closed(alloc, depth - 1)
    }

    /// Reads an atom.
    #[cycle(pattern)]
    fn atom(&mut self, alloc: Global, depth: u32) -> Result<Option<Node>, AllocError>
        ensures { IfOk result (λ read. IfSome read (λ node. HasAtom self.old.rest.now (tree_of node) self.new.rest.now)) }
    {
        if self.takes('(') {
            return self.group(alloc, depth);
        }
        self.plain_atom(alloc)
    }

    /// Reads a term.
    #[cycle(pattern)]
    fn term(&mut self, alloc: Global, depth: u32) -> Result<Option<Node>, AllocError>
        ensures { IfOk result (λ read. IfSome read (λ node. HasTerm self.old.rest.now (tree_of node) self.new.rest.now)) }
    {
        if !self.spend() {
            return Ok(None);
        }
        if self.takes('^') {
            return Ok(Some(Node::Begin));
        }
        if self.takes('$') {
            return Ok(Some(Node::End));
        }
        let left = self.left;
        let Some(turn) = self.atom(alloc, depth)? else {
            return Ok(None);
        };
        let size = left.saturating_sub(self.left);
        self.repeated(alloc, turn, size)
    }

    /// Whether a sequence ends here.
    fn ends_sequence(&self) -> bool {
        self.rest.is_empty() || starts(self.rest, '|') || starts(self.rest, ')')
    }

    /// Reads terms up to the end of their sequence.
    #[cycle(pattern)]
    fn terms(&mut self, alloc: Global, depth: u32) -> Result<Option<Vec<Node>>, AllocError>
        ensures { IfOk result (λ read. IfSome read (λ parts. HasRow false self.old.rest.now (trees_of parts.items) self.new.rest.now)) }
    {
        let mut parts = Vec::new(alloc);
        let most = self.left;
        for _ in 0..most {
            if self.ends_sequence() {
                return Ok(Some(parts));
            }
            let Some(part) = self.term(alloc, depth)? else {
                return Ok(None);
            };
            parts.push(part)?;
        }
        Ok(None)
    }

    /// Reads a sequence.
    #[cycle(pattern)]
    fn sequence(&mut self, alloc: Global, depth: u32) -> Result<Option<Node>, AllocError>
        ensures { IfOk result (λ read. IfSome read (λ node. HasSequence self.old.rest.now (tree_of node) self.new.rest.now)) }
    {
        let Some(parts) = self.terms(alloc, depth)? else {
            return Ok(None);
        };
        if !self.spend() {
            return Ok(None);
        }
        if parts.len() == 0 {
            return Ok(Some(Node::Empty));
        }
        Ok(Some(whole(alloc, false, parts)?))
    }

    /// Reads alternatives.
    #[cycle(pattern)]
    fn alternatives(&mut self, alloc: Global, depth: u32) -> Result<Option<Node>, AllocError>
        ensures { IfOk result (λ read. IfSome read (λ node. HasAlternatives self.old.rest.now (tree_of node) self.new.rest.now)) }
    {
        let mut parts = Vec::new(alloc);
        let most = self.left;
        for _ in 0..most {
            let Some(part) = self.sequence(alloc, depth)? else {
                return Ok(None);
            };
            parts.push(part)?;
            if !self.takes('|') {
                return Ok(Some(whole(alloc, true, parts)?));
            }
        }
        Ok(None)
    }
}

/// The characters of a text.
fn characters_of(alloc: Global, text: &str) -> Result<Vec<char>, AllocError>
    ensures { IfOk result (λ characters. characters.items ≡ chars text.now) }
{
    text.chars().collect(alloc)
}

impl Pattern {
    /// Reads a regular expression of ECMA-262 with the flag `u`. None where the text is no such expression, or has what is
    /// not supported: look-around, back references, `\b`, `\B`, `\p`, `\P`, `\c`, names of groups and surrogates; or more than
    /// 50 groups inside one another, or more than 20,000 nodes and ranges, where a repetition has as many as its turns.
    pub fn read(alloc: Global, text: &str) -> Result<Option<Pattern>, AllocError>
        ensures { IfOk result (λ read. IfSome read (λ pattern. Writes (chars text.now) (tree_of pattern.root))) }
    {
        let characters = characters_of(alloc, text)?;
        let mut reader = Reader {
            rest: characters.as_slice(),
            left: MOST_NODES,
        };
        let Some(root) = reader.alternatives(alloc, MOST_GROUPS)? else {
            return Ok(None);
        };
        if reader.rest.len() > 0 {
            return Ok(None);
        }
        Ok(Some(Pattern { root }))
    }
}
