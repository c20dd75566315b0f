//! The message about a problem.
ghost use Rattle.std.specs.Prelude.{◌≡◌, ◌<◌, ◌++◌, [], Some, None, IfOk, OnErr, codes, string_bytes};
ghost use Rattle.std.specs.Fmt.{decimal};
ghost use Rattle.std.specs.Char.{encode_utf8};
ghost use Rattle.std.specs.List.{flat_map};
ghost use Rattle.tmpl_values.specs.Quote.{hexes};
ghost use Rattle.tmpl_hints.specs.Sentence.{Adds, byte_shown, readable, shown};

use std::alloc::{AllocError, Global};
use std::marker::Model;
use std::str::from_utf8;
use tmpl_values::digit;

/// The most bytes of a piece of a file that are shown.
const MOST_SHOWN: usize = 80;

/// A text in the making. That memory ran out for a part of it is answered once, at its end.
#[derive(Drop)]
pub struct Sentence {
    text: String,
    is_refused: bool,
}

impl Model for Sentence {
    ghost use Rattle.std.specs.Prelude.{ℕ, List, Option, Some, None, string_bytes, if◌then◌else◌};

    ghost Value = { Option (List ℕ) };

    ghost view = { λ s. if s.is_refused then None else Some (string_bytes s.text) };
}

impl Sentence {
    /// An empty one.
    pub fn new(alloc: Global) -> Sentence
        ensures { result ≡ Some [] }
    {
        Sentence {
            text: String::new(alloc),
            is_refused: false,
        }
    }

    /// Adds words.
    pub fn say(mut self, words: &str) -> Sentence
        ensures { Adds self result words.now }
    {
        if self.text.push_str(words).is_err() {
            self.is_refused = true;
        }
        self
    }

    /// Adds a piece of the file, of which two dots follow the beginning where it is long.
    pub fn show(self, bytes: &[u8]) -> Sentence
        ensures { Adds self result (shown bytes.now) }
    {
        match bytes.get(..MOST_SHOWN) {
            Some(front) if bytes.len() > MOST_SHOWN => self.show_all(front).say(".."),
            _ => self.show_all(bytes),
        }
    }

    /// Adds bytes. Where they are no UTF-8, a byte from 80h is shown by its code.
    fn show_all(self, bytes: &[u8]) -> Sentence
        ensures { Adds self result (readable bytes.now) }
    {
        match from_utf8(bytes) {
            Ok(text) => self.say(text),
            Err(_) => self.show_ascii(bytes),
        }
    }

    /// Adds bytes, each from 80h by its code.
    fn show_ascii(self, bytes: &[u8]) -> Sentence
        ensures { Adds self result (flat_map byte_shown bytes.now) }
    {
        let mut said = self;
        for byte in bytes {
            said = said.put(*byte);
        }
        said
    }

    /// Adds a byte, or the code of one from 80h.
    fn put(self, byte: u8) -> Sentence
        ensures { Adds self result (byte_shown byte) }
    {
        if byte.is_ascii() {
            self.push(byte as char)
        } else {
            self.say("\\x").push_code(byte as u32)
        }
    }

    /// Adds the two digits of a byte in base 16.
    #[tactic(auto, using(crate::proofs::SentenceLemmas::adds_then), unfolding(tmpl_values::specs::Quote::hexes))]
    fn push_code(self, n: u32) -> Sentence
        requires { n < 256 }
        ensures { Adds self result (hexes 2 n) }
    {
        self.push(digit(n / 16 % 16, false) as char)
            .push(digit(n % 16, false) as char)
    }

    /// Adds a character.
    fn push(mut self, c: char) -> Sentence
        ensures { Adds self result (encode_utf8 c) }
    {
        if self.text.push(c).is_err() {
            self.is_refused = true;
        }
        self
    }

    /// Adds a piece of the file in quotes.
    pub fn quote(self, bytes: &[u8]) -> Sentence
        ensures { Adds self result (codes "\"" ++ shown bytes.now ++ codes "\"") }
    {
        self.say("\"").show(bytes).say("\"")
    }

    /// Adds a number.
    pub fn count(mut self, number: u64) -> Sentence
        ensures { Adds self result (decimal number) }
    {
        if write!(self.text, "{number}").is_err() {
            self.is_refused = true;
        }
        self
    }

    /// The text.
    ///
    /// # Errors
    ///
    /// Where memory ran out for some part of it.
    pub fn finish(self) -> Result<String, AllocError>
        ensures text { IfOk result (λ t. self ≡ Some (string_bytes t)) }
        ensures refused { OnErr result (self ≡ None) }
    {
        if self.is_refused {
            Err(AllocError)
        } else {
            Ok(self.text)
        }
    }
}
