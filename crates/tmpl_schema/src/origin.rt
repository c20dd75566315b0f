//! Where values are from: chains of fields from the data of a template.
#![tactic(auto)]

ghost use Rattle.std.specs.Prelude.{◌≡◌, ◌++◌, IfOk, OnOk};
ghost use Rattle.std.specs.Option.{option_map};
ghost use Rattle.tmpl_grammar.specs.View.{operands_in};
ghost use Rattle.tmpl_schema.specs.computed.Check.{is_path, join_ties, key_tie, path_of, rest_of, texts_in, tie_of, tie_within};
ghost use Rattle.tmpl_schema.specs.computed.View.{origin_of, place_seen, tie_seen};

use crate::facts::{Place, text_of};
use std::alloc::{AllocError, Global};
use tmpl_grammar::Operand;
use tmpl_shape::copy_name;
use tmpl_values::Bytes;

/// How a variable is tied to the data of the template.
#[derive(Drop)]
pub(crate) enum Tie {
    Untied,
    /// It has the value at this chain of fields, but for nothing and null.
    Valued(Vec<Bytes>),
    /// It is an index or a key of what is at this chain.
    Keyed(Vec<Bytes>),
}

impl Tie {
    /// Of a value of this provenance.
    pub(crate) fn of(alloc: Global, origin: &Option<Vec<Bytes>>) -> Result<Tie, AllocError>
        ensures { IfOk result (λ t. tie_seen t ≡ tie_of (origin_of origin.now)) }
    {
        match origin {
            Some(path) => Ok(Tie::Valued(copy_path(alloc, path.as_slice())?)),
            None => Ok(Tie::Untied),
        }
    }

    /// Of an index or a key of what has this provenance.
    pub(crate) fn of_key(alloc: Global, over: &Option<Vec<Bytes>>) -> Result<Tie, AllocError>
        ensures { IfOk result (λ t. tie_seen t ≡ key_tie (origin_of over.now)) }
    {
        match over {
            Some(path) => Ok(Tie::Keyed(copy_path(alloc, path.as_slice())?)),
            None => Ok(Tie::Untied),
        }
    }

    /// The chain at which the value of the variable is, if that is known.
    pub(crate) fn path(&self) -> Option<&[Bytes]>
        ensures { option_map (λ p. p.now) result ≡ path_of (tie_seen self.now) }
    {
        match self {
            Tie::Valued(path) => Some(path.as_slice()),
            Tie::Untied | Tie::Keyed(_) => None,
        }
    }

    /// A copy of it.
    pub(crate) fn copy(&self, alloc: Global) -> Result<Tie, AllocError>
        ensures { IfOk result (λ t. tie_seen t ≡ tie_seen self.now) }
    {
        match self {
            Tie::Untied => Ok(Tie::Untied),
            Tie::Valued(path) => Ok(Tie::Valued(copy_path(alloc, path.as_slice())?)),
            Tie::Keyed(path) => Ok(Tie::Keyed(copy_path(alloc, path.as_slice())?)),
        }
    }

    /// Whether what is known of the other is known of this one.
    pub(crate) fn is_within(&self, other: &Tie) -> bool
        ensures { result ≡ tie_within (tie_seen self.now) (tie_seen other.now) }
    {
        match (self, other) {
            (_, Tie::Untied) => true,
            (Tie::Valued(path), Tie::Valued(names)) => is_path(path.as_slice(), names.as_slice()),
            (Tie::Keyed(path), Tie::Keyed(names)) => is_path(path.as_slice(), names.as_slice()),
            _ => false,
        }
    }

    /// What is known of both.
    pub(crate) fn join(&self, other: &Tie, alloc: Global) -> Result<Tie, AllocError>
        ensures { IfOk result (λ t. tie_seen t ≡ join_ties (tie_seen self.now) (tie_seen other.now)) }
    {
        if self.is_within(other) {
            return other.copy(alloc);
        }
        Ok(Tie::Untied)
    }
}

/// Puts copies of names after others.
#[tactic(auto, using(std::proofs::lemmas::Grind::common_steps))]
fn put_path(alloc: Global, path: &[Bytes], names: &mut Vec<Bytes>) -> Result<(), AllocError>
    ensures { OnOk result (names.new.items ≡ names.old.items ++ path.now) }
{
    match path {
        [] => Ok(()),
        [first, rest @ ..] => {
            names.push(copy_name(alloc, first.as_slice())?)?;
            put_path(alloc, rest, names)
        }
    }
}

/// Puts copies of the texts of constants after names.
#[tactic(auto, using(std::proofs::lemmas::Grind::common_steps))]
fn put_texts(alloc: Global, operands: &[Operand], names: &mut Vec<Bytes>) -> Result<(), AllocError>
    ensures { OnOk result (names.new.items ≡ names.old.items ++ texts_in (operands_in operands.now)) }
{
    match operands {
        [] => Ok(()),
        [first, rest @ ..] => match text_of(first) {
            Some(text) => {
                names.push(copy_name(alloc, text.as_slice())?)?;
                put_texts(alloc, rest, names)
            }
            None => Ok(()),
        },
    }
}

/// The names that lead to the root of a place, and from there to the place.
#[tactic(auto, using(std::proofs::lemmas::Grind::common_steps))]
pub(crate) fn place_path(
    alloc: Global,
    root: &[Bytes],
    place: &Place<'_>,
) -> Result<Vec<Bytes>, AllocError>
    ensures { IfOk result (λ path. path.items ≡ root.now ++ (place_seen place.now).path) }
{
    let mut names = copy_path(alloc, root)?;
    put_path(alloc, place.fields, &mut names)?;
    put_texts(alloc, place.keys, &mut names)?;
    Ok(names)
}

/// A copy of a chain.
fn copy_path(alloc: Global, path: &[Bytes]) -> Result<Vec<Bytes>, AllocError>
    ensures { IfOk result (λ names. names.items ≡ path.now) }
{
    let mut names: Vec<Bytes> = Vec::new(alloc);
    put_path(alloc, path, &mut names)?;
    Ok(names)
}

/// A copy of a provenance.
pub(crate) fn copy_origin(
    alloc: Global,
    origin: &Option<Vec<Bytes>>,
) -> Result<Option<Vec<Bytes>>, AllocError>
    ensures { IfOk result (λ o. origin_of o ≡ origin_of origin.now) }
{
    match origin {
        Some(path) => Ok(Some(copy_path(alloc, path.as_slice())?)),
        None => Ok(None),
    }
}

/// What is left of a chain of fields after another, with which it begins.
pub(crate) fn rest_of<'n>(path: &[Bytes], names: &'n [Bytes]) -> Option<&'n [Bytes]>
    ensures { option_map (λ r. r.now) result ≡ rest_of path.now names.now }
{
    match (path, names) {
        ([], _) => Some(names),
        ([first, others @ ..], [name, rest @ ..]) => {
            if first.as_slice() == name.as_slice() {
                rest_of(others, rest)
            } else {
                None
            }
        }
        ([_, _others @ ..], []) => None,
    }
}

/// Whether chains are the same.
pub(crate) fn is_path(path: &[Bytes], names: &[Bytes]) -> bool
    ensures { result ≡ is_path path.now names.now }
{
    match (path, names) {
        ([], []) => true,
        ([first, others @ ..], [name, rest @ ..]) => {
            first.as_slice() == name.as_slice() && is_path(others, rest)
        }
        ([], [_, _rest @ ..]) => false,
        ([_, _others @ ..], []) => false,
    }
}
