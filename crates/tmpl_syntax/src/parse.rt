//! Reading a file into the set.
ghost use Rattle.std.specs.Prelude.{◌≡◌, ◌≤◌, ◌==◌, IfOk, length, map, not};
ghost use Rattle.std.specs.List.{suffix_len};
ghost use Rattle.tmpl_syntax.specs.View.{hash_view, set_view, template_of};
ghost use Rattle.tmpl_syntax.specs.computed.Begun.{AllFrom, IsBegun, StartsRight, definition_at};
ghost use Rattle.tmpl_syntax.specs.computed.View.{definition_of, item_of};
ghost use Rattle.tmpl_syntax.specs.Parse as spec;
ghost use Rattle.tmpl_syntax.specs.Parse.{IsAsBefore, IsReading, template_in};
ghost use Rattle.tmpl_syntax.specs.computed.Parse.{IsAdded, IsOnce, IsParse, IsReadingOf, IsSecondBegun, items_of, with_file};

use crate::blank::is_blank;
use crate::build::build;
use crate::fault::{ParseFault, ParseKind, Refusal};
use crate::item::{Item, read_all};
use crate::name_hash::NameHash;
use crate::place::check::check;
use crate::place::names::KnownNames;
use crate::set::Set;
use crate::tree::{Definition, Tree};
use std::alloc::{AllocError, Global};
use std::sync::Arc;
use tmpl_values::Bytes;

/// The most bytes that a file may have (our own limit).
pub const MOST_BYTES: usize = 16_777_216;

/// The refusal of a file of more.
const TOO_LONG: Refusal = Refusal {
    line: 1,
    start: 0,
    kind: ParseKind::TooLong,
    first: 0,
};

/// Adds the templates of a file to the set: those that it defines, by `define` and `block`, in the order of their
/// headers, and then its own, what stands outside these, whose name is the part of the path after the last `/`, as
/// Go's `ParseFiles` has it. A new name goes last. A name that is there keeps its place and gets the new body, unless
/// that is blank, nothing but white space (Go's `Template.Parse`); that a blank body replaces no blank one either is
/// our own rule. All of the file's templates are added, or none. The bytes are copied once, so they need not outlive
/// the call; `parse_owned` takes them over.
///
/// # Errors
///
/// The first action of the file that is unreadable, has no reading, is out of place, is nested too
/// deeply or uses a variable that is not in scope, at the line of its `{{`: of these the first that
/// applies to it, in this order. If no action is refused and something open has no `end`, the file is
/// refused at its last line, which is 1 and the number of its newlines. Last, the first definition that has
/// an earlier one of its name in the file, neither being blank. Before all that, at line 1, a file of more
/// than 16,777,216 bytes (our own limit). Want of memory at any time, at line 1.
/// After an error the set is as it was.
///
/// `else with` is there since Go 1.23. A file that is accepted without it makes the same set with it.
#[tactic(auto, using(crate::proofs::LargerLemmas::with_files))]
pub fn parse_file<'f>(
    alloc: Global,
    set: &mut Set,
    file: &'f str,
    bytes: &[u8],
) -> Result<(), ParseFault<'f>>
    ensures reading { IsReading (set_view set.old) file.entry bytes.now (set_view set.new) result }
    ensures value { IsParse (set_view set.old) file.entry bytes.now (set_view set.new) result }
    ensures before { IsAsBefore (set_view set.old) file.entry bytes.now (set_view set.new) result }
    ensures hash { hash_view set.new ≡ hash_view set.old }
{
    with_file(file, add_copy(alloc, set, file, bytes))
}

/// Does what `parse_file` does, and copies nothing: the texts of the templates stay where the bytes are, in one block
/// of memory that they share.
///
/// # Errors
///
/// Those of `parse_file`.
#[tactic(auto, using(crate::proofs::LargerLemmas::with_files))]
pub fn parse_owned<'f>(
    alloc: Global,
    set: &mut Set,
    file: &'f str,
    bytes: Vec<u8>,
) -> Result<(), ParseFault<'f>>
    ensures reading { IsReading (set_view set.old) file.entry bytes.items (set_view set.new) result }
    ensures value { IsParse (set_view set.old) file.entry bytes.items (set_view set.new) result }
    ensures before { IsAsBefore (set_view set.old) file.entry bytes.items (set_view set.new) result }
    ensures hash { hash_view set.new ≡ hash_view set.old }
{
    with_file(file, add_file(alloc, set, file, bytes))
}

/// What comes of a file, a refusal with the path of the file.
fn with_file(file: &str, added: Result<(), Refusal>) -> Result<(), ParseFault<'_>>
    ensures { result ≡ with_file file.entry added }
{
    match added {
        Ok(()) => Ok(()),
        Err(Refusal { line, kind, .. }) => Err(ParseFault { file, line, kind }),
    }
}

/// Does what `parse_file` does, and says where what is refused begins.
#[tactic(auto, using(crate::proofs::ExamineLemmas::reading_of))]
pub(crate) fn read_file(
    alloc: Global,
    set: &mut Set,
    file: &str,
    bytes: &[u8],
) -> Result<(), Refusal>
    ensures reading { IsReadingOf (set_view set.old) file.now bytes.now (set_view set.new) result }
    ensures starts { StartsRight bytes.now result }
{
    add_copy(alloc, set, file, bytes)
}

/// Adds the templates of a file to the set, and copies its bytes unless they are too many.
#[tactic(auto, using(crate::proofs::FileLemmas::long))]
fn add_copy(alloc: Global, set: &mut Set, file: &str, bytes: &[u8]) -> Result<(), Refusal>
    ensures added { IsAdded (set_view set.old) file.now bytes.now (set_view set.new) result }
    ensures starts { StartsRight bytes.now result }
    ensures hash { hash_view set.new ≡ hash_view set.old }
{
    if bytes.len() > MOST_BYTES {
        return Err(TOO_LONG);
    }
    add_file(alloc, set, file, copy_of(alloc, bytes)?)
}

/// Adds the templates of a file of these bytes to the set.
#[tactic(auto, using(crate::proofs::FileLemmas::long))]
fn add_file(alloc: Global, set: &mut Set, file: &str, bytes: Vec<u8>) -> Result<(), Refusal>
    ensures added { IsAdded (set_view set.old) file.now bytes.items (set_view set.new) result }
    ensures starts { StartsRight bytes.items result }
    ensures hash { hash_view set.new ≡ hash_view set.old }
{
    if bytes.len() > MOST_BYTES {
        return Err(TOO_LONG);
    }
    let contents = share_bytes(alloc, bytes)?;
    let items = read_all(alloc, &contents)?;
    add_items(alloc, set, file, items, contents.as_slice())
}

/// The bytes, to be shared: those of a file by its texts, those of its path by its templates.
pub(crate) fn share_bytes(alloc: Global, bytes: Vec<u8>) -> Result<Arc<Bytes>, AllocError>
    ensures { IfOk result (λ contents. contents.value ≡ bytes.items) }
{
    Ok(Arc::new(alloc, Bytes::new(bytes))?)
}

/// Adds the templates of a file with these items and bytes to the set.
#[tactic(auto, using(crate::proofs::FileLemmas::added_items, crate::proofs::SetInvariantLemmas::kept))]
fn add_items(
    alloc: Global,
    set: &mut Set,
    file: &str,
    items: Vec<Item>,
    bytes: &[u8],
) -> Result<(), Refusal>
    requires read { map item_of items.items ≡ items_of bytes.now }
    requires begun { AllFrom (IsBegun bytes.now) 0 items.items }
    requires within { length bytes.now ≤ 16777216 }
    ensures added { IsAdded (set_view set.old) file.now bytes.now (set_view set.new) result }
    ensures starts { StartsRight bytes.now result }
    ensures hash { hash_view set.new ≡ hash_view set.old }
{
    let hash = set.name_hash();
    check(alloc, hash, items.as_slice(), bytes)?;
    let name = Bytes::new(copy_of(alloc, base_name(file))?);
    let definitions = build(alloc, items, name)?;
    refuse_second(alloc, hash, definitions.as_slice())?;
    set.define_all(templates_of(alloc, file, definitions)?)?;
    Ok(())
}

/// Refuses the first definition that has an earlier one of its name, neither being blank. Their names are hashed as
/// those of the set are.
#[tactic(auto, using(crate::proofs::SecondLemmas::seconds), unfolding(crate::specs::computed::Parse::second_in))]
fn refuse_second(alloc: Global, hash: NameHash, definitions: &[Definition]) -> Result<(), Refusal>
    ensures once { IsOnce (map definition_of definitions.now) result }
    ensures begun { IsSecondBegun (map definition_at definitions.now) result }
{
    if definitions.len() < 2 {
        return Ok(());
    }
    let mut names = KnownNames::new(alloc, hash);
    for definition in definitions {
        if is_blank(definition.nodes.as_slice()) {
            continue;
        }
        if !names.insert(definition.name.as_slice())? {
            return Err(Refusal {
                line: definition.line,
                start: definition.start,
                kind: ParseKind::SecondDefinition,
                first: first_line(definitions, definition.name.as_slice()),
            });
        }
    }
    Ok(())
}

/// The line of the first definition of this name that is not blank.
fn first_line(definitions: &[Definition], name: &[u8]) -> u64 {
    for definition in definitions {
        if definition.name.as_slice() == name && !is_blank(definition.nodes.as_slice()) {
            return definition.line;
        }
    }
    1
}

/// The definitions as templates in this file, whose path they share.
fn templates_of(
    alloc: Global,
    file: &str,
    definitions: Vec<Definition>,
) -> Result<Vec<(Vec<u8>, Tree)>, AllocError>
    ensures { IfOk result (λ v. map template_of v.items
        ≡ map (template_in file.now) (map definition_of definitions.items)) }
{
    let path = share_bytes(alloc, copy_of(alloc, file.as_bytes())?)?;
    let mut templates = Vec::with_capacity(alloc, definitions.len())?;
    for definition in definitions {
        templates.push(template(&path, definition)?)?;
    }
    Ok(templates)
}

/// The definition as a template in the file of this path.
fn template(path: &Arc<Bytes>, definition: Definition) -> Result<(Vec<u8>, Tree), AllocError>
    ensures { IfOk result (λ t. template_of t ≡ template_in path.now.value (definition_of definition)) }
{
    let Definition { name, nodes, .. } = definition;
    let file = Arc::clone(path)?;
    Ok((name.into_vec(), Tree { file, nodes }))
}

/// These bytes, in a list of their own.
pub(crate) fn copy_of(alloc: Global, bytes: &[u8]) -> Result<Vec<u8>, AllocError>
    ensures { IfOk result (λ v. v.items ≡ bytes.now) }
{
    bytes.to_vec(alloc)
}

/// The part of a path after its last `/`, which names the own template of a file: the whole of it where it has none.
pub fn base_name(path: &str) -> &[u8]
    ensures { result.now ≡ spec.base_name path.now }
{
    let bytes = path.as_bytes();
    &bytes[bytes.len() - base_name_len(bytes)..]
}

/// How many bytes follow the last `/`.
#[tactic(auto, using(tmpl_grammar::proofs::ListLemmas::runs))]
fn base_name_len(path: &[u8]) -> usize
    ensures count { result ≡ suffix_len (λ b. not (b == 47)) path.now }
    ensures within { result ≤ length path.now }
{
    path.iter().rev().take_while(|b| **b != b'/').count()
}
