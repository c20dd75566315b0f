//! The set of templates.
ghost use Rattle.std.specs.Prelude.{◌≡◌, ◌≤◌, ◌<◌, ◌+◌, ◌&&◌, [], IfOk, IfSome, OnOk, OnErr, Some};
ghost use Rattle.std.specs.Prelude.{is_some, length, map, option_map, slice_get};
ghost use Rattle.std.specs.Iterator.{YieldsFirstRef, item_count};
ghost use Rattle.indexmap.specs.IndexMap.{hasher_of, spare};
ghost use Rattle.tmpl_syntax.specs.View.{entries_view, hash_view, names_left, set_view, template_of, tree_of};
ghost use Rattle.tmpl_syntax.specs.Kept.{AreKept, IsKept};
ghost use Rattle.tmpl_syntax.specs.Set.{add_definition, defined_each, first_hasher, is_blank, known_hasher, number_of};
ghost use Rattle.tmpl_syntax.specs.Set.{without_nodes, tree_named};

use crate::blank::is_blank;
use crate::name_hash::NameHash;
use crate::tree::Tree;
use indexmap::IndexMap;
use indexmap::map::Keys;
use std::alloc::{AllocError, Global};
use std::marker::Model;
use std::sync::Arc;

/// Templates by their names, in the order in which the names were first defined (our own rule; Go
/// keeps no order). A name is bytes that need not be UTF-8. The texts of the trees of one file lie in one block of
/// memory, which they share and which is given back with the last of them.
#[derive(Drop)]
pub struct Set {
    pub(crate) templates: IndexMap<Vec<u8>, Tree, NameHash>,
}

/// The names of a set, in its order.
#[derive(Drop)]
pub struct Names<'s> {
    keys: Keys<'s, Vec<u8>, Tree>,
}

impl Model for Set {
    ghost use Rattle.std.specs.Prelude.{ℕ, List, [], Vec};
    ghost use Rattle.std.specs.declared.alloc.Global.{Global};
    ghost use Rattle.tmpl_syntax.specs.declared.tree.Tree.{Tree};
    ghost use Rattle.tmpl_syntax.specs.declared.name_hash.NameHash.{NameHash};

    ghost Value = { List (Vec ℕ Global × Tree) × NameHash };

    ghost use Rattle.std.specs.Coded.{codes};
    ghost use Rattle.tmpl_syntax.specs.contracts.tree.Tree as held;
    ghost use Rattle.tmpl_syntax.specs.contracts.name_hash.NameHash as hash;

    ghost coded = { Prim.hlevel (codes, held.the_row.coded, hash.the_row.coded) };

    ghost use Rattle.indexmap.specs.IndexMap.{hasher_of};
    ghost use Rattle.tmpl_syntax.specs.View.{entries_view};
    ghost use Rattle.tmpl_syntax.specs.Kept.{IsSet};

    ghost view = { λ s. (s.templates.entries, hasher_of s.templates) };

    ghost invariant = { λ s. IsSet (entries_view s.templates.entries) };
}

impl Set {
    /// A set of no templates, whose names are hashed by keys that everyone knows.
    pub fn new(alloc: Global) -> Set
        ensures empty { set_view result ≡ [] }
        ensures hash { first_hasher (hash_view result) ≡ known_hasher }
    {
        Set::with_hash(alloc, NameHash::fixed())
    }

    /// A set of no templates, whose names are hashed so.
    #[tactic(auto, using(crate::proofs::SetLemmas::views), unfolding(crate::specs::View::entries_view, crate::specs::View::set_view))]
    pub fn with_hash(alloc: Global, names: NameHash) -> Set
        ensures empty { set_view result ≡ [] }
        ensures hash { hash_view result ≡ names }
    {
        Set {
            templates: IndexMap::with_hasher(alloc, names),
        }
    }

    /// The tree of the template of this name, if there is one.
    pub fn get(&self, name: &[u8]) -> Option<&Tree>
        ensures value { option_map (λ t. tree_of t.now) result ≡ tree_named name.now (set_view self.now) }
        ensures kept { IfSome result (λ t. IsKept (tree_of t.now)) }
    {
        self.templates.get(name)
    }

    /// How many templates there are.
    #[tactic(auto, using(crate::proofs::SetLemmas::views), unfolding(crate::specs::View::entries_view, crate::specs::View::set_view))]
    pub fn len(&self) -> usize
        ensures { result ≡ length (set_view self.now) }
    {
        self.templates.len()
    }

    /// The number of the template of this name, if there is one: how many stand before it.
    pub fn number(&self, name: &[u8]) -> Option<usize>
        ensures { result ≡ number_of name.now (set_view self.now) }
    {
        self.templates.get_index_of(name)
    }

    /// The name and the tree of the template of this number.
    #[tactic(auto, using(crate::proofs::SetLemmas::views), unfolding(crate::specs::View::entries_view, crate::specs::View::set_view))]
    pub fn template(&self, number: usize) -> (&[u8], &Tree)
        requires { number < length (set_view self.now) }
        ensures value { slice_get (set_view self.now) number ≡ Some (result.0.now, tree_of result.1.now) }
        ensures kept { IsKept (tree_of result.1.now) }
    {
        match self.templates.as_slice().get_index(number) {
            Some((name, tree)) => (name.as_slice(), tree),
            None => unreachable!(),
        }
    }

    /// A set of templates with the same names and files, and no nodes: what a look-up by name and the fault of a run
    /// need, where the trees may go. An error is want of memory.
    pub fn outline(&self, alloc: Global) -> Result<Set, AllocError>
        ensures value { IfOk result (λ o. set_view o ≡ map without_nodes (set_view self.now)) }
        ensures hash { IfOk result (λ o. hash_view o ≡ hash_view self.now) }
    {
        let mut outline = Set::with_hash(alloc, *self.templates.hasher());
        outline.define_all(outlines(alloc, self)?)?;
        Ok(outline)
    }

    /// How the names are hashed.
    pub(crate) fn name_hash(&self) -> NameHash
        ensures { result ≡ hash_view self.now }
    {
        *self.templates.hasher()
    }

    /// Adds templates, one by one: a new name goes last, and a name that is there keeps its place and gets
    /// the new body, unless that is blank. All of them are added, or the set is as it was.
    #[tactic(auto, using(crate::proofs::SetInvariantLemmas::kept), unfolding(crate::specs::View::set_view))]
    pub(crate) fn define_all(&mut self, templates: Vec<(Vec<u8>, Tree)>) -> Result<(), AllocError>
        requires { AreKept (map template_of templates.items) }
        ensures ok { OnOk result (set_view self.new
            ≡ defined_each (set_view self.old) (map template_of templates.items)) }
        ensures err { OnErr result (set_view self.new ≡ set_view self.old) }
        ensures hash { hash_view self.new ≡ hash_view self.old }
    {
        // there is room for each before the first is added
        self.templates.reserve(templates.len())?;
        define_each(&mut self.templates, templates);
        Ok(())
    }

    /// The names, in the order in which they were first defined.
    #[tactic(auto, using(crate::proofs::SetLemmas::views), unfolding(crate::specs::View::entries_view, crate::specs::View::set_view))]
    pub fn names(&self) -> Names<'_>
        ensures { names_left result ≡ map (λ t. t.0) (set_view self.now) }
    {
        Names {
            keys: self.templates.keys(),
        }
    }
}

/// The templates of a set without their nodes.
fn outlines(alloc: Global, set: &Set) -> Result<Vec<(Vec<u8>, Tree)>, AllocError>
    ensures { IfOk result (λ v. map template_of v.items ≡ map without_nodes (set_view set.now)) }
{
    let mut outlines = Vec::with_capacity(alloc, set.len())?;
    for number in 0..set.len() {
        let (name, tree) = set.template(number);
        outlines.push(outline_of(alloc, name, tree)?)?;
    }
    Ok(outlines)
}

/// The template of this name and tree without its nodes.
fn outline_of(alloc: Global, name: &[u8], tree: &Tree) -> Result<(Vec<u8>, Tree), AllocError>
    ensures { IfOk result (λ t. template_of t ≡ without_nodes (name.now, tree_of tree.now)) }
{
    let file = Arc::clone(&tree.file)?;
    let nodes = Vec::new(alloc);
    Ok((name.to_vec(alloc)?, Tree { file, nodes }))
}

impl<'s> Iterator for Names<'s> {
    type Item = &'s [u8];

    ghost next_gives = { YieldsFirstRef names_left };

    ghost remaining = { item_count names_left };

    fn next(&mut self) -> Option<&'s [u8]> {
        match self.keys.next() {
            Some(name) => Some(name.as_slice()),
            None => None,
        }
    }
}

/// Adds templates, one by one, for each of which there is room.
#[tactic(auto, using(crate::proofs::SetLemmas::views), unfolding(crate::specs::View::entries_view, crate::specs::View::set_view))]
fn define_each(set: &mut IndexMap<Vec<u8>, Tree, NameHash>, templates: Vec<(Vec<u8>, Tree)>)
    requires { length templates.items ≤ spare set.old }
    ensures defined { entries_view set.new.entries
        ≡ defined_each (entries_view set.old.entries) (map template_of templates.items) }
    ensures hash { hasher_of set.new ≡ hasher_of set.old }
{
    for (name, tree) in templates {
        define(set, name, tree);
    }
}

/// Adds a template, for which there is room.
#[tactic(auto, using(crate::proofs::SetLemmas::views), unfolding(crate::specs::View::entries_view, crate::specs::View::set_view))]
fn define(set: &mut IndexMap<Vec<u8>, Tree, NameHash>, name: Vec<u8>, tree: Tree)
    requires { 0 < spare set.old }
    ensures defined { entries_view set.new.entries ≡ add_definition (entries_view set.old.entries) name.items (tree_of tree) }
    ensures room { spare set.old ≤ spare set.new + 1 }
    ensures hash { hasher_of set.new ≡ hasher_of set.old }
{
    if !keeps(set, name.as_slice(), &tree) {
        // an insertion where there is room takes no memory
        let _ = set.insert(name, tree);
    }
}

/// Whether a definition leaves the set as it is: a blank one of a name that is there.
#[tactic(auto, using(crate::proofs::SetLemmas::views), unfolding(crate::specs::View::entries_view, crate::specs::View::set_view))]
fn keeps(set: &IndexMap<Vec<u8>, Tree, NameHash>, name: &[u8], tree: &Tree) -> bool
    ensures { result ≡ (is_blank (tree_of tree.now).nodes && is_some (tree_named name.now (entries_view set.now.entries))) }
{
    is_blank(tree.nodes.as_slice()) && set.contains_key(name)
}
