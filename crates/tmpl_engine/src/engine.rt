//! An engine: templates that a host adds once and renders as often as it likes.
ghost use Rattle.std.specs.Prelude.{◌≡◌, [], IfOk};
ghost use Rattle.tmpl_syntax.specs.Set.{first_hasher, known_hasher};
ghost use Rattle.tmpl_syntax.specs.View.{set_view};
ghost use Rattle.tmpl_syntax.specs.Parse.{IsReading};
ghost use Rattle.tmpl_syntax.specs.computed.Parse.{IsParse};
ghost use Rattle.tmpl_engine.specs.Prepared.{IsPrepared};
ghost use Rattle.tmpl_engine.specs.View.{hash_of, templates_in, templates_of};

use crate::error::RenderError;
use crate::rendering::Renderer;
use std::alloc::{AllocError, Global};
use std::marker::Model;
use tmpl_syntax::{NameHash, ParseFault, Set, parse_file, parse_owned};

/// Templates that a host adds once and renders as often as it likes. It owns them, and gives back their memory when it
/// is dropped.
#[derive(Drop)]
pub struct Engine {
    set: Set,
    /// That of the templates, where one was made since a file was added.
    renderer: Option<Renderer>,
}

impl Model for Engine {
    ghost use Rattle.tmpl_syntax.specs.declared.set.Set.{Set};

    ghost Value = { Set };

    ghost use Rattle.std.specs.Coded.{codes};
    ghost use Rattle.tmpl_syntax.specs.contracts.set.Set as held;

    ghost coded = { Prim.hlevel (codes, held.the_row.coded) };

    ghost use Rattle.tmpl_engine.specs.Engine.{IsCurrent};

    ghost view = { λ e. e.set };

    ghost invariant = { IsCurrent };
}

impl Engine {
    /// An engine of no templates, whose names are hashed by keys that everyone knows.
    pub fn new(alloc: Global) -> Engine
        ensures empty { templates_of result ≡ [] }
        ensures hash { first_hasher (hash_of result) ≡ known_hasher }
    {
        Engine {
            set: Set::new(alloc),
            renderer: None,
        }
    }

    /// An engine of no templates, whose names are hashed so. Where templates come from strangers, give keys that these
    /// cannot know, so that they cannot make it slow.
    pub fn with_hash(alloc: Global, names: NameHash) -> Engine
        ensures empty { templates_of result ≡ [] }
        ensures hash { hash_of result ≡ names }
    {
        Engine {
            set: Set::with_hash(alloc, names),
            renderer: None,
        }
    }

    /// Adds the templates of a file of this path and these bytes, as `tmpl_syntax::parse_file` does: those that it
    /// defines, and its own, whose name is the part of the path after the last `/`. The bytes are copied.
    ///
    /// # Errors
    ///
    /// The file is refused, at the line and for the reason that the fault says, or memory is. The templates are then as
    /// they were.
    pub fn add<'f>(
        &mut self,
        alloc: Global,
        file: &'f str,
        bytes: &[u8],
    ) -> Result<(), ParseFault<'f>>
        ensures reading { IsReading (templates_of self.old) file.entry bytes.now (templates_of self.new) result }
        ensures value { IsParse (templates_of self.old) file.entry bytes.now (templates_of self.new) result }
        ensures hash { hash_of self.new ≡ hash_of self.old }
    {
        self.renderer = None;
        parse_file(alloc, &mut self.set, file, bytes)
    }

    /// Does what `add` does, and keeps the bytes in place of copying them.
    ///
    /// # Errors
    ///
    /// Those of `add`.
    pub fn add_owned<'f>(
        &mut self,
        alloc: Global,
        file: &'f str,
        bytes: Vec<u8>,
    ) -> Result<(), ParseFault<'f>>
        ensures reading { IsReading (templates_of self.old) file.entry bytes.items (templates_of self.new) result }
        ensures value { IsParse (templates_of self.old) file.entry bytes.items (templates_of self.new) result }
        ensures hash { hash_of self.new ≡ hash_of self.old }
    {
        self.renderer = None;
        parse_owned(alloc, &mut self.set, file, bytes)
    }

    /// Its templates, to be printed, looked up, or compiled by a [`Renderer`].
    pub fn templates(&self) -> &Set
        ensures { set_view result.now ≡ templates_of self.now }
    {
        &self.set
    }

    /// What renders its templates. They are compiled once, and again after a file was added. An error is want of memory.
    pub fn renderer(&mut self, alloc: Global) -> Result<Renderer, AllocError>
        ensures value { IfOk result (λ r. templates_in r ≡ templates_of self.old) }
        ensures same { self.new ≡ self.old }
    {
        if let Some(renderer) = &self.renderer {
            return renderer.share();
        }
        let renderer = Renderer::new(alloc, &self.set)?;
        let shared = renderer.share()?;
        self.renderer = Some(renderer);
        Ok(shared)
    }

    /// What renders the template of this name, as [`Engine::renderer`] gives it, where there is one.
    ///
    /// # Errors
    ///
    /// Those of [`Renderer::for_template`].
    pub fn renderer_for(
        &mut self,
        alloc: Global,
        name: &[u8],
    ) -> Result<Renderer, RenderError<'static>>
        ensures prepared { IsPrepared (templates_of self.old) name.now result }
        ensures same { self.new ≡ self.old }
    {
        match self.set.number(name) {
            Some(_) => match self.renderer(alloc) {
                Ok(renderer) => Ok(renderer),
                Err(_) => Err(RenderError::OutOfMemory),
            },
            None => Err(RenderError::NoTemplate),
        }
    }
}
