use indexmap::IndexSet;
use std::alloc::{AllocError, Global};
use std::marker::Model;

/// Names in order, each once.
#[derive(Drop)]
pub struct Column {
    names: IndexSet<String>,
}

impl Model for Column {
    ghost use Rattle.std.specs.Prelude.{List, ℕ, map, string_bytes};

    ghost Value = { List (List ℕ) };

    ghost view = { λ a. map string_bytes a.names.keys };
}

impl Column {
    ghost use Rattle.std.specs.Prelude.{◌≡◌, ◌<◌, [], ◌∷◌, ◌++◌, length, slice_index_or, IfOk};
    ghost use Rattle.std.specs.Prelude.{OnOk, OnErr, is_some, if◌then◌else◌};
    ghost use Rattle.nt_line.specs.Places.{place, placed};

    pub fn new(alloc: Global) -> Column
        ensures { result ≡ [] }
    {
        Column {
            names: IndexSet::new(alloc),
        }
    }

    pub fn len(&self) -> usize
        ensures { result ≡ length self.now }
    {
        self.names.len()
    }

    /// Where a name stands.
    pub fn place(&self, name: &str) -> Option<usize>
        ensures { result ≡ place name.now self.now }
    {
        if self.names.is_empty() {
            return None;
        }
        self.names.get_index_of(name)
    }

    /// Adds a name behind the others, unless it is there.
    pub fn push(&mut self, alloc: Global, name: &str) -> Result<(), AllocError>
        ensures { OnOk result (self.new ≡ placed name.now self.old) }
    {
        self.names.insert(String::from_str(alloc, name)?)?;
        Ok(())
    }

    pub fn at(&self, place: usize) -> &str
        requires { place < length self.now }
        ensures { result.now ≡ slice_index_or self.now place [] }
    {
        match self.names.get_index(place) {
            Some(name) => name.as_str(),
            None => unreachable!(),
        }
    }
}
