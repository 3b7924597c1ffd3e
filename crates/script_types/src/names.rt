ghost use Rattle.std.specs.Prelude.{◌≡◌, ℕ, List, Option, None, Some, OnOk, if◌then◌else◌};
ghost use Rattle.std.specs.Str.{bytes_eq};
ghost use Rattle.script_types.specs.inside.Look.{look};

use indexmap::IndexMap;
use std::alloc::{AllocError, Global};

/// A value for each of some names. Looking up and setting take time in proportion to the name.
#[derive(Drop)]
pub struct Names<V: Copy> {
    values: IndexMap<Vec<u8>, V>,
}

impl<V: Copy> Names<V> {
    /// No name has a value.
    pub fn new(alloc: Global) -> Names<V>
        ensures { (name : List ℕ) → look result.values name ≡ None }
    {
        Names {
            values: IndexMap::new(alloc),
        }
    }

    /// The value of a name.
    pub fn get(&self, name: &[u8]) -> Option<V>
        ensures { result ≡ look self.now.values name.now }
    {
        self.values.get(name).copied()
    }

    /// Gives a name this value.
    pub fn set(&mut self, alloc: Global, name: &[u8], value: V) -> Result<(), AllocError>
        ensures { OnOk result ((other : List ℕ) → look self.new.values other ≡ (if bytes_eq other name.now then Some value else look self.old.values other)) }
    {
        let key = Vec::from_slice(alloc, name)?;
        self.values.insert(key, value)?;
        Ok(())
    }
}
