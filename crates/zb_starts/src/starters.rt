ghost use Rattle.std.specs.Prelude.{◌≡◌, [], ℕ, List, None, OnOk, if◌then◌else◌};
ghost use Rattle.std.specs.BTreeSet.{insert_key};
ghost use Rattle.std.specs.Option.{option_map_or, option_copied};
ghost use Rattle.std.specs.Str.{bytes_eq};
ghost use Rattle.indexmap.specs.IndexMap.{get_by_text};
ghost use Rattle.zb_base.specs.Vars.{order_of};

use crate::ids::Ids;
use indexmap::IndexMap;
use std::alloc::{AllocError, Global};

/// The processes of which a version starts by messages of a name, by their ids.
#[derive(Drop)]
pub struct Starters {
    names: IndexMap<String, Ids>,
}

impl Starters {
    ghost use Rattle.zb_starts.specs.Starters.{ids_under};

    /// No processes. It takes no memory.
    pub fn empty(alloc: Global) -> Starters
        ensures { (name : List ℕ) → ids_under result name ≡ [] }
    {
        Starters {
            names: IndexMap::new(alloc),
        }
    }

    /// The processes that start by messages of this name, if there are any. It takes constant time on average.
    pub fn under(&self, name: &str) -> Option<&Ids>
        ensures { option_map_or (λ ids. ids) (option_copied result) [] ≡ ids_under self.now name.now }
    {
        self.names.get(name)
    }

    /// A version of a process starts by messages of this name. After a refusal all are only dropped. It takes the
    /// logarithm of how many there are under the name.
    pub fn add(&mut self, alloc: Global, name: &str, process: &str) -> Result<(), AllocError>
        ensures { OnOk result ((other : List ℕ) → ids_under self.new other
            ≡ (if bytes_eq name.now other then insert_key order_of (ids_under self.old other) process.now else ids_under self.old other)) }
    {
        match self.names.get_mut(name) {
            Some(ids) => {
                ids.add(alloc, process)?;
                Ok(())
            }
            None => self.begin(alloc, name, process),
        }
    }

    // The same for a name that has no process so far.
    fn begin(&mut self, alloc: Global, name: &str, process: &str) -> Result<(), AllocError>
        requires { get_by_text self.old.names name.now ≡ None }
        ensures { OnOk result ((other : List ℕ) → ids_under self.new other
            ≡ (if bytes_eq name.now other then insert_key order_of (ids_under self.old other) process.now else ids_under self.old other)) }
    {
        let mut ids = Ids::empty(alloc);
        ids.add(alloc, process)?;
        self.names.insert(String::from_str(alloc, name)?, ids)?;
        Ok(())
    }
}
