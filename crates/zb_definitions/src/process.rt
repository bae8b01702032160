ghost use Rattle.std.specs.Prelude.{◌≡◌, ◌==◌, [], ℕ, max, Option, Some, OnOk, if◌then◌else◌};
ghost use Rattle.zb_definitions.specs.Versions.{counting_key, greater_key};

use crate::version::Version;
use std::alloc::{AllocError, Global};
use zb_model::Key;
use zb_table::Table;

/// The versions of a process.
#[derive(Drop)]
pub struct Process {
    /// The greatest one, or 0.
    pub latest: u32,
    pub versions: Table<Version>,
}

impl Process {
    /// A process without versions. It takes no memory.
    pub fn empty(alloc: Global) -> Process
        ensures latest { result.latest ≡ 0 }
        ensures versions { result.versions ≡ [] }
    {
        Process {
            latest: 0,
            versions: Table::empty(alloc),
        }
    }

    /// The key of the definition that counts for a version. It takes the logarithm of how many versions there are.
    pub fn definition(&self, version: u32) -> Option<Key>
        ensures { result ≡ counting_key version self.now.versions }
    {
        match self.versions.get(Key::new(u64::from(version))) {
            Some(found) => Some(found.definition),
            None => None,
        }
    }

    /// Takes in that a definition has a version. After a refusal the process is only dropped. It takes constant time
    /// where the version is the greatest, and else a step for each greater one.
    pub fn put(&mut self, version: u32, definition: Key) -> Result<(), AllocError>
        ensures latest { OnOk result (self.new.latest ≡ max version self.old.latest) }
        ensures keys { OnOk result ((other : ℕ) → counting_key other self.new.versions
            ≡ (if version == other then Some (greater_key definition (counting_key other self.old.versions)) else counting_key other self.old.versions)) }
    {
        let definition = greater_key(definition, self.definition(version));
        self.versions.add(Version {
            number: version,
            definition,
        })?;
        self.latest = self.latest.max(version);
        Ok(())
    }
}

// The greater one of a key and another, if there is another.
fn greater_key(key: Key, found: Option<Key>) -> Key
    ensures { result ≡ greater_key key found }
{
    match found {
        Some(other) => key.max(other),
        None => key,
    }
}
