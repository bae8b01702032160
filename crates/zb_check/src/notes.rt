// What is noted under ids.
ghost use Rattle.std.specs.Prelude.{◌≡◌, ℕ, List, Some, None, cond, IfOk, OnOk, is_some, ◌&&◌, ◌||◌, ◌+◌, ◌^◌, ◌<◌};
ghost use Rattle.std.specs.Str.{bytes_eq};
ghost use Rattle.std.specs.Option.{option_or};
ghost use Rattle.zb_check.specs.Notes.{noted, count_in};

use std::alloc::{AllocError, Global};
use std::collections::BTreeMap;
use zb_base::Text;

/// A value under each of some ids. A value is noted and found in a time that grows with the logarithm of how
/// many there are.
#[derive(Drop)]
pub struct Notes<'a, V: Copy> {
    values: BTreeMap<&'a str, V>,
}

#[tactic(auto, unfolding(crate::specs::Notes::noted))]
impl<'a, V: Copy> Notes<'a, V> {
    /// No notes.
    pub fn empty(alloc: Global) -> Notes<'a, V>
        ensures { (id : List ℕ) → noted result id ≡ None }
    {
        Notes {
            values: BTreeMap::new(alloc),
        }
    }

    /// What is noted under an id.
    pub fn get(&self, id: &Text) -> Option<V>
        ensures { result ≡ noted self.now id.now }
    {
        self.values.get(id.as_str()).copied()
    }

    /// Notes a value under an id, in place of what was there.
    pub fn put(&mut self, id: &'a Text, value: V) -> Result<(), AllocError>
        ensures { OnOk result ((q : List ℕ)
            → noted self.new q ≡ cond (bytes_eq id.now q) (Some value) (noted self.old q)) }
    {
        self.values.insert(id.as_str(), value)?;
        Ok(())
    }

    /// Notes a value under an id, where nothing was.
    pub fn keep(&mut self, id: &'a Text, value: V) -> Result<(), AllocError>
        ensures { OnOk result ((q : List ℕ)
            → noted self.new q ≡ option_or (noted self.old q) (cond (bytes_eq id.now q) (Some value) None)) }
    {
        if self.get(id).is_some() {
            return Ok(());
        }
        self.put(id, value)
    }
}

impl<'a> Notes<'a, usize> {
    /// How often an id was counted.
    pub fn count(&self, id: &Text) -> usize
        ensures { result ≡ count_in self.now id.now }
    {
        self.get(id).unwrap_or(0)
    }

    /// Counts an id once more.
    pub fn add(&mut self, id: &'a Text) -> Result<(), AllocError>
        requires { count_in self.old id.now + 1 < 2 ^ 64 }
        ensures { OnOk result ((q : List ℕ)
            → count_in self.new q ≡ count_in self.old q + cond (bytes_eq id.now q) 1 0) }
    {
        let counted = self.count(id);
        self.put(id, counted + 1)
    }
}

/// Notes an id where a test holds.
#[tactic(auto, using(crate::proofs::LookLemmas::some_put))]
pub fn note_where<'a>(
    notes: &mut Notes<'a, ()>,
    id: &'a Text,
    holds: bool,
) -> Result<(), AllocError>
    ensures { OnOk result ((q : List ℕ)
        → is_some (noted notes.new q) ≡ ((holds && bytes_eq id.now q) || is_some (noted notes.old q))) }
{
    if holds {
        return notes.put(id, ());
    }
    Ok(())
}
