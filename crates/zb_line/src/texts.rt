// Keys under texts.
ghost use Rattle.std.specs.Prelude.{◌≡◌, ℕ, List, [], IsTrue, OnOk, if◌then◌else◌};
ghost use Rattle.std.specs.BTreeMap.{is_at};
ghost use Rattle.std.specs.BTreeSet.{insert_key};
ghost use Rattle.std.specs.List.Sorted.{IsStrictlySortedBy};
ghost use Rattle.std.specs.Ordering.{nat_cmp};
ghost use Rattle.std.specs.Set.{remove_key};
ghost use Rattle.std.specs.Str.{bytes_eq};
ghost use Rattle.zb_line.specs.Labels.{keys_at};

use crate::keys::Keys;
use std::alloc::{AllocError, Global};
use std::collections::HashMap;
use zb_base::Key;

/// Keys under texts, ascending.
#[derive(Drop)]
pub struct Texts {
    texts: HashMap<String, Keys>,
}

impl Texts {
    /// No keys. It takes no memory.
    pub fn empty(alloc: Global) -> Texts
        ensures { (text : List ℕ) → keys_at result text ≡ [] }
    {
        Texts {
            texts: HashMap::new(alloc),
        }
    }

    /// Whether there are no texts.
    pub fn is_empty(&self) -> bool
        ensures { IsTrue result → (text : List ℕ) → keys_at self.now text ≡ [] }
    {
        self.texts.is_empty()
    }

    /// The keys under a text.
    pub fn keys(&self, name: &str) -> &[Key]
        ensures keys { result.now ≡ keys_at self.now name.now }
        ensures order { IsStrictlySortedBy nat_cmp (keys_at self.now name.now) }
    {
        match self.texts.get(name) {
            Some(keys) => keys.as_slice(),
            None => &[],
        }
    }

    /// Puts a key under a text, unless it is there.
    pub fn join(&mut self, alloc: Global, name: &str, key: Key) -> Result<(), AllocError>
        ensures { OnOk result ((text : List ℕ) → keys_at self.new text
            ≡ (if bytes_eq name.now text
            then insert_key nat_cmp (keys_at self.old text) key else keys_at self.old text)) }
    {
        match self.texts.get_mut(name) {
            Some(keys) => keys.add(alloc, key),
            None => self.put(alloc, name, Keys::one(key)),
        }
    }

    /// Puts these keys under a text, in place of those there.
    pub fn put(&mut self, alloc: Global, name: &str, keys: Keys) -> Result<(), AllocError>
        ensures { OnOk result ((text : List ℕ) → keys_at self.new text
            ≡ (if bytes_eq name.now text then keys else keys_at self.old text)) }
    {
        self.texts.insert(String::from_str(alloc, name)?, keys)?;
        Ok(())
    }

    /// Takes a key from under a text, if it is there.
    pub fn leave(&mut self, name: &str, key: Key)
        ensures order { IsStrictlySortedBy nat_cmp (keys_at self.old name.now) }
        ensures left { (text : List ℕ) → keys_at self.new text
            ≡ (if bytes_eq name.now text
            then remove_key (is_at (nat_cmp key)) (keys_at self.old text) else keys_at self.old text) }
    {
        let Some(keys) = self.texts.get_mut(name) else {
            return;
        };
        keys.remove(key);
        if keys.is_empty() {
            self.texts.remove(name);
        }
    }
}
