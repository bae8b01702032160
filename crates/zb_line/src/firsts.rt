// Keys under the first texts of pairs that have the second in common.
ghost use Rattle.std.specs.Prelude.{◌≡◌, ℕ, List, [], IfOk, IsTrue, OnOk, if◌then◌else◌};
ghost use Rattle.std.specs.BTreeMap.{is_at};
ghost use Rattle.std.specs.BTreeSet.{insert_key};
ghost use Rattle.std.specs.List.Sorted.{IsStrictlySortedBy};
ghost use Rattle.std.specs.Ordering.{nat_cmp};
ghost use Rattle.std.specs.Set.{remove_key};
ghost use Rattle.std.specs.Str.{bytes_eq};
ghost use Rattle.zb_line.specs.Labels.{keys_at, keys_by_first};

use crate::keys::Keys;
use crate::texts::Texts;
use std::alloc::{AllocError, Global};
use std::mem;
use zb_base::{Key, Text};

/// Keys under texts, ascending. Those under a single text need no map.
#[derive(Drop)]
pub enum Firsts {
    One(Text, Keys),
    Several(Texts),
}

impl Firsts {
    /// No keys. It takes no memory.
    pub fn empty(alloc: Global) -> Firsts
        ensures { (text : List ℕ) → keys_by_first result text ≡ [] }
    {
        Firsts::One(Text::empty(alloc), Keys::empty())
    }

    /// Whether there are no keys.
    pub fn is_empty(&self) -> bool
        ensures { IsTrue result → (text : List ℕ) → keys_by_first self.now text ≡ [] }
    {
        match self {
            Firsts::One(_, keys) => keys.is_empty(),
            Firsts::Several(texts) => texts.is_empty(),
        }
    }

    /// The keys under a text.
    pub fn keys(&self, first: &str) -> &[Key]
        ensures keys { result.now ≡ keys_by_first self.now first.now }
        ensures order { IsStrictlySortedBy nat_cmp (keys_by_first self.now first.now) }
    {
        match self {
            Firsts::One(single, keys) => keys_if(single.as_str() == first, keys),
            Firsts::Several(texts) => texts.keys(first),
        }
    }

    /// Puts a key under a text, unless it is there. After a refusal the keys are only dropped.
    pub fn join(&mut self, alloc: Global, first: &str, key: Key) -> Result<(), AllocError>
        ensures { OnOk result ((text : List ℕ) → keys_by_first self.new text
            ≡ (if bytes_eq first.now text
            then insert_key nat_cmp (keys_by_first self.old text) key else keys_by_first self.old text)) }
    {
        if self.is_empty() {
            *self = Firsts::One(Text::of(alloc, first)?, Keys::one(key));
            return Ok(());
        }
        match self {
            Firsts::One(single, keys) if single.as_str() == first => keys.add(alloc, key),
            Firsts::One(single, keys) => {
                let keys = mem::replace(keys, Keys::empty());
                *self = Firsts::Several(both(alloc, single.as_str(), keys, first, key)?);
                Ok(())
            }
            Firsts::Several(texts) => texts.join(alloc, first, key),
        }
    }

    /// Takes a key from under a text, if it is there.
    pub fn leave(&mut self, first: &str, key: Key)
        ensures order { IsStrictlySortedBy nat_cmp (keys_by_first self.old first.now) }
        ensures left { (text : List ℕ) → keys_by_first self.new text
            ≡ (if bytes_eq first.now text
            then remove_key (is_at (nat_cmp key)) (keys_by_first self.old text) else keys_by_first self.old text) }
    {
        match self {
            Firsts::One(single, keys) => {
                if single.as_str() == first {
                    keys.remove(key);
                }
            }
            Firsts::Several(texts) => texts.leave(first, key),
        }
    }
}

// These keys, or none.
fn keys_if(holds: bool, keys: &Keys) -> &[Key]
    ensures keys { result.now ≡ (if holds then keys.now else []) }
    ensures order { IsStrictlySortedBy nat_cmp (if holds then keys.now else []) }
{
    if holds { keys.as_slice() } else { &[] }
}

// These keys under their text, and one more under another.
fn both(alloc: Global, single: &str, keys: Keys, first: &str, key: Key) -> Result<Texts, AllocError>
    ensures { IfOk result (λ texts. (text : List ℕ) → keys_at texts text
        ≡ (if bytes_eq first.now text
        then insert_key nat_cmp (if bytes_eq single.now text then keys else []) key
        else (if bytes_eq single.now text then keys else []))) }
{
    let mut texts = Texts::empty(alloc);
    texts.put(alloc, single, keys)?;
    texts.join(alloc, first, key)?;
    Ok(texts)
}
