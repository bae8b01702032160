ghost use Rattle.std.specs.Prelude.{◌≡◌, ◌↔◌, ◌∷◌, [], IfOk, IsTrue, OnErr, OnOk};
ghost use Rattle.std.specs.BTreeMap.{is_at};
ghost use Rattle.std.specs.BTreeSet.{insert_key};
ghost use Rattle.std.specs.List.Sorted.{IsStrictlySortedBy};
ghost use Rattle.std.specs.Ordering.{nat_cmp};
ghost use Rattle.std.specs.Set.{remove_key};

use crate::Line;
use std::alloc::{AllocError, Global};
use std::marker::Model;
use std::slice;
use zb_base::Key;

/// Keys, ascending. A single one takes no memory. Contracts see the list of them.
#[derive(Drop)]
pub struct Keys {
    kept: Kept,
}

/// Where keys stand.
#[derive(Drop)]
pub enum Kept {
    /// At most one.
    InPlace(Option<Key>),
    Apart(Line<Key>),
}

impl Model for Keys {
    ghost use Rattle.std.specs.Prelude.{ℕ, List};
    ghost use Rattle.zb_line.specs.Keys.{keys_kept};

    ghost Value = { List ℕ };

    ghost view = { λ k. keys_kept k.kept };
}

impl Keys {
    /// No keys.
    pub fn empty() -> Keys
        ensures { result ≡ [] }
    {
        Keys {
            kept: Kept::InPlace(None),
        }
    }

    /// A single key.
    pub fn one(key: Key) -> Keys
        ensures { result ≡ key ∷ [] }
    {
        Keys {
            kept: Kept::InPlace(Some(key)),
        }
    }

    /// The keys.
    pub fn as_slice(&self) -> &[Key]
        ensures items { result.now ≡ self.now }
        ensures order { IsStrictlySortedBy nat_cmp self.now }
    {
        match &self.kept {
            Kept::InPlace(Some(key)) => slice::from_ref(key),
            Kept::InPlace(None) => &[],
            Kept::Apart(line) => line.as_slice(),
        }
    }

    /// Whether there are none.
    pub fn is_empty(&self) -> bool
        ensures { IsTrue result ↔ (self.now ≡ []) }
    {
        self.as_slice().is_empty()
    }

    /// Adds a key in its place, unless it is there. After a refusal nothing has changed. It takes what `Line::add` does.
    pub fn add(&mut self, alloc: Global, key: Key) -> Result<(), AllocError>
        ensures ok { OnOk result (self.new ≡ insert_key nat_cmp self.old key) }
        ensures err { OnErr result (self.new ≡ self.old) }
    {
        match &mut self.kept {
            Kept::InPlace(Some(only)) => {
                self.kept = Kept::Apart(both(alloc, *only, key)?);
                Ok(())
            }
            Kept::InPlace(None) => {
                self.kept = Kept::InPlace(Some(key));
                Ok(())
            }
            Kept::Apart(line) => line.add(key),
        }
    }

    /// Removes a key, if it is there. It takes what `Line::remove` does.
    pub fn remove(&mut self, key: Key)
        ensures left { self.new ≡ remove_key (is_at (nat_cmp key)) self.old }
        ensures order { IsStrictlySortedBy nat_cmp self.old }
    {
        match &mut self.kept {
            Kept::InPlace(place) => {
                if *place == Some(key) {
                    *place = None;
                }
            }
            Kept::Apart(line) => line.remove(key),
        }
    }
}

// A line of two keys; of one where they are the same.
fn both(alloc: Global, one: Key, other: Key) -> Result<Line<Key>, AllocError>
    ensures { IfOk result (λ line. line ≡ insert_key nat_cmp (one ∷ []) other) }
{
    let mut line = Line::empty(alloc);
    line.add(one)?;
    line.add(other)?;
    Ok(line)
}
