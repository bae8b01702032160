// The messages that a subscription was given.
ghost use Rattle.std.specs.Prelude.{◌≡◌, ◌==◌, ◌++◌, ◌∷◌, [], ℕ, List, OnOk, IfOk};
ghost use Rattle.std.specs.List.{list_any};
ghost use Rattle.zb_views.specs.Given.{IsGiven};

use std::alloc::{AllocError, Global};
use std::collections::BTreeSet;
use std::marker::Model;
use zb_model::{Key, List, TryCopy};

/// The messages that a subscription was given, in that order. Contracts see the list of their keys.
#[derive(Drop)]
pub struct Given {
    keys: List<Key>,
    // The same, to find one among them.
    known: BTreeSet<Key>,
}

impl Model for Given {
    ghost Value = { List ℕ };

    ghost view = { λ g. g.keys };

    ghost invariant = { λ g. IsGiven g.keys g.known };
}

impl Given {
    /// No messages.
    pub fn empty(alloc: Global) -> Given
        ensures { result ≡ [] }
    {
        Given {
            keys: List::empty(alloc),
            known: BTreeSet::new(alloc),
        }
    }

    /// All of them.
    pub fn as_slice(&self) -> &[Key]
        ensures { result.now ≡ self.now }
    {
        self.keys.as_slice()
    }

    /// A list of them.
    pub fn listed(&self, alloc: Global) -> Result<List<Key>, AllocError>
        ensures { IfOk result (λ keys. keys ≡ self.now) }
    {
        self.keys.copy(alloc)
    }

    /// Whether a message is among them. It takes the logarithm of how many there are.
    pub fn has(&self, message: Key) -> bool
        ensures { result ≡ list_any (λ key. key == message) self.now }
    {
        self.known.contains(&message)
    }

    /// Adds one. It takes the logarithm of how many there are, on average.
    pub fn push(&mut self, message: Key) -> Result<(), AllocError>
        ensures { OnOk result (self.new ≡ self.old ++ message ∷ []) }
    {
        let is_new = match self.known.insert(message) {
            Ok(is_new) => is_new,
            Err(_) => return Err(AllocError),
        };
        match self.keys.push(message) {
            Ok(()) => Ok(()),
            Err(AllocError) => {
                if is_new {
                    self.known.remove(&message);
                }
                Err(AllocError)
            }
        }
    }
}
