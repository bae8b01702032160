ghost use Rattle.std.specs.Prelude.{◌≡◌, ◌<◌, ◌^◌, [], length, IfOk, OnOk};
ghost use Rattle.std.specs.BTreeSet.{insert_key};
ghost use Rattle.zb_base.specs.Vars.{order_of};

use std::alloc::{AllocError, Global};
use std::collections::BTreeSet;
use std::marker::Model;
use zb_model::Text;

/// Ids of processes, each once. Contracts see the list of them, in byte order.
#[derive(Drop)]
pub struct Ids {
    ids: BTreeSet<String>,
}

impl Model for Ids {
    ghost use Rattle.std.specs.Prelude.{ℕ, List, map};
    ghost use Rattle.std.specs.String.{string_bytes};

    ghost Value = { List (List ℕ) };

    ghost view = { λ i. map string_bytes i.ids.keys };
}

impl Ids {
    /// No ids. It takes no memory.
    pub fn empty(alloc: Global) -> Ids
        ensures { result ≡ [] }
    {
        Ids {
            ids: BTreeSet::new(alloc),
        }
    }

    /// Adds an id, unless it is there. After a refusal the ids are only dropped. It takes the logarithm of how many
    /// there are.
    pub fn add(&mut self, alloc: Global, id: &str) -> Result<(), AllocError>
        ensures { OnOk result (self.new ≡ insert_key order_of self.old id.now) }
    {
        self.ids.insert(String::from_str(alloc, id)?)?;
        Ok(())
    }

    /// How many there are.
    pub fn len(&self) -> usize
        ensures len { result ≡ length self.now }
        ensures small { result < 2 ^ 63 }
    {
        self.ids.len()
    }

    /// Copies of them. It takes a step for each.
    pub fn copied(&self, alloc: Global) -> Result<Vec<Text>, AllocError>
        ensures { IfOk result (λ ids. ids.items ≡ self.now) }
    {
        let mut ids = Vec::new(alloc);
        for id in &self.ids {
            ids.push(Text::of(alloc, id.as_str())?)?;
        }
        Ok(ids)
    }
}
