// Keys under pairs of texts.
ghost use Rattle.std.specs.Prelude.{◌≡◌, ℕ, ◌&&◌, List, [], OnOk, if◌then◌else◌};
ghost use Rattle.std.specs.BTreeMap.{is_at};
ghost use Rattle.std.specs.BTreeSet.{insert_key};
ghost use Rattle.std.specs.List.Sorted.{IsStrictlySortedBy};
ghost use Rattle.std.specs.Ordering.{nat_cmp};
ghost use Rattle.std.specs.Set.{remove_key};
ghost use Rattle.std.specs.Str.{bytes_eq};
ghost use Rattle.zb_line.specs.Labels.{keys_labelled};

use crate::firsts::Firsts;
use std::alloc::{AllocError, Global};
use std::collections::HashMap;
use zb_base::Key;

/// Keys under pairs of texts, ascending.
#[derive(Drop)]
pub struct Labels {
    // Under each second text, by which pairs mostly differ, what there is under the first ones.
    seconds: HashMap<String, Firsts>,
}

impl Labels {
    /// No keys. It takes no memory.
    pub fn empty(alloc: Global) -> Labels
        ensures { (a b : List ℕ) → keys_labelled result a b ≡ [] }
    {
        Labels {
            seconds: HashMap::new(alloc),
        }
    }

    /// The keys under a pair, ascending. It takes constant time on average.
    pub fn keys(&self, first: &str, second: &str) -> &[Key]
        ensures keys { result.now ≡ keys_labelled self.now first.now second.now }
        ensures order { IsStrictlySortedBy nat_cmp (keys_labelled self.now first.now second.now) }
    {
        match self.seconds.get(second) {
            Some(firsts) => firsts.keys(first),
            None => &[],
        }
    }

    /// Puts a key to those under a pair, unless it is there. After a refusal they are only dropped. It takes
    /// what `Line::add` does, and constant time on average beside it.
    pub fn join(
        &mut self,
        alloc: Global,
        first: &str,
        second: &str,
        key: Key,
    ) -> Result<(), AllocError>
        ensures { OnOk result ((a b : List ℕ) → keys_labelled self.new a b
            ≡ (if bytes_eq first.now a && bytes_eq second.now b
            then insert_key nat_cmp (keys_labelled self.old a b) key else keys_labelled self.old a b)) }
    {
        let text = String::from_str(alloc, second)?;
        let firsts = self.seconds.entry(text)?.or_insert(Firsts::empty(alloc));
        firsts.join(alloc, first, key)
    }

    /// Takes a key from those under a pair, if it is there. It takes what `Line::remove` does, and constant time on
    /// average beside it.
    pub fn leave(&mut self, first: &str, second: &str, key: Key)
        ensures order { IsStrictlySortedBy nat_cmp (keys_labelled self.old first.now second.now) }
        ensures left { (a b : List ℕ) → keys_labelled self.new a b
            ≡ (if bytes_eq first.now a && bytes_eq second.now b
            then remove_key (is_at (nat_cmp key)) (keys_labelled self.old a b) else keys_labelled self.old a b) }
    {
        let Some(firsts) = self.seconds.get_mut(second) else {
            return;
        };
        firsts.leave(first, key);
        if firsts.is_empty() {
            self.seconds.remove(second);
        }
    }
}
