// Pairs of texts that are noted.
ghost use Rattle.std.specs.Prelude.{◌≡◌, ℕ, List, None, IfOk, OnOk, false, ◌&&◌, ◌||◌};
ghost use Rattle.std.specs.Str.{bytes_eq};
ghost use Rattle.zb_check.specs.Pairs.{is_noted, notes_at};

use crate::notes::Notes;
use std::alloc::{AllocError, Global};
use std::collections::BTreeMap;
use zb_base::Text;

/// Some pairs of texts. A pair is noted and found in a time that grows with the logarithm of how many there are.
#[derive(Drop)]
pub struct Pairs<'a> {
    // Under each first text, the second ones.
    seconds: BTreeMap<&'a str, Notes<'a, ()>>,
}

impl<'a> Pairs<'a> {
    /// No pairs.
    pub fn empty(alloc: Global) -> Pairs<'a>
        ensures { (p q : List ℕ) → is_noted result p q ≡ false }
    {
        Pairs {
            seconds: BTreeMap::new(alloc),
        }
    }

    /// Whether a pair is noted.
    pub fn has(&self, first: &Text, second: &Text) -> bool
        ensures { result ≡ is_noted self.now first.now second.now }
    {
        match self.seconds.get(first.as_str()) {
            Some(seconds) => seconds.get(second).is_some(),
            None => false,
        }
    }

    /// Notes a pair.
    pub fn put(
        &mut self,
        alloc: Global,
        first: &'a Text,
        second: &'a Text,
    ) -> Result<(), AllocError>
        ensures { OnOk result ((p q : List ℕ)
            → is_noted self.new p q ≡ ((bytes_eq first.now p && bytes_eq second.now q) || is_noted self.old p q)) }
    {
        match self.seconds.get_mut(first.as_str()) {
            Some(seconds) => {
                seconds.put(second, ())?;
                Ok(())
            }
            None => self.begin(alloc, first, second),
        }
    }

    // Notes a pair whose first text has none so far.
    fn begin(&mut self, alloc: Global, first: &'a Text, second: &'a Text) -> Result<(), AllocError>
        requires { notes_at self.old first.now ≡ None }
        ensures { OnOk result ((p q : List ℕ)
            → is_noted self.new p q ≡ ((bytes_eq first.now p && bytes_eq second.now q) || is_noted self.old p q)) }
    {
        let mut seconds = Notes::empty(alloc);
        seconds.put(second, ())?;
        self.seconds.insert(first.as_str(), seconds)?;
        Ok(())
    }
}
