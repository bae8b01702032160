ghost use Rattle.std.specs.Prelude.{◌≡◌, ◌==◌, ◌++◌, ◌∷◌, [], not, filter, IsTrue, OnOk, IfOk};
ghost use Rattle.std.specs.List.{find, list_any};
ghost use Rattle.std.specs.Option.{option_copied};
ghost use Rattle.zb_table.specs.Rows.{Ascend, are_below};
ghost use Rattle.zb_views.specs.Starts.{is_started_with};

use std::alloc::{AllocError, Global};
use std::marker::Model;
use std::mem;
use zb_lists::Lists;
use zb_model::Key;
use zb_rows::Rows;
use zb_views::Started;

/// The instances that messages have started and that are there, in the order of their keys. Contracts see the list of
/// them.
#[derive(Drop)]
pub struct Starts {
    rows: Rows<Started>,
    // The keys of the instances under their processes and correlation keys.
    lists: Lists,
}

impl Model for Starts {
    ghost use Rattle.std.specs.Prelude.{List};
    ghost use Rattle.zb_views.specs.declared.started.Started.{Started};
    ghost use Rattle.zb_starts.specs.Listing.{AreStartsListed};

    ghost Value = { List Started };

    ghost view = { λ s. s.rows };

    ghost invariant = { λ s. AreStartsListed s.rows s.lists };
}

impl Starts {
    /// No instances. It takes no memory.
    pub fn empty(alloc: Global) -> Starts
        ensures { result ≡ [] }
    {
        Starts {
            rows: Rows::empty(alloc),
            lists: Lists::empty(alloc),
        }
    }

    /// The instance with this key, as a message has started it. It takes the logarithm of how many there are.
    pub fn get(&self, instance: Key) -> Option<&Started>
        ensures started { option_copied result ≡ find (λ s. s.instance == instance) self.now }
        ensures order { Ascend (λ s. s.instance) 0 self.now }
    {
        self.rows.get(instance)
    }

    /// Whether there is an instance of a process that was started with this correlation key. It takes constant time on
    /// average.
    pub fn has(&self, process: &str, correlation_key: &str) -> bool
        ensures { result ≡ list_any (is_started_with process.now correlation_key.now) self.now }
    {
        !self.lists.labelled(process, correlation_key).is_empty()
    }

    /// An instance begins that a message has started. After a refusal the instances are only dropped. It takes the
    /// logarithm of how many there are, and constant time on average beside it.
    pub fn begin(&mut self, alloc: Global, started: Started) -> Result<(), AllocError>
        requires { IsTrue (are_below (λ s. s.instance) started.instance self.old) }
        ensures { OnOk result (self.new ≡ self.old ++ started ∷ []) }
    {
        let whole = mem::replace(self, Starts::empty(alloc));
        *self = whole.with(alloc, started)?;
        Ok(())
    }

    // These instances and one more behind them.
    fn with(mut self, alloc: Global, started: Started) -> Result<Starts, AllocError>
        requires { IsTrue (are_below (λ s. s.instance) started.instance self) }
        ensures { IfOk result (λ more. more ≡ self ++ started ∷ []) }
    {
        let instance = started.instance;
        self.rows.add(started)?;
        self.lists.join(alloc, Some(instance), &self.rows)?;
        Ok(self)
    }

    /// An instance has ended: it goes, if it is there. It takes the logarithm of how many there are, and a step for each
    /// behind it of its process and correlation key, or in front of it where those are fewer.
    pub fn end(&mut self, instance: Key)
        ensures { self.new ≡ filter (λ s. not (s.instance == instance)) self.old }
    {
        self.lists.leave(Some(instance), &self.rows);
        drop(self.rows.take(instance));
    }
}
