// What is listed of the rows of a state.
ghost use Rattle.std.specs.Prelude.{◌≡◌, List, [], IfOk, OnOk};
ghost use Rattle.zb_jobs.specs.Table.{HaveOwnCells};
ghost use Rattle.zb_state.specs.declared.facts.Facts.{Facts};
ghost use Rattle.zb_state.specs.Listing.{IsListingOf, IsListingBut, IsSameElse};
ghost use Rattle.zb_state.specs.State.{partition_of};

use crate::facts::Facts;
use std::alloc::{AllocError, Global};
use zb_lists::Lists;
use zb_tables::Named;

/// The lists of the messages, of the jobs and of the timers.
#[derive(Drop)]
pub struct Listing {
    /// Messages by their deadlines, and under their names and correlation keys.
    pub messages: Lists,
    /// Jobs by their deadlines where workers have them, and under their types where workers may be given them.
    pub jobs: Lists,
    /// Timers by the moments at which they are due.
    pub timers: Lists,
}

impl Listing {
    /// The lists of no rows. They take no memory.
    pub fn empty(alloc: Global) -> Listing
        ensures { (facts : Facts) → facts.messages ≡ [] → facts.tables.jobs ≡ [] → facts.tables.timers ≡ [] → IsListingOf facts result }
    {
        Listing {
            messages: Lists::empty(alloc),
            jobs: Lists::empty(alloc),
            timers: Lists::empty(alloc),
        }
    }

    /// The lists of the rows that are there. It costs what `Lists::of` does.
    pub fn of(alloc: Global, facts: &Facts) -> Result<Listing, AllocError>
        ensures { IfOk result (λ listing. IsListingOf facts.now listing) }
    {
        Ok(Listing {
            messages: Lists::of(alloc, facts.messages.rows())?,
            jobs: Lists::of(alloc, facts.tables.jobs.rows())?,
            timers: Lists::of(alloc, facts.tables.timers.rows())?,
        })
    }

    /// Lists the rows that an event names no more. It costs what `Lists::leave` does.
    pub fn leave(&mut self, named: &Named, facts: &Facts)
        ensures listing { IsListingOf facts.now self.old → IsListingBut named.now facts.now self.new }
        ensures cells { HaveOwnCells facts.now.tables.jobs }
    {
        self.messages.leave(named.message, facts.messages.rows());
        self.jobs.leave(named.job, facts.tables.jobs.rows());
        self.timers.leave(named.timer, facts.tables.timers.rows());
    }

    // Lists the rows that an event names, as they are now. After a refusal the lists are only dropped.
    fn join(&mut self, alloc: Global, named: &Named, facts: &Facts) -> Result<(), AllocError>
        ensures { (before : Facts) → IsListingBut named.now before self.old → IsSameElse named.now before facts.now → OnOk result (IsListingOf facts.now self.new) }
    {
        self.messages
            .join(alloc, named.message, facts.messages.rows())?;
        self.jobs.join(alloc, named.job, facts.tables.jobs.rows())?;
        self.timers
            .join(alloc, named.timer, facts.tables.timers.rows())?;
        Ok(())
    }
}

/// Lists the rows that an event names, as they are now. After a refusal the facts are only dropped.
pub fn relist(
    alloc: Global,
    named: &Named,
    facts: &mut Facts,
    listing: &mut Listing,
) -> Result<(), AllocError>
    ensures listing { (before : Facts) → IsListingBut named.now before listing.old → IsSameElse named.now before facts.old → IsListingOf facts.new listing.new }
    ensures place { partition_of facts.new ≡ partition_of facts.old }
    ensures same { OnOk result (facts.new ≡ facts.old) }
{
    match listing.join(alloc, named, facts) {
        Ok(()) => Ok(()),
        Err(AllocError) => {
            clear(alloc, facts, listing);
            Err(AllocError)
        }
    }
}

/// Leaves no messages, no jobs and no timers, and their lists.
pub fn clear(alloc: Global, facts: &mut Facts, listing: &mut Listing)
    ensures listing { IsListingOf facts.new listing.new }
    ensures place { partition_of facts.new ≡ partition_of facts.old }
{
    facts.clear(alloc);
    *listing = Listing::empty(alloc);
}
