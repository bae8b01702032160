ghost use Rattle.std.specs.Prelude.{◌≡◌, ◌↔◌, ◌<◌, ◌≤◌, [], drop, length, IfOk, IsTrue, OnErr, OnOk};
ghost use Rattle.std.specs.BTreeMap.{is_at};
ghost use Rattle.std.specs.BTreeSet.{insert_key};
ghost use Rattle.std.specs.List.{insert, list_any, remove};
ghost use Rattle.std.specs.List.Sorted.{IsStrictlySortedBy};
ghost use Rattle.std.specs.Set.{remove_key};

use crate::place::{move_down, move_up, place_of, put_at};
use std::alloc::{AllocError, Global};
use std::marker::Model;

/// Members in their order, each once. Contracts see the list of them.
#[derive(Drop)]
pub struct Line<T: Ord + Copy> {
    items: Vec<T>,
    // What stands in front of this place is no member any more, but room.
    from: usize,
}

impl<T: Ord + Copy> Model for Line<T> {
    ghost use Rattle.std.specs.Prelude as prelude;
    ghost use Rattle.zb_line.specs.Line.{IsLine};

    ghost Value = { prelude.List T };

    ghost view = { λ l. prelude.drop l.from l.items.items };

    ghost invariant = { λ l. IsLine T.cmp l.from l.items.items };
}

impl<T: Ord + Copy> Line<T> {
    /// No members. It takes no memory.
    pub fn empty(alloc: Global) -> Line<T>
        ensures { result ≡ [] }
    {
        Line {
            items: Vec::new(alloc),
            from: 0,
        }
    }

    /// The members of a list, where an equal member a second time is let go of. It sorts them once.
    pub fn of(mut items: Vec<T>) -> Line<T>
        ensures { (x : T) → list_any (is_at (T.cmp x)) result ≡ list_any (is_at (T.cmp x)) items.items }
    {
        items.sort_unstable();
        items.dedup();
        Line { items, from: 0 }
    }

    /// The members in their order.
    pub fn as_slice(&self) -> &[T]
        ensures items { result.now ≡ self.now }
        ensures order { IsStrictlySortedBy T.cmp self.now }
    {
        &self.items[self.from..]
    }

    /// Whether there are none.
    pub fn is_empty(&self) -> bool
        ensures { IsTrue result ↔ (self.now ≡ []) }
    {
        self.as_slice().is_empty()
    }

    /// Adds a member in its place, unless an equal one is there. After a refusal nothing has changed. Behind all
    /// others, as it mostly is, it takes constant time on average and no search. Else it takes the logarithm of how
    /// many members there are, and a step for each behind the place, or in front of it where those are fewer and there
    /// is room.
    pub fn add(&mut self, item: T) -> Result<(), AllocError>
        ensures ok { OnOk result (self.new ≡ insert_key T.cmp self.old item) }
        ensures err { OnErr result (self.new ≡ self.old) }
    {
        match place_of(&item, self.as_slice()) {
            Ok(_) => Ok(()),
            Err(place) => self.put(place, item),
        }
    }

    /// Removes the member that is equal to this one, if there is one. The first takes constant time on average and no
    /// search. Else it takes the logarithm of how many members there are, and a step for each on the shorter side of
    /// it.
    pub fn remove(&mut self, item: T)
        ensures left { self.new ≡ remove_key (is_at (T.cmp item)) self.old }
        ensures order { IsStrictlySortedBy T.cmp self.old }
    {
        if let Ok(place) = place_of(&item, self.as_slice()) {
            self.take(place);
            self.give_back();
        }
    }

    // Puts a member in at a place. Those on the shorter side of it move, where there is room in front.
    fn put(&mut self, place: usize, item: T) -> Result<(), AllocError>
        requires within { place ≤ length self.old }
        requires order { IsStrictlySortedBy T.cmp (insert self.old place item) }
        ensures ok { OnOk result (self.new ≡ insert self.old place item) }
        ensures err { OnErr result (self.new ≡ self.old) }
    {
        if self.from > 0 && place < (self.items.len() - self.from) / 2 {
            self.from -= 1;
            move_down(&mut self.items[self.from..], place, item);
            return Ok(());
        }
        put_at(self.from + place, item, &mut self.items)?;
        Ok(())
    }

    // Takes the member at a place out. Those on the shorter side of it move.
    fn take(&mut self, place: usize)
        requires { place < length self.old }
        ensures { self.new ≡ remove self.old place }
    {
        if place < (self.items.len() - self.from) / 2 {
            move_up(&mut self.items[self.from..], place);
            self.from += 1;
        } else {
            self.items.remove(self.from + place);
        }
    }

    // Gives the room in front back, where it is more than half.
    fn give_back(&mut self)
        ensures { self.new ≡ self.old }
    {
        if self.from > self.items.len() / 2 {
            self.items.drain(..self.from);
            self.from = 0;
        }
    }
}
