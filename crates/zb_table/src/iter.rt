// Going through a table.
ghost use Rattle.std.specs.Iterator.{YieldsFirstRef, item_count};

use crate::Row;
use crate::row::Place;
use std::marker::Model;

/// The rows of a table, in the order of their keys. Contracts see the list of those that are left.
#[derive(Drop)]
pub struct Iter<'a, R: Row> {
    pub(crate) places: &'a [Place<R>],
}

impl<'a, R: Row> Model for Iter<'a, R> {
    ghost use Rattle.std.specs.Prelude as prelude;
    ghost use Rattle.zb_table.specs.Places.{rows_in};

    ghost Value = { prelude.List R };

    ghost view = { λ it. rows_in it.places.now };
}

impl<'a, R: Row> Iterator for Iter<'a, R> {
    type Item = &'a R;

    ghost next_gives = { YieldsFirstRef (λ rows. rows) };

    ghost remaining = { item_count (λ rows. rows) };

    fn next(&mut self) -> Option<&'a R> {
        while let Some((place, behind)) = self.places.split_first() {
            self.places = behind;
            if let Some(row) = &place.row {
                return Some(row);
            }
        }
        None
    }
}
