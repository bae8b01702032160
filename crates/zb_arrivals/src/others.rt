// Rows in a list of their own, searched from the front.
ghost use Rattle.std.specs.Prelude.{◌≡◌, ◌==◌, OnOk, filter, map, position};
ghost use Rattle.std.specs.List.{find};
ghost use Rattle.std.specs.Option.{option_copied, option_map_or};
ghost use Rattle.zb_table.specs.Edits.{edited, without_first};
ghost use Rattle.zb_table.specs.Greatest.{greatest};
ghost use Rattle.zb_arrivals.specs.Newer.{newer_of};

use std::alloc::AllocError;
use zb_base::Key;
use zb_table::{Edit, Query, Row};

/// Whether a row has this key.
#[derive(Drop)]
pub struct HasKey {
    pub key: Key,
}

impl<R: Row> Query<R> for HasKey {
    ghost passes = { λ q r. R.key_in r == q.key };

    fn passes(&self, row: &R) -> bool {
        row.key() == self.key
    }
}

// Where the first row is that passes.
fn place_of<R: Row, Q: Query<R>>(query: &Q, rows: &[R]) -> Option<usize>
    ensures { result ≡ position (Q.passes query.now) rows.now }
{
    rows.iter().position(|row| query.passes(row))
}

/// The first row that passes.
pub fn first<'a, R: Row, Q: Query<R>>(query: &Q, rows: &'a [R]) -> Option<&'a R>
    ensures { option_copied result ≡ find (Q.passes query.now) rows.now }
{
    rows.iter().find(|row| query.passes(row))
}

/// Takes away the first row that passes, if one does. Those behind it move up.
pub fn remove_first<R: Row, Q: Query<R>>(query: &Q, rows: &mut Vec<R>)
    ensures { rows.new.items ≡ without_first (Q.passes query.now) rows.old.items }
{
    if let Some(place) = place_of(query, rows) {
        rows.remove(place);
    }
}

/// Edits the first row that passes, if one does. After a refusal the rows are only dropped.
pub fn edit<R: Row, Q: Query<R>, E: Edit<R>>(
    query: &Q,
    edit: E,
    rows: &mut Vec<R>,
) -> Result<(), AllocError>
    ensures { OnOk result (rows.new.items ≡ option_map_or (λ rows. rows) (edited (Q.passes query.now) (E.edits edit) rows.old.items) rows.old.items) }
{
    let Some(place) = place_of(query, rows) else {
        return Ok(());
    };
    let row = rows.remove(place);
    rows.insert(place, edit.edit(row)?)?;
    Ok(())
}

/// The greatest key of the rows that pass.
pub fn greatest<R: Row, Q: Query<R>>(query: &Q, rows: &[R]) -> Option<Key>
    ensures { result ≡ greatest (map R.key_in (filter (Q.passes query.now) rows.now)) }
{
    let mut best = None;
    for row in rows {
        if query.passes(row) {
            best = newer_of(best, Some(row.key()));
        }
    }
    best
}

/// The greater of two keys, as far as they are there.
pub fn newer_of(one: Option<Key>, other: Option<Key>) -> Option<Key>
    ensures { result ≡ newer_of one other }
{
    match (one, other) {
        (Some(key), Some(another)) => Some(if key < another { another } else { key }),
        (Some(key), None) => Some(key),
        (None, other) => other,
    }
}
