// What a row changes in the lists as it comes and as it goes.
ghost use Rattle.std.specs.Prelude.{◌≡◌, ℕ, List, ◌==◌, ◌&&◌, ◌||◌, true, false, OnOk, if◌then◌else◌};
ghost use Rattle.zb_pairs.specs.Pairs.{is_number};
ghost use Rattle.zb_lists.specs.Moments.{is_among};
ghost use Rattle.zb_lists.specs.Listed.{is_label, is_labelled};

use crate::Listed;
use std::alloc::{AllocError, Global};
use zb_base::{Key, Moment};
use zb_line::{Labels, Line};

/// Lists a key under a moment, if there is one. It costs what `Line::add` does.
pub fn keep(
    moments: &mut Line<(Moment, Key)>,
    moment: Option<Moment>,
    key: Key,
) -> Result<(), AllocError>
    ensures { OnOk result ((n k : ℕ) → is_among moments.new n k ≡ (if is_number n moment && (key == k) then true else is_among moments.old n k)) }
{
    match moment {
        Some(moment) => moments.add((moment, key)),
        None => Ok(()),
    }
}

/// Lists a key under a moment no more, if there is one. It costs what `Line::remove` does.
pub fn forget(moments: &mut Line<(Moment, Key)>, moment: Option<Moment>, key: Key)
    ensures { (n k : ℕ) → is_among moments.new n k ≡ (if is_number n moment && (key == k) then false else is_among moments.old n k) }
{
    if let Some(moment) = moment {
        moments.remove((moment, key));
    }
}

/// Lists a row under its label, if it has one. It costs what `Labels::join` does.
pub fn label<R: Listed>(
    alloc: Global,
    labels: &mut Labels,
    row: &R,
    key: Key,
) -> Result<(), AllocError>
    ensures { OnOk result ((a b : List ℕ) (k : ℕ) → is_labelled labels.new a b k
        ≡ (if is_label a b (R.label_in row.now) && (key == k) then true else is_labelled labels.old a b k)) }
{
    match row.label() {
        Some((first, second)) => labels.join(alloc, first, second, key),
        None => Ok(()),
    }
}

/// Lists a row under its label no more, if it has one. It costs what `Labels::leave` does.
pub fn unlabel<R: Listed>(labels: &mut Labels, row: &R, key: Key)
    ensures { (a b : List ℕ) (k : ℕ) → is_labelled labels.new a b k
        ≡ (if is_label a b (R.label_in row.now) && (key == k) then false else is_labelled labels.old a b k) }
{
    if let Some((first, second)) = row.label() {
        labels.leave(first, second, key);
    }
}

/// Puts the moment of a row behind some, if it waits for one, and lists its key under its label.
pub fn list<R: Listed>(
    alloc: Global,
    row: &R,
    pairs: &mut Vec<(Moment, Key)>,
    labels: &mut Labels,
) -> Result<(), AllocError>
    ensures moments { OnOk result ((n k : ℕ) → is_among pairs.new.items n k
        ≡ ((is_number n (R.moment_in row.now) && (R.key_in row.now == k)) || is_among pairs.old.items n k)) }
    ensures labels { OnOk result ((a b : List ℕ) (k : ℕ) → is_labelled labels.new a b k
        ≡ ((is_label a b (R.label_in row.now) && (R.key_in row.now == k)) || is_labelled labels.old a b k)) }
{
    let key = row.key();
    if let Some(moment) = row.moment() {
        pairs.push((moment, key))?;
    }
    label(alloc, labels, row, key)
}
