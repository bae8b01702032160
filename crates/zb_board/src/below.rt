// The cells below a scope: those in it, and those below these.
ghost use Rattle.std.specs.Prelude.{◌≡◌, ℕ, true, ◌<◌, All, OnOk};
ghost use Rattle.std.specs.BTreeSet.{contains};
ghost use Rattle.std.specs.Ordering.{nat_cmp};
ghost use Rattle.zb_pairs.specs.Pairs.{keys_under};
ghost use Rattle.zb_board.specs.Below.{HasBelow};
ghost use Rattle.zb_board.specs.Indexed.{is_kept};

use crate::keys::keep;
use std::alloc::{AllocError, Global};
use std::collections::BTreeSet;
use zb_base::Key;
use zb_pairs::keys_under;
use zb_table::Table;

/// Puts the cells below a scope among the ready ones. For each of them it takes the logarithm of how many cells there
/// are, and costs what `keep` does.
pub fn wake_below(
    alloc: Global,
    ready: &mut Table<Key>,
    children: &BTreeSet<(Key, Key)>,
    scope: Key,
) -> Result<(), AllocError>
    ensures still { OnOk result ((key : ℕ) → is_kept ready.old key ≡ true → is_kept ready.new key ≡ true) }
    ensures woken { OnOk result (HasBelow children.now.keys scope ready.new) }
{
    let mut waiting = BTreeSet::new(alloc);
    wake_children(alloc, ready, &mut waiting, children, scope)?;
    while let Some(key) = waiting.pop_first() {
        wake_children(alloc, ready, &mut waiting, children, key)?;
    }
    Ok(())
}

// Puts the cells in a scope among the ready ones, and among those below which is still to be looked. Each is newer than
// its scope.
fn wake_children(
    alloc: Global,
    ready: &mut Table<Key>,
    waiting: &mut BTreeSet<Key>,
    children: &BTreeSet<(Key, Key)>,
    scope: Key,
) -> Result<(), AllocError>
    ensures still { OnOk result ((key : ℕ) → is_kept ready.old key ≡ true → is_kept ready.new key ≡ true) }
    ensures stay { OnOk result ((key : ℕ) → contains nat_cmp waiting.old key ≡ true → contains nat_cmp waiting.new key ≡ true) }
    ensures woken { OnOk result ((key : ℕ) → scope < key → is_kept (keys_under scope children.now.keys) key ≡ true → is_kept ready.new key ≡ true) }
    ensures waits { OnOk result ((key : ℕ) → scope < key → is_kept (keys_under scope children.now.keys) key ≡ true → contains nat_cmp waiting.new key ≡ true) }
    ensures newer { OnOk result (All (λ key. scope < key) waiting.old.keys → All (λ key. scope < key) waiting.new.keys) }
{
    let keys = keys_under(alloc, scope, children)?;
    for key in keys.as_slice() {
        wake_newer(ready, waiting, scope, *key)?;
    }
    Ok(())
}

// Puts a cell that is newer than its scope among the ready ones, and among those below which is still to be looked.
fn wake_newer(
    ready: &mut Table<Key>,
    waiting: &mut BTreeSet<Key>,
    scope: Key,
    key: Key,
) -> Result<(), AllocError>
    ensures still { OnOk result ((other : ℕ) → is_kept ready.old other ≡ true → is_kept ready.new other ≡ true) }
    ensures stay { OnOk result ((other : ℕ) → contains nat_cmp waiting.old other ≡ true → contains nat_cmp waiting.new other ≡ true) }
    ensures woken { OnOk result (scope < key → is_kept ready.new key ≡ true) }
    ensures waits { OnOk result (scope < key → contains nat_cmp waiting.new key ≡ true) }
    ensures newer { OnOk result (All (λ other. scope < other) waiting.old.keys → All (λ other. scope < other) waiting.new.keys) }
{
    if key <= scope {
        return Ok(());
    }
    keep(ready, key)?;
    waiting.insert(key)?;
    Ok(())
}
