// Keys that are kept.
ghost use Rattle.std.specs.Prelude.{◌≡◌, ℕ, true, false, ◌==◌, OnOk};
ghost use Rattle.zb_board.specs.Indexed.{is_kept};

use std::alloc::AllocError;
use zb_base::Key;
use zb_table::Table;

/// Keeps a key beside the others. It costs what `Table::add` does.
pub fn keep(keys: &mut Table<Key>, key: Key) -> Result<(), AllocError>
    ensures kept { OnOk result (is_kept keys.new key ≡ true) }
    ensures others { OnOk result ((other : ℕ) → is_kept keys.old other ≡ true → is_kept keys.new other ≡ true) }
{
    keys.add(key)
}

/// Keeps some keys beside the others. For each it costs what `Table::add` does.
pub fn keep_all(keys: &mut Table<Key>, more: &[Key]) -> Result<(), AllocError>
    ensures kept { OnOk result ((key : ℕ) → is_kept more.now key ≡ true → is_kept keys.new key ≡ true) }
    ensures others { OnOk result ((other : ℕ) → is_kept keys.old other ≡ true → is_kept keys.new other ≡ true) }
{
    for key in more {
        keep(keys, *key)?;
    }
    Ok(())
}

/// Keeps a key no longer, and the others still. It costs what `Table::remove` does.
pub fn forget(keys: &mut Table<Key>, key: Key)
    ensures { (other : ℕ) → (other == key) ≡ false → is_kept keys.old other ≡ true → is_kept keys.new other ≡ true }
{
    keys.remove(key);
}
