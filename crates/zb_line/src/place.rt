// Places of members that ascend.
ghost use Rattle.std.specs.Prelude.{◌≡◌, ◌<◌, ◌≤◌, drop, length, IfErr, IfOk, OnErr, OnOk};
ghost use Rattle.std.specs.List.{insert, remove};
ghost use Rattle.std.specs.List.Sorted.{IsStrictlySortedBy};
ghost use Rattle.zb_line.specs.Line.{IsVacant, IsMemberAt};

use std::alloc::AllocError;

/// Where the member is that is equal to this one, or where it would be. It takes one step where it is the first or
/// comes behind all, and else the logarithm of how many there are.
pub fn place_of<T: Ord>(item: &T, line: &[T]) -> Result<usize, usize>
    requires { IsStrictlySortedBy T.cmp line.now }
    ensures taken { IfOk result (IsMemberAt T.cmp item.now line.now) }
    ensures free { IfErr result (IsVacant T.cmp item.now line.now) }
{
    match line.last() {
        Some(last) if last.cmp(item).is_lt() => Err(line.len()),
        _ => place_within(item, line),
    }
}

// The same, but for a member that comes behind all.
fn place_within<T: Ord>(item: &T, line: &[T]) -> Result<usize, usize>
    requires { IsStrictlySortedBy T.cmp line.now }
    ensures taken { IfOk result (IsMemberAt T.cmp item.now line.now) }
    ensures free { IfErr result (IsVacant T.cmp item.now line.now) }
{
    match line.first() {
        Some(first) if first.cmp(item).is_eq() => Ok(0),
        _ => line.binary_search(item),
    }
}

/// Puts a member in at an index. Where it is the last one it is pushed, which takes fewer steps than an insertion.
pub fn put_at<T: Copy>(index: usize, item: T, items: &mut Vec<T>) -> Result<(), AllocError>
    requires { index ≤ length items.old.items }
    ensures ok { OnOk result (items.new.items ≡ insert items.old.items index item) }
    ensures err { OnErr result (items.new.items ≡ items.old.items) }
{
    if index < items.len() {
        items.insert(index, item)?;
        return Ok(());
    }
    items.push(item)?;
    Ok(())
}

/// Moves the members in front of a place one place down, into the first, and puts this one in behind them.
pub fn move_down<T: Copy>(row: &mut [T], place: usize, item: T)
    requires { place < length row.old }
    ensures { row.new ≡ insert (drop 1 row.old) place item }
{
    row[..=place].rotate_left(1);
    row[place] = item;
}

/// Moves the members in front of a place one place up, over the one that stands there. The first place is left as
/// room.
pub fn move_up<T: Copy>(row: &mut [T], place: usize)
    requires { place < length row.old }
    ensures { drop 1 row.new ≡ remove row.old place }
{
    row[..=place].rotate_right(1);
}
