// How cells go from the board, and with them what is kept of them beside the board.
ghost use Rattle.std.specs.Prelude.{◌≡◌, ℕ, true, false, ◌==◌, ◌&&◌, Some, None, IfOk, OnOk, IsErrOf, cond, filter, is_none, is_some, not, option_map, slice_get};
ghost use Rattle.std.specs.BTreeSet.{IsOrdered};
ghost use Rattle.std.specs.List.{find};
ghost use Rattle.zb_tokens.specs.Board.{cell_at, emptied, leaves_in};
ghost use Rattle.zb_tokens.specs.Edits.{removed, without_first};
ghost use Rattle.zb_pairs.specs.Pairs.{has_pair, keys_under, place_cmp};
ghost use Rattle.zb_board.specs.Indexed.{is_kept};
ghost use Rattle.zb_board.specs.Searches.{leaves_at};

use crate::keys::{forget, keep};
use crate::lookups::LeavingIn;
use crate::{Game, GameFault};
use std::alloc::{AllocError, Global};
use std::collections::BTreeSet;
use zb_base::Key;
use zb_pairs::{first_under, first_under_that};
use zb_table::{Query, Table};
use zb_tokens::Phase;

impl Game {
    /// Takes away a cell. Its scope may go on then. Where tokens are in it, what is kept counts no more. `Illegal`
    /// says that the cell isn't there, and nothing has changed; after `Memory` the game is only dropped. The cell is
    /// found as by `cell`.
    pub fn take_away(&mut self, key: Key) -> Result<(), GameFault>
        ensures gone { OnOk result (option_map (λ cells. record self.old { cells = cells }) (removed (λ c. c.key == key) self.old.cells) ≡ Some self.new) }
        ensures none { IsErrOf result GameFault.Illegal → removed (λ c. c.key == key) self.old.cells ≡ None }
        ensures kept { IsErrOf result GameFault.Illegal → self.new ≡ self.old }
    {
        let Some(cell) = self.cell(key) else {
            return Err(GameFault::Illegal);
        };
        let around = cell.scope;
        self.take_out(key, around)?;
        Ok(())
    }

    // Takes away the cell with a key, which is in this scope. Where tokens are in it, what is kept counts no more.
    fn take_out(&mut self, key: Key, around: Key) -> Result<(), AllocError>
        requires { option_map (λ c. c.scope) (cell_at self.old key) ≡ Some around }
        ensures { OnOk result (self.new ≡ record self.old { cells = without_first (λ c. c.key == key) self.old.cells }) }
    {
        let ascends = self.ascends && !self.has_token(key);
        self.ascends = false;
        let none_left = note_gone(
            &mut self.children,
            &mut self.ready,
            &mut self.calling,
            key,
            around,
        )?;
        self.cells.remove(key);
        self.ascends = ascends;
        self.look_at_emptied(around, none_left);
        Ok(())
    }

    // Looks at a scope again in which no cell is left, as is told, and a token is.
    fn look_at_emptied(&mut self, scope: Key, none_left: bool)
        ensures { self.new ≡ self.old }
    {
        if none_left && self.has_token(scope) {
            self.look_at(scope);
        }
    }

    /// Empties a scope of its tokens, and of the cells that leave in it. After a refusal the game is only dropped. It
    /// goes through these tokens, and through the cells in the scope up to the first that leaves, once more for each;
    /// each cell is found as by `cell`.
    pub fn empty_scope(&mut self, alloc: Global, scope: Key) -> Result<(), AllocError>
        ensures { OnOk result (self.new ≡ emptied scope self.old) }
    {
        self.take_tokens(alloc, scope)?;
        self.take_leaving(scope)
    }

    // Takes away the cells that leave in a scope.
    fn take_leaving(&mut self, scope: Key) -> Result<(), AllocError>
        ensures { OnOk result (self.new ≡ record self.old { cells = filter (λ c. not (leaves_in scope c)) self.old.cells }) }
    {
        while self.take_one_leaving(scope)? {}
        Ok(())
    }

    // Takes away the first cell that leaves in a scope, and tells whether there was one.
    fn take_one_leaving(&mut self, scope: Key) -> Result<bool, AllocError>
        ensures one { IfOk result (λ one. one ≡ is_some (find (leaves_in scope) self.old.cells)) }
        ensures left { OnOk result (self.new ≡ record self.old { cells = without_first (leaves_in scope) self.old.cells }) }
    {
        if !self.ascends {
            let found = self.cells.first(&LeavingIn { scope }).is_some();
            self.cells.remove_first(&LeavingIn { scope });
            return Ok(found);
        }
        match first_under_that(scope, &LeavesAt { game: self }, &self.children) {
            Some(key) => {
                self.take_out(key, scope)?;
                Ok(true)
            }
            None => Ok(false),
        }
    }
}

// Whether the cell with a key is there in a game, and leaves.
#[derive(Drop)]
struct LeavesAt<'a> {
    game: &'a Game,
}

impl<'a> Query<Key> for LeavesAt<'a> {
    ghost passes = { λ leaves key. leaves_at leaves.game.now key };

    fn passes(&self, key: &Key) -> bool {
        match self.game.cell(*key) {
            Some(cell) => cell.phase == Phase::Leaving,
            None => false,
        }
    }
}

// Keeps the key of a cell no longer, and tells whether none is left in its scope, which may go on then.
fn note_gone(
    children: &mut BTreeSet<(Key, Key)>,
    ready: &mut Table<Key>,
    calling: &mut Table<Key>,
    key: Key,
    around: Key,
) -> Result<bool, AllocError>
    ensures fewer { OnOk result ((scope other : ℕ) → has_pair children.new scope other ≡ cond ((around == scope) && (key == other)) false (has_pair children.old scope other)) }
    ensures order { OnOk result (IsOrdered place_cmp children.new) }
    ensures ready { OnOk result ((other : ℕ) → (other == key) ≡ false → is_kept ready.old other ≡ true → is_kept ready.new other ≡ true) }
    ensures calling { OnOk result ((other : ℕ) → (other == key) ≡ false → is_kept calling.old other ≡ true → is_kept calling.new other ≡ true) }
    ensures woken { OnOk result (slice_get (keys_under around children.new.keys) 0 ≡ None → (around == key) ≡ false → is_kept ready.new around ≡ true) }
{
    children.remove(&(around, key));
    let none_left = wake(ready, children, around)?;
    forget(ready, key);
    forget(calling, key);
    Ok(none_left)
}

// Puts a scope among the ready cells where no cell is left in it, and tells whether that is so.
pub(super) fn wake(
    ready: &mut Table<Key>,
    children: &BTreeSet<(Key, Key)>,
    scope: Key,
) -> Result<bool, AllocError>
    ensures none_left { IfOk result (λ none. none ≡ is_none (slice_get (keys_under scope children.now.keys) 0)) }
    ensures still { OnOk result ((key : ℕ) → is_kept ready.old key ≡ true → is_kept ready.new key ≡ true) }
    ensures woken { OnOk result (slice_get (keys_under scope children.now.keys) 0 ≡ None → is_kept ready.new scope ≡ true) }
    ensures order { IsOrdered place_cmp children.now }
{
    let none_left = first_under(scope, children).is_none();
    if none_left {
        keep(ready, scope)?;
    }
    Ok(none_left)
}
