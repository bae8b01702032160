// What is in a cell. Where the keys ascend, the keys of the cells in it are kept.
ghost use Rattle.std.specs.Prelude.{◌≡◌};
ghost use Rattle.zb_tokens.specs.Board.{has_child, is_empty};
ghost use Rattle.zb_board.specs.Searches.{has_token};

use crate::Game;
use crate::lookups::In;
use zb_base::Key;
use zb_pairs::first_under;
use zb_places::has_token_in;

impl Game {
    // Whether nothing runs in a cell, and no token is in it.
    pub(super) fn is_empty(&self, key: Key) -> bool
        ensures { result ≡ is_empty self.now key }
    {
        !self.has_token(key) && !self.has_child(key)
    }

    /// Whether something runs in a cell. Where `cell` takes a logarithm it takes that of how many cells there are;
    /// elsewhere it goes through the cells up to the first in this one.
    pub fn has_child(&self, key: Key) -> bool
        ensures { result ≡ has_child self.now key }
    {
        if self.ascends {
            first_under(key, &self.children).is_some()
        } else {
            self.cells.first(&In { scope: key }).is_some()
        }
    }

    // Whether a token is in a cell.
    pub(super) fn has_token(&self, key: Key) -> bool
        ensures { result ≡ has_token self.now key }
    {
        has_token_in(key, &self.tokens)
    }
}
