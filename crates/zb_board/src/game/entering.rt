// Which token enters next.
ghost use Rattle.std.specs.Prelude.{◌≡◌};
ghost use Rattle.std.specs.List.{find};
ghost use Rattle.std.specs.Option.{option_copied};
ghost use Rattle.zb_groups.specs.Groups.{passes_at};
ghost use Rattle.zb_tokens.specs.Forced.{can_enter};

use crate::Game;
use zb_base::Key;
use zb_groups::Groups;
use zb_places::comes;
use zb_table::Query;
use zb_tokens::Token;

impl Game {
    /// The first token that can enter. Where `cell` takes a logarithm it goes through the tokens that may enter by
    /// themselves, up to the first that can; elsewhere through all. Each costs what `comes` and `is_called_off` do.
    pub fn first_entering(&self) -> Option<&Token>
        ensures { option_copied result ≡ find (can_enter self.now) self.now.tokens }
    {
        if !self.ascends {
            return self.first_of_all();
        }
        let query = EntersAt {
            game: self,
            tokens: &self.tokens,
        };
        match self.coming.first_key(&query) {
            Some(number) => self.tokens.get(number),
            None => None,
        }
    }

    // The same among all.
    fn first_of_all(&self) -> Option<&Token>
        ensures { option_copied result ≡ find (can_enter self.now) self.now.tokens }
    {
        match self.tokens.first(&Enters { game: self }) {
            Some(number) => self.tokens.get(number),
            None => None,
        }
    }

    // Whether a token can enter the node that it has come to.
    fn can_enter(&self, token: &Token) -> bool
        ensures { result ≡ can_enter self.now token.now }
    {
        let Some(cell) = self.cell(token.scope) else {
            return false;
        };
        let Some(model) = self.model(cell.definition) else {
            return false;
        };
        !self.is_called_off(token.scope) && comes(model, &self.tokens, token)
    }
}

// Whether a token can enter in a game.
#[derive(Drop)]
struct Enters<'a> {
    game: &'a Game,
}

impl<'a> Query<Token> for Enters<'a> {
    ghost passes = { λ enters t. can_enter enters.game.now t };

    fn passes(&self, token: &Token) -> bool {
        let game = self.game;
        game.can_enter(token)
    }
}

// Whether the token with a number is there, and can enter in a game.
#[derive(Drop)]
struct EntersAt<'a> {
    game: &'a Game,
    tokens: &'a Groups<Token>,
}

impl<'a> Query<Key> for EntersAt<'a> {
    ghost passes = { λ enters number. passes_at (can_enter enters.game.now) enters.tokens.now number };

    fn passes(&self, number: &Key) -> bool {
        match self.tokens.get(*number) {
            Some(token) => {
                let game = self.game;
                game.can_enter(token)
            }
            None => false,
        }
    }
}
