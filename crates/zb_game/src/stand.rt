ghost use Rattle.std.specs.Prelude.{◌≡◌};
ghost use Rattle.zb_tokens.specs.MoveStand.{fits_stand};

use zb_board::Game;
use zb_tokens::Deployed;

/// Whether a model may stand under a key.
pub fn fits_stand(game: &Game, d: &Deployed) -> bool
    ensures { result ≡ fits_stand game.now d.now }
{
    game.model(d.key).is_none()
}
