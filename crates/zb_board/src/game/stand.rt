ghost use Rattle.std.specs.Prelude.{◌≡◌, Some, None, OnOk, IsErrOf};
ghost use Rattle.zb_tokens.specs.MoveStand.{play_stand};

use crate::{Game, GameFault};
use std::alloc::Global;
use zb_tokens::Deployed;

impl Game {
    /// Plays that a model stands under a key, behind those that do. After a refusal the game is only dropped; no model
    /// is `Illegal`, and one with too many nodes or flows to be numbered is `Memory`. It takes the logarithm of how many
    /// models there are, and costs what `zb_graph::compile` does.
    pub fn stand(&mut self, alloc: Global, d: Deployed) -> Result<(), GameFault>
        ensures played { OnOk result (play_stand self.old d ≡ Some self.new) }
        ensures illegal { IsErrOf result GameFault.Illegal → play_stand self.old d ≡ None }
        ensures kept { IsErrOf result GameFault.Illegal → self.new ≡ self.old }
    {
        self.models.push(alloc, d)?;
        Ok(())
    }
}
