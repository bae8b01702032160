ghost use Rattle.std.specs.Prelude.{◌≡◌, Some, None, OnOk, IsErrOf};
ghost use Rattle.zb_tokens.specs.MoveRepair.{fits_repair, play_repair};

use crate::keys::keep;
use crate::{Game, GameFault};
use zb_base::Key;

impl Game {
    /// Whether an incident may be resolved. It is found as by `cell`.
    pub fn fits_repair(&self, key: Key) -> bool
        ensures { result ≡ fits_repair self.now key }
    {
        self.incident(key).is_some()
    }

    /// Plays that an incident is gone. Its cell may go on then. `Illegal` says that it isn't there, and nothing has
    /// changed; after `Memory` the game is only dropped. The incident is found as by `cell`.
    pub fn repair(&mut self, key: Key) -> Result<(), GameFault>
        ensures played { OnOk result (play_repair self.old key ≡ Some self.new) }
        ensures illegal { IsErrOf result GameFault.Illegal → play_repair self.old key ≡ None }
        ensures kept { IsErrOf result GameFault.Illegal → self.new ≡ self.old }
    {
        let Some(incident) = self.incident(key) else {
            return Err(GameFault::Illegal);
        };
        let cell = incident.cell;
        let ascends = self.ascends;
        self.ascends = false;
        self.stuck.remove(&cell);
        keep(&mut self.ready, cell)?;
        self.incidents.remove(key);
        self.ascends = ascends;
        self.look_at(cell);
        Ok(())
    }
}
