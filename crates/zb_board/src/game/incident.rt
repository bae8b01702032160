ghost use Rattle.std.specs.Prelude.{◌≡◌, true, Some, None, IsTrue, OnOk, IsErrOf};
ghost use Rattle.std.specs.Option.{option_copied};
ghost use Rattle.zb_table.specs.Rows.{are_below};
ghost use Rattle.zb_tokens.specs.Incidents.{incident_at, incident_on, is_stuck};
ghost use Rattle.zb_tokens.specs.MoveIncident.{play_incident};

use crate::lookups::On;
use crate::{Game, GameFault};
use zb_base::Key;
use zb_tokens::{Cell, Incident};

impl Game {
    /// The incident with a key. It is found as by `cell`.
    pub fn incident(&self, key: Key) -> Option<&Incident>
        ensures { option_copied result ≡ incident_at self.now key }
    {
        self.incidents.get(key)
    }

    /// The incident on a cell. It takes the logarithm of how many incidents there are, whether one stands there or
    /// not; only where `cell` searches from the front it goes through them, up to the one on the cell.
    pub fn incident_on(&self, cell: Key) -> Option<&Incident>
        ensures { option_copied result ≡ incident_on self.now cell }
    {
        if !self.ascends {
            return self.incidents.first(&On { cell });
        }
        match self.stuck.get(&cell) {
            Some(key) => self.incident(*key),
            None => None,
        }
    }

    /// Whether an incident stands on a cell. It costs what `incident_on` does.
    pub fn is_stuck(&self, cell: &Cell) -> bool
        ensures { result ≡ is_stuck self.now cell.now }
    {
        self.incident_on(cell.key).is_some()
    }

    // Whether the key of an incident is known to be above all others, and no other one stands on its cell.
    fn comes_alone(&self, i: &Incident) -> bool
        ensures below { IsTrue result → are_below (λ other. other.key) i.now.key self.now.incidents ≡ true }
        ensures alone { IsTrue result → incident_on self.now i.now.cell ≡ None }
    {
        self.incidents.comes_last(i.key) && self.incident_on(i.cell).is_none()
    }

    /// Plays that an incident stands on its cell, which rests then. Where it doesn't come alone, what is kept counts
    /// no more. After a refusal the game is only dropped; no incident is `Illegal`. It takes the logarithm of how many
    /// incidents there are, on average.
    pub fn raise(&mut self, i: Incident) -> Result<(), GameFault>
        ensures played { OnOk result (play_incident self.old i ≡ Some self.new) }
        ensures illegal { IsErrOf result GameFault.Illegal → play_incident self.old i ≡ None }
        ensures kept { IsErrOf result GameFault.Illegal → self.new ≡ self.old }
    {
        let key = i.key;
        let cell = i.cell;
        let ascends = self.ascends && self.comes_alone(&i);
        self.ascends = false;
        self.incidents.push(i)?;
        self.stuck.insert(cell, key)?;
        self.ascends = ascends;
        self.look_at(cell);
        Ok(())
    }
}
