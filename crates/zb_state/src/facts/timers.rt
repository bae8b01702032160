// What events of timers ask of the timers that are there, and of the cells that wait for them.
ghost use Rattle.std.specs.Prelude.{◌≡◌, ◌&&◌, List, IsTrue};
ghost use Rattle.zb_model.specs.declared.record.Event.{Event};
ghost use Rattle.zb_rules.specs.Applies.{is_fresh};
ghost use Rattle.zb_rules.specs.Shown.{holds_of_game};
ghost use Rattle.zb_rules.specs.TimerEvents.{has_timer, may_open};
ghost use Rattle.zb_state.specs.State.{partition_of, IsStateOf};
ghost use Rattle.zb_tables.specs.Tables.{IsNext};

use crate::Facts;
use zb_game::may_open;
use zb_model::{Key, TimerCreated};
use zb_tokens::Catch;

impl Facts {
    // Whether the key of a timer is fresh, and its cell waits for the time of the node.
    pub(super) fn opens_timer(&self, made: &TimerCreated) -> bool
        ensures next { IsTrue result → IsNext (partition_of self.now) self.now.counter made.now.key }
        ensures own { (es : List Event) → IsStateOf es self.now
            → result ≡ (is_fresh (partition_of self.now) es made.now.key && holds_of_game (may_open made.now) es) }
    {
        self.is_fresh(made.key)
            && may_open(
                self.game.board(),
                made.cell,
                Catch::Time,
                made.node.as_str(),
            )
    }

    // Whether the timer with this key is there.
    pub(super) fn has_timer(&self, key: Key) -> bool
        ensures { (es : List Event) → IsStateOf es self.now → result ≡ has_timer key es }
    {
        self.tables.timers.get(key).is_some()
    }
}
