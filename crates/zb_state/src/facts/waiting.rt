// What events of subscriptions ask of the element instances that wait for messages here.
ghost use Rattle.std.specs.Prelude.{◌≡◌, ◌==◌, ◌&&◌, List, IsTrue, option_map};
ghost use Rattle.std.specs.List.{find};
ghost use Rattle.std.specs.Option.{option_copied};
ghost use Rattle.zb_model.specs.declared.record.Event.{Event};
ghost use Rattle.zb_views.specs.ProcessSubscriptions as views;
ghost use Rattle.zb_rules.specs.Applies.{is_fresh};
ghost use Rattle.zb_rules.specs.Shown.{holds_of_game};
ghost use Rattle.zb_rules.specs.WaitEvents.{may_subscribe, is_waiting, is_open};
ghost use Rattle.zb_state.specs.State.{partition_of, IsStateOf};
ghost use Rattle.zb_tables.specs.Tables.{IsNext};

use crate::Facts;
use zb_game::may_open;
use zb_model::{Key, ProcessMessageSubscriptionCreating};
use zb_tokens::Catch;
use zb_views::ProcessSubscription;

impl Facts {
    // The subscription with this key.
    pub(crate) fn process_subscription(&self, key: Key) -> Option<&ProcessSubscription>
        ensures { (es : List Event) → IsStateOf es self.now → option_copied result ≡ views.process_subscription_at key es }
    {
        self.tables.process_subscriptions.get(key)
    }

    // Whether the key of a subscription is fresh, and its cell waits for the message of the node.
    pub(super) fn subscribes(&self, opened: &ProcessMessageSubscriptionCreating) -> bool
        ensures next { IsTrue result → IsNext (partition_of self.now) self.now.counter opened.now.subscription }
        ensures own { (es : List Event) → IsStateOf es self.now
            → result ≡ (is_fresh (partition_of self.now) es opened.now.subscription && holds_of_game (may_subscribe opened.now) es) }
    {
        self.is_fresh(opened.subscription)
            && may_open(
                self.game.board(),
                opened.cell,
                Catch::Message,
                opened.node.as_str(),
            )
    }

    // Whether the subscription is there and is being created.
    pub(super) fn is_being_created(&self, key: Key) -> bool
        ensures { (es : List Event) → IsStateOf es self.now → result ≡ is_waiting views.is_being_created key es }
    {
        match self.process_subscription(key) {
            Some(subscription) => subscription.phase.is_being_created(),
            None => false,
        }
    }

    // Whether it is there and is being deleted.
    pub(super) fn is_being_deleted(&self, key: Key) -> bool
        ensures { (es : List Event) → IsStateOf es self.now → result ≡ is_waiting views.is_being_deleted key es }
    {
        match self.process_subscription(key) {
            Some(subscription) => subscription.phase.is_being_deleted(),
            None => false,
        }
    }

    // Whether it is there and isn't being deleted.
    pub(super) fn is_open(&self, key: Key) -> bool
        ensures { (es : List Event) → IsStateOf es self.now → result ≡ is_waiting is_open key es }
    {
        match self.process_subscription(key) {
            Some(subscription) => !subscription.phase.is_being_deleted(),
            None => false,
        }
    }
}
