// A subscription at the place at which it was opened.
ghost use Rattle.std.specs.Prelude.{Some, None};
ghost use Rattle.zb_views.specs.Subscriptions.{with_task};
ghost use Rattle.zb_subscriptions.specs.Opened.{opened_as};

use std::alloc::AllocError;
use zb_lists::Listed;
use zb_model::{Key, Moment};
use zb_rows::Kept;
use zb_table::{Edit, Row, Timed};
use zb_views::Subscription;

/// A subscription, and its place among those that were opened.
#[derive(Drop)]
pub struct Opened {
    pub place: Key,
    pub subscription: Subscription,
}

impl Row for Opened {
    ghost key_in = { λ o. o.place };

    fn key(&self) -> Key {
        self.place
    }
}

/// It waits for no moment.
impl Timed for Opened {
    ghost moment_in = { λ o. None };

    fn moment(&self) -> Option<Moment> {
        None
    }
}

/// It is found by the key of its subscription.
impl Kept for Opened {
    ghost cell_in = { λ o. Some o.subscription.key };

    fn cell(&self) -> Option<Key> {
        Some(self.subscription.key)
    }
}

/// It is listed under the name and the correlation key of its messages.
impl Listed for Opened {
    ghost label_in = { λ o. Some (o.subscription.name, o.subscription.correlation_key) };

    fn label(&self) -> Option<(&str, &str)> {
        let of = &self.subscription;
        Some((of.name.as_str(), of.correlation_key.as_str()))
    }
}

/// It correlates this message from now on, or none.
#[derive(Drop)]
pub struct Correlates {
    pub message: Option<Key>,
}

impl Edit<Opened> for Correlates {
    ghost edits = { λ e o. opened_as o.place (with_task e.message o.subscription) };

    fn edit(self, mut row: Opened) -> Result<Opened, AllocError> {
        row.subscription.correlating = self.message;
        Ok(row)
    }
}
