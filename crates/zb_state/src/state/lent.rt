// Lists of a state's rows in the orders in which they are asked for.
ghost use Rattle.std.specs.Prelude.{◌≡◌, ◌==◌, ◌&&◌, List, Some, false, IfOk, filter, map, take};
ghost use Rattle.std.specs.List.{find, list_any};
ghost use Rattle.std.specs.Option.{option_map_or};
ghost use Rattle.std.specs.Str.{bytes_eq};
ghost use Rattle.zb_model.specs.declared.record.Event.{Event};
ghost use Rattle.zb_views.specs.Messages.{buffered};
ghost use Rattle.zb_views.specs.Jobs.{is_offered, jobs};
ghost use Rattle.zb_views.specs.Timers.{timers};
ghost use Rattle.zb_lists.specs.Listed.{AreInTime};
ghost use Rattle.zb_rules.specs.Publish.{is_same};
ghost use Rattle.zb_state.specs.Listing.{given_until};
ghost use Rattle.zb_tables.specs.Messages.{is_addressed};
ghost use Rattle.zb_state.specs.State.{IsStateOf};

use crate::State;
use std::alloc::{AllocError, Global};
use zb_model::{Key, List, MessagePublish, Moment};
use zb_tables::Messages;

impl State {
    /// The keys of the jobs of a type that a worker may be given, ascending. It takes constant time on average.
    pub fn activatable(&self, kind: &str) -> &[Key]
        ensures { (es : List Event) → IsStateOf es self.now → result.now ≡ map (λ j. j.key) (filter (is_offered kind.now) (jobs es)) }
    {
        self.listing.jobs.labelled(kind, "")
    }

    /// The first of them, at most so many. It takes a step for each beside.
    pub fn first_activatable(
        &self,
        alloc: Global,
        kind: &str,
        most: u32,
    ) -> Result<List<Key>, AllocError>
        ensures { (es : List Event) → IsStateOf es self.now
            → IfOk result (λ keys. keys ≡ map (λ j. j.key) (take most (filter (is_offered kind.now) (jobs es)))) }
    {
        Ok(List::from_vec(first_of(alloc, self.activatable(kind), most)?))
    }

    /// The deadlines of the jobs that workers have, each with its key: in this order.
    pub fn jobs_by_deadline(&self) -> &[(Moment, Key)]
        ensures { (es : List Event) → IsStateOf es self.now → AreInTime (λ j. j.key) given_until (jobs es) result.now }
    {
        self.listing.jobs.in_time()
    }

    /// The moments at which timers are due, each with the key of its timer: in this order.
    pub fn timers_by_due(&self) -> &[(Moment, Key)]
        ensures { (es : List Event) → IsStateOf es self.now → AreInTime (λ t. t.key) (λ t. Some t.due) (timers es) result.now }
    {
        self.listing.timers.in_time()
    }

    /// The deadlines of the buffered messages, each with its key: in this order.
    pub fn messages_by_deadline(&self) -> &[(Moment, Key)]
        ensures { (es : List Event) → IsStateOf es self.now → AreInTime (λ m. m.key) (λ m. Some m.deadline) (buffered es) result.now }
    {
        self.listing.messages.in_time()
    }

    /// The keys of the buffered messages with this name and this correlation key, ascending. It takes constant time on
    /// average.
    pub fn messages_of(&self, name: &str, correlation_key: &str) -> &[Key]
        ensures { (es : List Event) → IsStateOf es self.now → result.now ≡ map (λ m. m.key) (filter (is_addressed name.now correlation_key.now) (buffered es)) }
    {
        self.listing.messages.labelled(name, correlation_key)
    }

    /// Whether a message has the name, the correlation key and the id that are to be published. It goes through those
    /// of the name and the correlation key, and takes for each the logarithm of how many messages there are.
    pub fn holds_same(&self, command: &MessagePublish) -> bool
        ensures { (es : List Event) → IsStateOf es self.now → result ≡ list_any (is_same command.now) (buffered es) }
    {
        let keys = self.messages_of(command.name.as_str(), command.correlation_key.as_str());
        has_id(keys, command.id.as_str(), &self.facts.messages)
    }
}

// The first of some keys, at most so many.
fn first_of(alloc: Global, keys: &[Key], most: u32) -> Result<Vec<Key>, AllocError>
    ensures { IfOk result (λ first. first.items ≡ take most keys.now) }
{
    let most = (most as usize).min(keys.len());
    Vec::from_slice(alloc, &keys[..most])
}

// Whether one of the messages with these keys has an id.
fn has_id(keys: &[Key], id: &str, messages: &Messages) -> bool
    ensures { result ≡ list_any (λ k. option_map_or (λ m. bytes_eq m.id id.now) (find (λ m. m.key == k) messages.now) false) keys.now }
{
    for key in keys {
        if messages.has_id(*key, id) {
            return true;
        }
    }
    false
}
