ghost use Rattle.std.specs.Prelude.{◌≡◌, ◌==◌, ◌&&◌, ◌++◌, ◌∷◌, [], ℕ, List, nat_le, not, filter, false, is_some, Some, None, IsTrue, OnOk, OnErr, option_map};
ghost use Rattle.std.specs.List.{find, list_any};
ghost use Rattle.std.specs.Str.{bytes_eq};
ghost use Rattle.std.specs.Option.{option_copied, option_map_or};
ghost use Rattle.zb_model.specs.declared.record.Event.{Event};
ghost use Rattle.zb_table.specs.Rows.{Ascend, are_below};
ghost use Rattle.zb_views.specs.Standing.{standing_by};
ghost use Rattle.zb_views.specs.Messages.{message_told, expiry_told, message_sort, is_past_deadline};
ghost use Rattle.zb_tables.specs.Messages.{has_place_for_message};

use std::alloc::{AllocError, Global};
use std::marker::Model;
use zb_lists::Listed;
use zb_model::{Event, Key, MessagePublished, Moment, TryCopy};
use zb_rows::{Kept, Rows};
use zb_table::{Row, Timed};

/// The buffered messages, in the order of their keys. Contracts see the list of them.
#[derive(Drop)]
pub struct Messages {
    rows: Rows<Buffered>,
}

impl Model for Messages {
    ghost use Rattle.std.specs.Prelude.{List};
    ghost use Rattle.std.specs.Coded.{coded_list};
    ghost use Rattle.zb_exchange_records.specs.declared.message.MessagePublished.{MessagePublished};
    ghost use Rattle.zb_exchange_records.specs.contracts.message.MessagePublished as published;

    ghost Value = { List MessagePublished };

    ghost coded = { coded_list published.the_row.coded };

    ghost use Rattle.zb_table.specs.Rows.{Ascend};

    ghost view = { λ m. m.rows };

    ghost invariant = { λ m. Ascend (λ x. x.key) 0 m.rows };
}

impl Messages {
    /// No messages. It takes no memory.
    pub fn empty(alloc: Global) -> Messages
        ensures { result ≡ [] }
    {
        Messages {
            rows: Rows::empty(alloc),
        }
    }

    /// The message with this key, if there is one. It takes the logarithm of how many there are.
    pub fn get(&self, key: Key) -> Option<&MessagePublished>
        ensures message { option_copied result ≡ find (λ m. m.key == key) self.now }
        ensures order { Ascend (λ m. m.key) 0 self.now }
    {
        match self.rows.get(key) {
            Some(buffered) => Some(&buffered.message),
            None => None,
        }
    }

    /// The deadline of the message with this key, if there is one. It takes the logarithm of how many there are.
    pub fn deadline_of(&self, key: Key) -> Option<Moment>
        ensures deadline { result ≡ option_map (λ m. m.deadline) (find (λ m. m.key == key) self.now) }
        ensures buffered { is_some result ≡ list_any (λ m. m.key == key) self.now }
        ensures due { (moment : ℕ) → option_map_or (λ deadline. nat_le deadline moment) result false
            ≡ list_any (λ m. (m.key == key) && is_past_deadline moment m) self.now }
    {
        deadline_among(key, &self.rows)
    }

    /// Whether there is a message with this key, and it has this id. It takes the logarithm of how many there are.
    pub fn has_id(&self, key: Key, id: &str) -> bool
        ensures { result ≡ option_map_or (λ m. bytes_eq m.id id.now) (find (λ m. m.key == key) self.now) false }
    {
        match self.rows.get(key) {
            Some(buffered) => buffered.message.id.as_str() == id,
            None => false,
        }
    }

    /// The rows.
    pub fn rows(&self) -> &Rows<Buffered>
        ensures rows { result.now ≡ self.now }
        ensures order { Ascend (λ m. m.key) 0 self.now }
    {
        &self.rows
    }

    /// Takes in what an event says of messages. After a refusal nothing has changed. It costs a copy of the message that
    /// is published; one that expires costs the logarithm of how many there are, on average.
    pub fn apply(&mut self, alloc: Global, event: &Event) -> Result<(), AllocError>
        requires { IsTrue (has_place_for_message self.old event.now) }
        ensures ok { (before : List Event) → OnOk result (self.new ≡ standing_by message_sort before event.now self.old) }
        ensures err { OnErr result (self.new ≡ self.old) }
    {
        match message_in(event) {
            Some(message) => match message.copy(alloc) {
                Ok(message) => self.add(message),
                Err(AllocError) => Err(AllocError),
            },
            None => {
                self.end(expiry_in(event));
                Ok(())
            }
        }
    }

    /// The same of an event by value: the message isn't copied.
    pub fn take(&mut self, event: Event) -> Result<(), AllocError>
        requires { IsTrue (has_place_for_message self.old event) }
        ensures ok { (before : List Event) → OnOk result (self.new ≡ standing_by message_sort before event self.old) }
        ensures err { OnErr result (self.new ≡ self.old) }
    {
        match event {
            Event::MessagePublished(message) => self.add(message),
            other => {
                self.end(expiry_in(&other));
                drop(other);
                Ok(())
            }
        }
    }

    /// Leaves no messages.
    pub fn clear(&mut self, alloc: Global)
        ensures { self.new ≡ [] }
    {
        self.rows = Rows::empty(alloc);
    }

    // Adds a message.
    fn add(&mut self, message: MessagePublished) -> Result<(), AllocError>
        requires { IsTrue (are_below (λ m. m.key) message.key self.old) }
        ensures ok { OnOk result (self.new ≡ self.old ++ message ∷ []) }
        ensures err { OnErr result (self.new ≡ self.old) }
    {
        self.rows.add(Buffered { message })
    }

    // Takes away the message with a key, if there is one.
    fn end(&mut self, key: Option<Key>)
        ensures { self.new ≡ filter (λ m. not (option_map_or (λ k. m.key == k) key false)) self.old }
    {
        if let Some(key) = key {
            drop(self.rows.take(key));
        }
    }
}

/// A buffered message. Contracts see the message.
#[derive(Drop)]
pub struct Buffered {
    message: MessagePublished,
}

impl Model for Buffered {
    ghost use Rattle.zb_exchange_records.specs.declared.message.MessagePublished.{MessagePublished};
    ghost use Rattle.zb_exchange_records.specs.contracts.message.MessagePublished as published;

    ghost Value = { MessagePublished };

    ghost coded = { published.the_row.coded };

    ghost view = { λ b. b.message };
}

impl Row for Buffered {
    ghost key_in = { λ m. m.key };

    fn key(&self) -> Key {
        self.message.key
    }
}

impl Timed for Buffered {
    ghost moment_in = { λ m. Some m.deadline };

    fn moment(&self) -> Option<Moment> {
        Some(self.message.deadline)
    }
}

impl Kept for Buffered {
    ghost cell_in = { λ m. None };

    fn cell(&self) -> Option<Key> {
        None
    }
}

impl Listed for Buffered {
    ghost label_in = { λ m. Some (m.name, m.correlation_key) };

    fn label(&self) -> Option<(&str, &str)> {
        Some((
            self.message.name.as_str(),
            self.message.correlation_key.as_str(),
        ))
    }
}

// The deadline of the message with this key, if there is one.
fn deadline_among(key: Key, messages: &Rows<Buffered>) -> Option<Moment>
    ensures deadline { result ≡ option_map (λ m. m.deadline) (find (λ m. m.key == key) messages.now) }
    ensures order { Ascend (λ m. m.key) 0 messages.now }
{
    match messages.get(key) {
        Some(buffered) => buffered.moment(),
        None => None,
    }
}

// The message that an event publishes.
fn message_in(event: &Event) -> Option<&MessagePublished>
    ensures { option_copied result ≡ message_told event.now }
{
    match event {
        Event::MessagePublished(message) => Some(message),
        _ => None,
    }
}

// The key of the message that, as an event says, has expired.
fn expiry_in(event: &Event) -> Option<Key>
    ensures { result ≡ expiry_told event.now }
{
    match event {
        Event::MessageExpired(key) => Some(*key),
        _ => None,
    }
}
