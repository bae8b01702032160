use zb_model::{Key, Text};

/// A subscription at the home of its messages: an element instance, maybe of another partition, waits for a message.
#[derive(Drop)]
pub struct Subscription {
    pub key: Key,
    /// The name of its messages.
    pub name: Text,
    pub correlation_key: Text,
    /// The id of the process of the instance.
    pub process: Text,
    /// Whether it ends with the first message that it has correlated.
    pub cancel: bool,
    /// The message that it is correlating.
    pub correlating: Option<Key>,
}
