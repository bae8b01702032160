use zb_model::Key;

/// An instance that has begun, of which only the root is missing.
#[derive(Clone, Copy, Debug, PartialEq, Eq)]
pub struct Begun {
    pub key: Key,
    pub definition: Key,
    /// The message that starts it, if one does.
    pub message: Option<Key>,
}
