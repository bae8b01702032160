use zb_model::{Key, Text};

/// A process definition: a model that was deployed, as a version of its process.
#[derive(Drop)]
pub struct Definition {
    pub key: Key,
    pub version: u32,
    /// The id of the process.
    pub process: Text,
}
