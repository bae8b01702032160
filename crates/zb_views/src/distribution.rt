use zb_model::Key;

/// A distribution: a definition is on its way to another partition, which hasn't said so far that it has it.
#[derive(Clone, Copy, Debug, PartialEq, Eq)]
pub struct Distribution {
    pub definition: Key,
    /// The number of that partition.
    pub partition: u32,
}
