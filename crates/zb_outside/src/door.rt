use zb_base::PartitionId;

/// A door that each command passes before it is processed, while its partition's lock is held.
pub trait Door {
    /// Lets the command with this number at that partition pass.
    fn pass(&self, place: PartitionId, number: u64);
}

/// A door that is always open.
#[derive(Clone, Copy, Debug)]
pub struct OpenDoor;

impl Door for OpenDoor {
    fn pass(&self, place: PartitionId, number: u64) {
        let _ = (place, number);
    }
}
