/// The files of a partition: its log, and two slots for snapshots.
#[derive(Drop)]
pub struct Volume<D> {
    pub log: D,
    pub snap_a: D,
    pub snap_b: D,
}
