/// What a line is read by, beside its bytes.
#[derive(Clone, Copy)]
pub struct Given {
    /// Which line of its session it is, from 1.
    pub number: u64,
    /// How many partitions there are.
    pub partitions: u32,
    /// Whether the clock is moved by hand.
    pub manual: bool,
}
