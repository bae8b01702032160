/// The first word of a command line.
#[derive(Clone, Copy)]
pub enum Verb {
    /// Serves sessions over volumes.
    Serve,
    /// Shows a log.
    Log,
    /// Serves a workload that is made.
    Gen,
}
