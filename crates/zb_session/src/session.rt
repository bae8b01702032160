/// A client: where its lines come from, and where the replies go.
#[derive(Drop)]
pub struct Session<S, K> {
    pub source: S,
    pub sink: K,
}

/// Why the serving of a session ended.
#[derive(Clone, Copy, Debug, PartialEq, Eq)]
pub enum End {
    /// Its source was read to its end, and every line has its reply.
    Done,
    /// Its source failed.
    SourceFault,
    /// Its sink failed.
    SinkFault,
    /// It took as many bytes as a session may.
    InputFull,
    /// There was no memory.
    Memory,
    /// The desk stopped. It knows why.
    Stopped,
}
