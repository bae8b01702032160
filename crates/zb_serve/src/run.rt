ghost use Rattle.std.specs.Prelude.{◌≡◌};

use thiserror::Error;
use zb_model::Batch;
use zb_session::Session;
use zb_store::Volume;

/// The number of the one session that is served so far.
pub const SESSION: u32 = 1;

/// Why a run ended. Sessions and partitions are numbered from 1.
#[derive(Debug, Drop, Error)]
pub enum Cause {
    /// Every source was read to its end, and every line has its reply.
    #[error("every line has its reply")]
    Done,
    /// The words, or the number of volumes, can't be served.
    #[error("the words, or the number of volumes, can't be served")]
    Usage,
    /// That session's source failed.
    #[error("the input of session {session} failed; what has a reply is stored")]
    SourceFault {
        session: u32,
    },
    /// A disk of that partition failed. The batch is the one that was being written.
    #[error("a disk of partition {partition} failed; a request without a reply may be stored; look at the disk before you start again")]
    DiskFault {
        partition: u32,
        in_writing: Option<Batch>,
    },
    /// That partition's log can't be read from this frame on, counted from 0.
    #[error("the log of partition {partition} can't be read from frame {frame} on, counted from 0; it was left as it is: put a copy in its place, or move it away to begin anew")]
    BadLog {
        partition: u32,
        frame: u64,
    },
    /// That session's sink failed.
    #[error("the output of session {session} failed; a request without a reply may be stored")]
    SinkFault {
        session: u32,
    },
    /// There was no memory.
    #[error("there was no memory; a request without a reply may be stored")]
    Memory,
    /// The next frame doesn't fit into that partition's log. All numbers are of bytes.
    #[error("the log of partition {partition} has {length} bytes of {limit}, and the next frame has {frame}; start with a larger --limit")]
    LogFull {
        partition: u32,
        length: u64,
        frame: u64,
        limit: u64,
    },
    /// That session took as many bytes as a session may.
    #[error("session {session} took all the bytes that one may; go on in another one")]
    InputFull {
        session: u32,
    },
}

/// A run that ended, with all that was handed to it.
#[derive(Drop)]
pub struct Closed<S, K, D> {
    /// The exit status.
    pub status: u8,
    pub cause: Cause,
    pub sessions: Vec<Session<S, K>>,
    pub volumes: Vec<Volume<D>>,
    /// For each partition the places that its batches have in the history. Empty where a log could
    /// not be opened.
    pub stamps: Vec<Vec<u64>>,
    /// The units of work that were done after the last line.
    pub units: u64,
}

impl<S, K, D> Closed<S, K, D> {
    /// The sessions and the volumes, which were handed to the run.
    pub fn into_devices(self) -> (Vec<Session<S, K>>, Vec<Volume<D>>)
        ensures { result ≡ (self.sessions, self.volumes) }
    {
        let Closed {
            cause,
            sessions,
            volumes,
            ..
        } = self;
        drop(cause);
        (sessions, volumes)
    }
}
