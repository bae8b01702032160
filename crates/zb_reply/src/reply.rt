use zb_model::{Key, List, Moment, Rejection, Text, Vars};
use zb_wire::LineFault;

/// What a line is answered.
#[derive(Drop)]
pub enum Reply {
    /// The model was deployed.
    Deploy(DeployedReply),
    /// The instance was made.
    Create(Created),
    /// The instance of this key ends.
    Cancel(Key),
    /// The values were set, from the cell of this key on.
    Variables(Key),
    /// A worker was given these jobs.
    Activate(List<ActivatedJob>),
    /// The job of this key is done.
    Complete(Key),
    /// The job of this key failed.
    Fail(Key),
    /// The job of this key ended by an error.
    Throw(Key),
    /// The job of this key has so many tries left as was asked for.
    Retries(Key),
    /// The message was published under this key.
    Publish(Key),
    /// The incident of this key is resolved.
    Resolve(Key),
    /// So many commands were due.
    Tick(u64),
    /// The clock reads this moment.
    Advance(Moment),
    /// Units of work were done.
    Settle,
    /// The request was rejected.
    Rejected(Rejection),
    /// The line with this number, from 1, is no request.
    Fault(u64, LineFault),
}

/// The definition that a deployment made: this version of the process.
#[derive(Drop)]
pub struct DeployedReply {
    pub definition: Key,
    pub process: Text,
    pub version: u32,
}

/// The instance that was made of a definition.
#[derive(Clone, Copy)]
pub struct Created {
    pub definition: Key,
    pub instance: Key,
}

/// A job that a worker was given: what it has to do, and until when.
#[derive(Drop)]
pub struct ActivatedJob {
    pub deadline: Moment,
    pub element: Text,
    pub instance: Key,
    pub job: Key,
    pub retries: u32,
    pub kind: Text,
    /// What the element sees.
    pub variables: Vars,
}
