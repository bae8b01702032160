ghost use Rattle.std.specs.Prelude.{◌≡◌, ◌≤◌};

use thiserror::Error;
use zb_model::{
    Command, JobBatchActivate, JobComplete, JobError, JobFailure, JobRetries, Key, MessagePublish,
    Model, PartitionId, ProcessInstanceCreationCreate, Text, VariableDocumentUpdate, home_of,
};
use zb_record::{partition_known, partition_of_key};

/// What a line asks for.
#[derive(Drop)]
pub enum Request {
    Deploy(Model),
    /// To make an instance at a partition.
    Create {
        partition: u32,
        creation: ProcessInstanceCreationCreate,
    },
    /// To end the instance of this key.
    Cancel(Key),
    /// To set variables.
    Variables(VariableDocumentUpdate),
    /// To give a worker jobs of a partition.
    Activate {
        partition: u32,
        activation: JobBatchActivate,
    },
    /// A worker has done a job.
    Complete(JobComplete),
    /// A worker has failed at a job.
    Fail(JobFailure),
    /// A job ends by an error of the process.
    Throw(JobError),
    /// To set how many tries a job has left.
    Retries(JobRetries),
    Publish(MessagePublish),
    /// To let the cell of the incident of this key go on.
    Resolve(Key),
    /// To go on with what is due.
    Tick,
    /// To move the manual clock on by so many milliseconds.
    Advance(u64),
    /// To do units of work until there are none left.
    Settle,
}

impl Request {
    ghost use Rattle.zb_wire.specs.Asked.{command_of, key_named, partition_asked};

    /// The command of a client that the request asks for, if it asks for one.
    pub fn into_command(self) -> Option<Command>
        ensures { result ≡ command_of self }
    {
        match self {
            Request::Deploy(model) => Some(Command::DeploymentCreate(model)),
            Request::Create { creation, .. } => Some(Command::ProcessInstanceCreationCreate(
                creation,
            )),
            Request::Cancel(key) => Some(Command::ProcessInstanceCancel(key)),
            Request::Variables(update) => Some(Command::VariableDocumentUpdate(update)),
            Request::Activate { activation, .. } => Some(Command::JobBatchActivate(activation)),
            Request::Complete(completion) => Some(Command::JobComplete(completion)),
            Request::Fail(failure) => Some(Command::JobFail(failure)),
            Request::Throw(thrown) => Some(Command::JobThrowError(thrown)),
            Request::Retries(update) => Some(Command::JobUpdateRetries(update)),
            Request::Publish(message) => Some(Command::MessagePublish(message)),
            Request::Resolve(key) => Some(Command::IncidentResolve(key)),
            Request::Tick | Request::Advance(_) | Request::Settle => None,
        }
    }

    /// The partition, of so many, that is asked for the command: the one that the request names, the home of a message,
    /// that of a key, or else the first. A message costs a step for each byte of its correlation key.
    pub fn partition(&self, partitions: u32) -> PartitionId
        requires from { 1 ≤ partitions }
        requires to { partitions ≤ 16 }
        ensures { result ≡ partition_asked partitions self.now }
    {
        match self {
            Request::Create { partition, .. } | Request::Activate { partition, .. } => {
                partition_known(u64::from(*partition), partitions)
            }
            Request::Publish(message) => {
                home_of(message.correlation_key.as_str().as_bytes(), partitions)
            }
            _ => match self.key() {
                Some(key) => partition_of_key(key, partitions),
                None => PartitionId::new(1),
            },
        }
    }

    // The key that it names, if it names one.
    fn key(&self) -> Option<Key>
        ensures { result ≡ key_named self.now }
    {
        match self {
            Request::Cancel(key) | Request::Resolve(key) => Some(*key),
            Request::Variables(update) => Some(update.scope),
            Request::Complete(completion) => Some(completion.key),
            Request::Fail(failure) => Some(failure.key),
            Request::Throw(thrown) => Some(thrown.key),
            Request::Retries(update) => Some(update.key),
            _ => None,
        }
    }
}

/// Why a line is no request: the first of these that holds.
#[derive(Debug, Drop, Error)]
pub enum LineFault {
    /// It is longer than 262,144 bytes.
    #[error("the line is longer than 262,144 bytes")]
    TooLong,
    /// It is no JSON value in UTF-8 (RFC 8259).
    #[error("the line is no JSON value in UTF-8")]
    NotJson,
    /// Its value is no object.
    #[error("the line is no JSON object")]
    NotObject,
    /// It has no field `op` with a text.
    #[error("the line has no field `op` with a text")]
    NoOp,
    /// Its `op` is no request of this server.
    #[error("the `op` is no request of this server")]
    UnknownOp,
    /// This field is missing, of the wrong kind or unknown. Where it is the model of a deploy, the path says
    /// where in the model the fault is, as a JSON pointer (RFC 6901): the empty one where there is no model.
    #[error("the field `{}{}` is missing, wrong or unknown", .field.as_str(), .path.as_ref().map_or("", Text::as_str))]
    Field { field: Text, path: Option<Text> },
    /// This field is outside its limits.
    #[error("the field `{}` is outside its limits", .field.as_str())]
    Range { field: Text },
    /// There was no memory.
    #[error("there was no memory")]
    Memory,
}
