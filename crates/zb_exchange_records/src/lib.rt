//! Records of what goes out and comes in, jobs and messages, and of who waits for it: their fields, and
//! how they stand in bytes.
#![tactic(auto)]

mod job;
mod message;
mod subscription;

pub use job::{
    JobActivated, JobBatchActivate, JobBatchActivated, JobComplete, JobCreated, JobError,
    JobFailure, JobRetries,
};
pub use message::{MessagePublish, MessagePublished};
pub use subscription::{
    MessageCorrelation, MessageStartEventSubscriptionCorrelated, MessageSubscription,
    MessageSubscriptionDelete, ProcessMessageSubscriptionCreating,
    ProcessMessageSubscriptionDeleting, SubscribedMessage,
};
