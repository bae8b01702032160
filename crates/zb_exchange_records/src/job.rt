// Records: jobs and their workers.
ghost use Rattle.zb_exchange_records.specs.Layouts as layouts;

use std::alloc::{AllocError, Global};
use zb_base::{Key, List, Moment, Text, TryCopy, Vars};
use zb_format::{Cursor, Encoder, Fields, Format, ReadFault, Skip, pairs};

/// What JOB_BATCH ACTIVATE asks for: jobs of a kind for a worker.
#[derive(Drop)]
pub struct JobBatchActivate {
    pub kind: Text,
    pub worker: Text,
    /// Milliseconds.
    pub timeout: u64,
    /// How many jobs it takes at most.
    pub most: u32,
}

#[tactic(auto, unfolding(crate::specs::Layouts::job_batch_activate))]
impl Format for JobBatchActivate {
    ghost layout = { layouts.job_batch_activate };

    fn write(&self, encoder: &mut Encoder) -> Result<(), AllocError> {
        pairs!(&self.kind, &self.worker, &self.timeout, &self.most).encode(encoder)
    }

    fn read(alloc: Global, cursor: &mut Cursor<'_>) -> Result<JobBatchActivate, ReadFault> {
        let pairs!(kind, worker, timeout, most) = Format::read(alloc, cursor)?;
        Ok(JobBatchActivate {
            kind,
            worker,
            timeout,
            most,
        })
    }
}

#[tactic(auto, using(zb_format::proofs::SkipLemmas::skips), unfolding(crate::specs::Layouts::job_batch_activate))]
impl Skip for JobBatchActivate {
    fn skip(alloc: Global, cursor: &mut Cursor<'_>) -> Result<(), ReadFault> {
        <(Text, (Text, (u64, u32)))>::skip(alloc, cursor)
    }
}

/// What JOB COMPLETE asks for: the job is done, with these results.
#[derive(Drop)]
pub struct JobComplete {
    pub key: Key,
    pub variables: Vars,
}

#[tactic(auto, unfolding(crate::specs::Layouts::job_complete))]
impl Format for JobComplete {
    ghost layout = { layouts.job_complete };

    fn write(&self, encoder: &mut Encoder) -> Result<(), AllocError> {
        (&self.key, &self.variables).encode(encoder)
    }

    fn read(alloc: Global, cursor: &mut Cursor<'_>) -> Result<JobComplete, ReadFault> {
        let (key, variables) = Format::read(alloc, cursor)?;
        Ok(JobComplete { key, variables })
    }
}

#[tactic(auto, using(zb_format::proofs::SkipLemmas::skips), unfolding(crate::specs::Layouts::job_complete))]
impl Skip for JobComplete {
    fn skip(alloc: Global, cursor: &mut Cursor<'_>) -> Result<(), ReadFault> {
        <(Key, Vars)>::skip(alloc, cursor)
    }
}

/// The job failed: what JOB FAIL tells, and JOB FAILED.
#[derive(Drop)]
pub struct JobFailure {
    pub key: Key,
    /// How many tries are left.
    pub retries: u32,
    pub text: Text,
}

#[tactic(auto, unfolding(crate::specs::Layouts::job_failure))]
impl Format for JobFailure {
    ghost layout = { layouts.job_failure };

    fn write(&self, encoder: &mut Encoder) -> Result<(), AllocError> {
        pairs!(&self.key, &self.retries, &self.text).encode(encoder)
    }

    fn read(alloc: Global, cursor: &mut Cursor<'_>) -> Result<JobFailure, ReadFault> {
        let pairs!(key, retries, text) = Format::read(alloc, cursor)?;
        Ok(JobFailure { key, retries, text })
    }
}

#[tactic(auto, using(zb_format::proofs::SkipLemmas::skips), unfolding(crate::specs::Layouts::job_failure))]
impl Skip for JobFailure {
    fn skip(alloc: Global, cursor: &mut Cursor<'_>) -> Result<(), ReadFault> {
        <(Key, (u32, Text))>::skip(alloc, cursor)
    }
}

impl TryCopy for JobFailure {
    fn copy(&self, alloc: Global) -> Result<JobFailure, AllocError> {
        Ok(JobFailure {
            key: self.key,
            retries: self.retries,
            text: self.text.copy(alloc)?,
        })
    }
}

/// The job ends by an error of the process: what JOB THROW_ERROR tells, and JOB ERROR_THROWN.
#[derive(Drop)]
pub struct JobError {
    pub key: Key,
    pub code: Text,
}

#[tactic(auto, unfolding(crate::specs::Layouts::job_error))]
impl Format for JobError {
    ghost layout = { layouts.job_error };

    fn write(&self, encoder: &mut Encoder) -> Result<(), AllocError> {
        (&self.key, &self.code).encode(encoder)
    }

    fn read(alloc: Global, cursor: &mut Cursor<'_>) -> Result<JobError, ReadFault> {
        let (key, code) = Format::read(alloc, cursor)?;
        Ok(JobError { key, code })
    }
}

#[tactic(auto, using(zb_format::proofs::SkipLemmas::skips), unfolding(crate::specs::Layouts::job_error))]
impl Skip for JobError {
    fn skip(alloc: Global, cursor: &mut Cursor<'_>) -> Result<(), ReadFault> {
        <(Key, Text)>::skip(alloc, cursor)
    }
}

impl TryCopy for JobError {
    fn copy(&self, alloc: Global) -> Result<JobError, AllocError> {
        Ok(JobError {
            key: self.key,
            code: self.code.copy(alloc)?,
        })
    }
}

/// So many tries are left: what JOB UPDATE_RETRIES asks for, and JOB RETRIES_UPDATED.
#[derive(Clone, Copy)]
pub struct JobRetries {
    pub key: Key,
    pub retries: u32,
}

#[tactic(auto, unfolding(crate::specs::Layouts::job_retries))]
impl Format for JobRetries {
    ghost layout = { layouts.job_retries };

    fn write(&self, encoder: &mut Encoder) -> Result<(), AllocError> {
        (&self.key, &self.retries).encode(encoder)
    }

    fn read(alloc: Global, cursor: &mut Cursor<'_>) -> Result<JobRetries, ReadFault> {
        let (key, retries) = Format::read(alloc, cursor)?;
        Ok(JobRetries { key, retries })
    }
}

impl Skip for JobRetries {}

/// JOB CREATED: the element waits for this job.
#[derive(Drop)]
pub struct JobCreated {
    pub key: Key,
    pub cell: Key,
    pub kind: Text,
    pub retries: u32,
}

#[tactic(auto, unfolding(crate::specs::Layouts::job_created))]
impl Format for JobCreated {
    ghost layout = { layouts.job_created };

    fn write(&self, encoder: &mut Encoder) -> Result<(), AllocError> {
        pairs!(&self.key, &self.cell, &self.kind, &self.retries).encode(encoder)
    }

    fn read(alloc: Global, cursor: &mut Cursor<'_>) -> Result<JobCreated, ReadFault> {
        let pairs!(key, cell, kind, retries) = Format::read(alloc, cursor)?;
        Ok(JobCreated {
            key,
            cell,
            kind,
            retries,
        })
    }
}

/// JOB ACTIVATED: the worker has the job until the deadline.
#[derive(Drop)]
pub struct JobActivated {
    pub key: Key,
    pub worker: Text,
    pub deadline: Moment,
    pub instance: Key,
    pub node: Text,
    pub kind: Text,
    pub retries: u32,
    pub variables: Vars,
}

#[tactic(auto, unfolding(crate::specs::Layouts::job_activated))]
impl Format for JobActivated {
    ghost layout = { layouts.job_activated };

    fn write(&self, encoder: &mut Encoder) -> Result<(), AllocError> {
        pairs!(
            &self.key,
            &self.worker,
            &self.deadline,
            &self.instance,
            &self.node,
            &self.kind,
            &self.retries,
            &self.variables
        )
        .encode(encoder)
    }

    fn read(alloc: Global, cursor: &mut Cursor<'_>) -> Result<JobActivated, ReadFault> {
        let pairs!(
            key, worker, deadline, instance, node, kind, retries, variables
        ) = Format::read(alloc, cursor)?;
        Ok(JobActivated {
            key,
            worker,
            deadline,
            instance,
            node,
            kind,
            retries,
            variables,
        })
    }
}

/// JOB_BATCH ACTIVATED: these jobs were given to a worker.
#[derive(Drop)]
pub struct JobBatchActivated {
    pub key: Key,
    pub jobs: List<Key>,
}

#[tactic(auto, unfolding(crate::specs::Layouts::job_batch_activated))]
impl Format for JobBatchActivated {
    ghost layout = { layouts.job_batch_activated };

    fn write(&self, encoder: &mut Encoder) -> Result<(), AllocError> {
        (&self.key, &self.jobs).encode(encoder)
    }

    fn read(alloc: Global, cursor: &mut Cursor<'_>) -> Result<JobBatchActivated, ReadFault> {
        let (key, jobs) = Format::read(alloc, cursor)?;
        Ok(JobBatchActivated { key, jobs })
    }
}
