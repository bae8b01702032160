ghost use Rattle.std.specs.Prelude.{◌≡◌, [], Some, None, if◌then◌else◌};
ghost use Rattle.zb_views.specs.Jobs.{is_activatable, is_activated, is_given_out};

use zb_lists::Listed;
use zb_model::{Key, Moment, Text};
use zb_rows::Kept;
use zb_table::{Row, Timed};

/// Where a job is in its life.
#[derive(Clone, Copy, Debug, PartialEq, Eq)]
pub enum JobPhase {
    /// It waits for a worker.
    Created,
    /// A worker has it.
    Activated,
    /// A worker had it until its deadline, and it waits for another one.
    TimedOut,
    /// It has failed, and has no try left.
    Failed,
}

impl JobPhase {
    /// Whether a worker may end a job in this phase: one was given it, also where its time has run out since.
    pub fn is_given_out(self) -> bool
        ensures { result ≡ is_given_out self }
    {
        matches!(self, JobPhase::Activated | JobPhase::TimedOut)
    }
}

/// A job: a piece of work that a worker is to do for a cell.
#[derive(Drop)]
pub struct Job {
    pub key: Key,
    /// The cell that waits for it.
    pub cell: Key,
    /// Its type, by which workers ask for it.
    pub kind: Text,
    /// How many tries are left.
    pub retries: u32,
    pub phase: JobPhase,
    /// Until when a worker has it, or had it. 0 where none has had it.
    pub deadline: Moment,
}

impl Row for Job {
    ghost key_in = { λ j. j.key };

    fn key(&self) -> Key {
        self.key
    }
}

impl Timed for Job {
    ghost moment_in = { λ j. if is_activated j.phase then Some j.deadline else None };

    fn moment(&self) -> Option<Moment> {
        match self.phase {
            JobPhase::Activated => Some(self.deadline),
            JobPhase::Created | JobPhase::TimedOut | JobPhase::Failed => None,
        }
    }
}

impl Kept for Job {
    ghost cell_in = { λ j. Some j.cell };

    fn cell(&self) -> Option<Key> {
        Some(self.cell)
    }
}

impl Listed for Job {
    ghost label_in = { λ j. if is_activatable j.phase then Some (j.kind, []) else None };

    fn label(&self) -> Option<(&str, &str)> {
        match self.phase {
            JobPhase::Created | JobPhase::TimedOut => Some((self.kind.as_str(), "")),
            JobPhase::Activated | JobPhase::Failed => None,
        }
    }
}
