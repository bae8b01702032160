ghost use Rattle.std.specs.Prelude.{◌≡◌, ◌==◌, ◌&&◌, ◌++◌, ◌∷◌, [], List, IsTrue, OnOk, IfOk, filter, map, not, is_none, option_map};
ghost use Rattle.std.specs.List.{find};
ghost use Rattle.std.specs.Option.{option_copied};
ghost use Rattle.zb_table.specs.Rows.{Ascend, are_below, without};
ghost use Rattle.zb_model.specs.declared.record.Event.{Event};
ghost use Rattle.zb_views.specs.Standing.{standing_by};
ghost use Rattle.zb_views.specs.Jobs.{new_job, job_changed, job_sort};
ghost use Rattle.zb_jobs.specs.Table.{job_of_cell, HaveOwnCells, has_place_for, ChangesOnly};

use crate::change::{AsTold, made, says_nothing_of_jobs};
use std::alloc::{AllocError, Global};
use std::marker::Model;
use std::mem;
use zb_model::{Event, JobCreated, Key};
use zb_rows::Rows;
use zb_views::Job;

/// The jobs that are there, in the order of their keys. Contracts see the list of them.
#[derive(Drop)]
pub struct Jobs {
    rows: Rows<Job>,
}

impl Model for Jobs {
    ghost use Rattle.std.specs.Prelude.{List};
    ghost use Rattle.zb_views.specs.declared.job.Job.{Job};
    ghost use Rattle.zb_jobs.specs.Table.{HaveOwnCells};

    ghost Value = { List Job };

    ghost view = { λ t. t.rows };

    ghost invariant = { λ t. HaveOwnCells t.rows };
}

impl Jobs {
    /// No jobs. It takes no memory.
    pub fn empty(alloc: Global) -> Jobs
        ensures { result ≡ [] }
    {
        Jobs {
            rows: Rows::empty(alloc),
        }
    }

    /// The jobs as rows, by key and by cell.
    pub fn rows(&self) -> &Rows<Job>
        ensures rows { result.now ≡ self.now }
        ensures cells { HaveOwnCells self.now }
    {
        &self.rows
    }

    /// The job with this key. It takes the logarithm of how many jobs there are.
    pub fn get(&self, key: Key) -> Option<&Job>
        ensures job { option_copied result ≡ find (λ j. j.key == key) self.now }
        ensures order { Ascend (λ j. j.key) 0 self.now }
        ensures cells { HaveOwnCells self.now }
    {
        self.rows.get(key)
    }

    /// The key of the job that waits on this cell. It takes the logarithm of how many jobs there are.
    pub fn on(&self, cell: Key) -> Option<Key>
        ensures { result ≡ option_map (λ j. j.key) (job_of_cell cell self.now) }
    {
        self.rows.first_of_cell(cell)
    }

    /// Takes in what an event says of jobs. After a refusal the jobs are only dropped. It takes the logarithm of how
    /// many jobs there are, on average.
    pub fn apply(&mut self, alloc: Global, event: &Event) -> Result<(), AllocError>
        requires { IsTrue (has_place_for self.old event.now) }
        ensures { (before : List Event) → OnOk result (self.new ≡ standing_by job_sort before event.now self.old) }
    {
        if says_nothing_of_jobs(event) {
            return Ok(());
        }
        match event {
            Event::JobCreated(e) => self.add(alloc, e),
            Event::JobCompleted(key) | Event::JobCanceled(key) => {
                self.end(*key);
                Ok(())
            }
            Event::JobErrorThrown(e) => {
                self.end(e.key);
                Ok(())
            }
            Event::ElementTerminating(cell) => {
                self.end_on(*cell);
                Ok(())
            }
            Event::JobActivated(e) => self.change(alloc, e.key, event),
            Event::JobTimedOut(key) => self.change(alloc, *key, event),
            Event::JobFailed(e) => self.change(alloc, e.key, event),
            Event::JobRetriesUpdated(e) => self.change(alloc, e.key, event),
            Event::IncidentResolved(e) => self.change(alloc, e.job, event),
            _ => Ok(()),
        }
    }

    // Adds the job that is made.
    fn add(&mut self, alloc: Global, created: &JobCreated) -> Result<(), AllocError>
        requires { IsTrue (are_below (λ j. j.key) created.now.key self.old && is_none (job_of_cell created.now.cell self.old)) }
        ensures { OnOk result (self.new ≡ self.old ++ new_job created.now ∷ []) }
    {
        let job = made(alloc, created)?;
        self.rows.add(job)?;
        Ok(())
    }

    // Takes away the job with a key.
    fn end(&mut self, key: Key)
        ensures left { self.new ≡ without (λ j. j.key) key self.old }
        ensures order { Ascend (λ j. j.key) 0 self.old }
        ensures cells { HaveOwnCells self.old }
    {
        self.rows.take(key);
    }

    // Takes away the job of a cell.
    fn end_on(&mut self, cell: Key)
        ensures { self.new ≡ filter (λ j. not (j.cell == cell)) self.old }
    {
        if let Some(key) = self.on(cell) {
            self.end(key);
        }
    }

    // Changes the job with a key as the event says, which changes no other one.
    fn change(&mut self, alloc: Global, key: Key, event: &Event) -> Result<(), AllocError>
        requires { ChangesOnly key event.now }
        ensures { OnOk result (self.new ≡ map (job_changed event.now) self.old) }
    {
        let whole = mem::replace(self, Jobs::empty(alloc));
        *self = whole.with_change(alloc, key, event)?;
        Ok(())
    }

    // These jobs with one of them as the event says.
    fn with_change(mut self, alloc: Global, key: Key, event: &Event) -> Result<Jobs, AllocError>
        requires { ChangesOnly key event.now }
        ensures { IfOk result (λ jobs. jobs ≡ map (job_changed event.now) self) }
    {
        self.rows.edit(alloc, key, AsTold { event })?;
        Ok(self)
    }
}
