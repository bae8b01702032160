// Giving jobs to a worker.
ghost use Rattle.std.specs.Prelude.{◌≡◌, List, [], Some, IfOk};
ghost use Rattle.std.specs.Option.{option_map_or};
ghost use Rattle.zb_model.specs.declared.record.Event.{Event};
ghost use Rattle.zb_tokens.specs.Board.{Board, cell_at};
ghost use Rattle.zb_tokens.specs.Names.{root_of};
ghost use Rattle.zb_rules.specs.Shown.{board_of};
ghost use Rattle.zb_rules.specs.Activate.{reason_to_activate, job_given, given_out, batch_told, activated};
ghost use Rattle.zb_state.specs.State.{IsStateOf};

use crate::rejection::rejection;
use std::alloc::{AllocError, Global};
use zb_follow::{Each, Find, FindEach, Found, Maker};
use zb_model::{
    Event, JobActivated, JobBatchActivate, JobBatchActivated, Key, List, Moment, Rejection,
    RejectionKind, Text, TryCopy,
};
use zb_state::{Out, Refusal, State};
use zb_values::{node_id, root_of, visible};
use zb_views::Job;

/// Why no jobs are given: no type is named.
pub fn reason(alloc: Global, command: &JobBatchActivate) -> Result<Option<Rejection>, AllocError>
    ensures { IfOk result (λ rejection. rejection ≡ reason_to_activate command.now) }
{
    if !command.kind.as_str().is_empty() {
        return Ok(None);
    }
    rejection(alloc, RejectionKind::InvalidArgument, "empty job type")
}

/// The worker is given the first jobs of the type, one after the other, and then it is told which they are. Each costs
/// what `visible` and `Out::put` do.
#[derive(Drop)]
pub struct Activated<'a>(pub &'a JobBatchActivate);

impl Maker for Activated<'_> {
    ghost making = { λ it p moment. activated p moment it.0.now };

    fn put(
        self,
        alloc: Global,
        state: &mut State,
        moment: Moment,
        out: &mut Out,
    ) -> Result<(), Refusal> {
        let command = self.0;
        let keys = state.first_activatable(alloc, command.kind.as_str(), command.most)?;
        let finder = &GivenOut(command);
        let things = keys.as_slice();
        Each { finder, things }.put(alloc, state, moment, out)?;
        Found(BatchTold(keys)).put(alloc, state, moment, out)
    }
}

// A job is given to the worker, if it is there.
#[derive(Clone, Copy)]
struct GivenOut<'a>(&'a JobBatchActivate);

impl FindEach<Key> for GivenOut<'_> {
    ghost finds = { λ it key p moment. given_out moment it.0.now key };

    fn find(
        &self,
        alloc: Global,
        state: &State,
        moment: Moment,
        key: &Key,
    ) -> Result<Option<Event>, AllocError> {
        match state.jobs().get(*key) {
            Some(job) => Ok(Some(Event::JobActivated(given(alloc, state, moment, self.0, job)?))),
            None => Ok(None),
        }
    }
}

// It is told which jobs were given, under a key of its own.
#[derive(Drop)]
struct BatchTold(List<Key>);

impl Find for BatchTold {
    ghost finds = { λ told p. batch_told p told.0 };

    fn find(self, _alloc: Global, state: &State) -> Result<Option<Event>, AllocError> {
        let key = state.next_key();
        let jobs = self.0;
        Ok(Some(Event::JobBatchActivated(JobBatchActivated { key, jobs })))
    }
}

// The job as it is given.
fn given(
    alloc: Global,
    state: &State,
    moment: Moment,
    command: &JobBatchActivate,
    job: &Job,
) -> Result<JobActivated, AllocError>
    ensures { (es : List Event) (b : Board) → IsStateOf es state.now → board_of es ≡ Some b
        → IfOk result (λ given. given ≡ job_given moment command.now b job.now) }
{
    Ok(JobActivated {
        key: job.key,
        worker: command.worker.copy(alloc)?,
        deadline: moment.plus(command.timeout),
        instance: instance_of(state, job.cell),
        node: node_of(alloc, state, job.cell)?,
        kind: job.kind.copy(alloc)?,
        retries: job.retries,
        variables: visible(state.game(), alloc, job.cell)?,
    })
}

// The instance that a cell is in; 0 where the cell isn't there.
fn instance_of(state: &State, cell: Key) -> Key
    ensures { (es : List Event) (b : Board) → IsStateOf es state.now → board_of es ≡ Some b → result ≡ option_map_or (λ root. root) (root_of b cell) 0 }
{
    match root_of(state.game(), cell) {
        Some(root) => root,
        None => Key::new(0),
    }
}

// The id of the node of a cell; empty where the cell isn't there.
fn node_of(alloc: Global, state: &State, cell: Key) -> Result<Text, AllocError>
    ensures { (es : List Event) (b : Board) → IsStateOf es state.now → board_of es ≡ Some b
        → IfOk result (λ node. node ≡ option_map_or (λ c. c.node) (cell_at b cell) []) }
{
    match node_id(state.game(), cell) {
        Some(node) => node.copy(alloc),
        None => Ok(Text::empty(alloc)),
    }
}
