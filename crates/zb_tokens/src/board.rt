use crate::BoxedModel;
use zb_base::{Key, List, Moment, Text, Value, Variable, Vars};
use zb_instance_records::{IncidentKind, Role};

/// Where a cell is in its life.
#[derive(Clone, Copy, Debug, PartialEq, Eq)]
pub enum Phase {
    Activating,
    Active,
    Completing,
    /// It has completed, and has flows still to take.
    Leaving,
    Terminating,
}

/// What a cell that waits was told.
#[derive(Drop)]
pub enum Mark {
    /// Nothing so far.
    Unset,
    /// What it waited for has come.
    Done,
    /// What it waited for has come at this node behind it.
    Chosen(Text),
    /// An error with this code was thrown.
    Thrown(Text),
}

/// A node that runs, or a process.
#[derive(Drop)]
pub struct Cell {
    pub key: Key,
    /// The cell around it. 0 at a root.
    pub scope: Key,
    pub definition: Key,
    /// The id of its node; that of the process at a root.
    pub node: Text,
    pub role: Role,
    pub phase: Phase,
    pub mark: Mark,
    /// Whether a token before its node entered it, and none on a flow.
    pub before: bool,
    /// The items of a body, which its inner cells take one by one.
    pub items: List<i64>,
    /// How many of its items were taken.
    pub taken: u64,
    /// The flows that it has still to take, while it leaves.
    pub owed: List<Text>,
    /// The activities with a handler that have completed in it, in order.
    pub finished: List<Text>,
    /// Whether a terminate end event ends it.
    pub ending: bool,
    pub variables: Vars,
}

/// Where a token is.
#[derive(Drop)]
pub enum Spot {
    OnFlow(Text),
    BeforeNode(Text),
}

/// A token.
#[derive(Drop)]
pub struct Token {
    /// The cell in which it is.
    pub scope: Key,
    pub spot: Spot,
}

/// What keeps a cell from going on.
#[derive(Drop)]
pub struct Incident {
    pub key: Key,
    pub kind: IncidentKind,
    /// The cell on which it stands.
    pub cell: Key,
    /// The job that is its cause; 0 where none is.
    pub job: Key,
    pub text: Text,
}

/// A model under the key of its definition.
#[derive(Drop)]
pub struct Deployed {
    pub key: Key,
    /// Which version of its process it is.
    pub version: u32,
    pub model: BoxedModel,
}

/// A variable of a cell, and its value.
#[derive(Drop)]
pub struct Assigned {
    /// The cell that has the variable.
    pub scope: Key,
    pub name: Text,
    pub value: Value,
}

/// Variables that are set one by one where a move is made: in a cell itself where they are local to it, else each
/// is handed up from it.
#[derive(Drop)]
pub struct Assignments {
    /// The cell.
    pub scope: Key,
    pub local: bool,
    pub variables: List<Variable>,
}

/// A move of the game.
#[derive(Drop)]
pub enum Move {
    /// A model stands under a key.
    Stand(Deployed),
    Start(Start),
    Enter(Enter),
    /// A body begins a run for its next item.
    Inner(Inner),
    /// A compensation event runs the handler of the activity that finished last.
    Undo(Undo),
    Open(Open),
    Finish(Key),
    Leave(Leave),
    Take(Take),
    /// A cell is called off, and begins to terminate.
    Halt(Key),
    /// A cell has terminated.
    Gone(Key),
    /// A new variable has a value.
    Assign(Assigned),
    /// A variable that is there has another value.
    Update(Assigned),
    /// The work that a cell waits for is done.
    Done(Key),
    /// An error is thrown in a cell.
    Throw(Thrown),
    /// An event comes about that a cell waits for.
    Trigger(Triggered),
    /// An incident stands on a cell.
    Incident(Incident),
    /// An incident is gone.
    Repair(Key),
}

/// A process is instantiated under a key.
#[derive(Drop)]
pub struct Start {
    pub key: Key,
    pub definition: Key,
}

/// A token enters a node. The flow that it comes by is empty where it stands before the node.
#[derive(Drop)]
pub struct Enter {
    pub key: Key,
    pub scope: Key,
    pub node: Text,
    pub via: Text,
}

/// A body begins a run under a key.
#[derive(Drop)]
pub struct Inner {
    pub key: Key,
    pub body: Key,
}

/// A compensation event runs a handler under a key.
#[derive(Drop)]
pub struct Undo {
    pub key: Key,
    /// The cell at the compensation event.
    pub event: Key,
    /// The id of the handler.
    pub node: Text,
}

/// A cell becomes active; a body keeps these items.
#[derive(Drop)]
pub struct Open {
    pub key: Key,
    pub items: List<i64>,
}

/// A cell has completed, and owes these flows.
#[derive(Drop)]
pub struct Leave {
    pub key: Key,
    pub owed: List<Text>,
}

/// A cell takes the first flow that it owes.
#[derive(Drop)]
pub struct Take {
    pub key: Key,
    pub flow: Text,
}

/// An error with this code is thrown in a cell.
#[derive(Drop)]
pub struct Thrown {
    pub cell: Key,
    pub code: Text,
}

/// An event comes about that a cell waits for.
#[derive(Drop)]
pub struct Triggered {
    pub cell: Key,
    /// The node of the event: that of the cell.
    pub node: Text,
}

/// What a cell waits for at a node.
#[derive(Clone, Copy, Debug, PartialEq, Eq)]
pub enum Catch {
    Time,
    Message,
}

/// What opens for a cell as it becomes active.
#[derive(Drop)]
pub struct Opening {
    /// The node of the event for which the cell waits: its own one, or another one.
    pub node: Text,
    pub event: Awaited,
}

/// An event for which a cell waits.
#[derive(Drop)]
pub enum Awaited {
    /// A timer is due at this moment.
    Time(Moment),
    Message(AwaitedMessage),
}

/// A message for which a cell waits.
#[derive(Drop)]
pub struct AwaitedMessage {
    pub name: Text,
    pub correlation_key: Text,
    /// The process of the cell.
    pub process: Text,
    /// Whether the cell waits for no other message behind it.
    pub cancel: bool,
}

/// Who makes a forced move.
#[derive(Drop)]
pub enum Mover {
    /// The cell with this key.
    Cell(Key),
    Token(Token),
}
