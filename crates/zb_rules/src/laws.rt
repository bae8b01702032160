ghost use Rattle.std.specs.Prelude.{◌≡◌, ◌≤◌, ◌<◌, ◌+◌, ◌/◌, ◌^◌, ◌++◌, ◌||◌, not, ℕ, length, List, [], ◌∷◌, Some, None, All, IsTrue, IsFalse, false, is_some};
ghost use Rattle.std.specs.List.{list_any};
ghost use Rattle.std.specs.Option.{IfSome, option_map_or};
ghost use Rattle.zb_instance_records.specs.declared.instance.ElementActivating.{ElementActivating};
ghost use Rattle.zb_instance_records.specs.declared.instance.ElementCompleted.{ElementCompleted};
ghost use Rattle.zb_instance_records.specs.declared.instance.Role.TheVariants as roles;
ghost use Rattle.zb_instance_records.specs.declared.happening.VariableDocumentUpdate.{VariableDocumentUpdate};
ghost use Rattle.zb_process.specs.declared.model.Model.{Model};
ghost use Rattle.zb_model.specs.declared.record.Command.{Command};
ghost use Rattle.zb_model.specs.declared.record.Event.{Event};
ghost use Rattle.zb_model.specs.declared.record.Outcome.{Outcome};
ghost use Rattle.zb_model.specs.declared.record.Event.TheVariants as events;
ghost use Rattle.zb_tokens.specs.declared.board.Cell.{Cell};
ghost use Rattle.zb_tokens.specs.declared.board.Leave.{Leave};
ghost use Rattle.zb_tokens.specs.declared.board.Triggered.{Triggered};
ghost use Rattle.zb_tokens.specs.declared.board.Move.TheVariants as moves;
ghost use Rattle.zb_tokens.specs.Marks.{has_come_about};
ghost use Rattle.zb_tokens.specs.MoveTrigger.{fits_trigger, is_gateway_cell};
ghost use Rattle.zb_tokens.specs.declared.board.Move.{Move};
ghost use Rattle.zb_tokens.specs.declared.board.Mover.{Mover};
ghost use Rattle.zb_tokens.specs.declared.board.Phase.TheVariants as phases;
ghost use Rattle.zb_tokens.specs.Board.{Board, cell_at, model_under, has_child, is_body, is_phase, is_role, undoes};
ghost use Rattle.zb_tokens.specs.Handlers.{next_handler};
ghost use Rattle.zb_tokens.specs.Bodies.{is_sequential};
ghost use Rattle.zb_tokens.specs.Names.{holder_of};
ghost use Rattle.zb_tokens.specs.Incidents.{incident_on};
ghost use Rattle.zb_tokens.specs.Game.{agrees, fits};
ghost use Rattle.zb_tokens.specs.Forced.{next_mover};
ghost use Rattle.zb_views.specs.Timers.{times_timer_ended};
ghost use Rattle.zb_views.specs.View.{events_in, next_key};
ghost use Rattle.zb_rules.specs.Shown.{shown, board_of, event_of};
ghost use Rattle.zb_rules.specs.Applies.{applies, all_apply};
ghost use Rattle.zb_rules.specs.Legal.{IsMadeLegally};
ghost use Rattle.zb_rules.specs.InFront.{count_in_front, events_in_front};
ghost use Rattle.zb_rules.specs.Settling.{turn};
ghost use Rattle.zb_rules.specs.JobEnds.{times_ended};
ghost use Rattle.zb_rules.specs.Behind.{events_behind};
ghost use Rattle.zb_rules.specs.Runs.{times_run, IsRunFor};
ghost use Rattle.zb_rules.specs.Undone.{finishes_in, undoes_in, times_finished, times_undone, IsOfLast};
ghost use Rattle.zb_rules.specs.Sound.{IsSound, HasSoundJobs, HasKeys, IsForcedEvent, IsHolder};
ghost use Rattle.zb_rules.specs.Cancel.{reason_to_cancel, cancelled};
ghost use Rattle.zb_rules.specs.Update.{reason_to_update, updated};
ghost use Rattle.zb_rules.specs.Reason.{reason_for};
ghost use Rattle.zb_rules.specs.Own.{IsSupported};
ghost use Rattle.zb_rules.specs.Kinds.{AllCarry, may_follow, may_lead_to};
ghost use Rattle.zb_rules.specs.Step.{IsOutcomeOf};
ghost use Rattle.zb_rules.specs.TimerEvents.{triggers, IsDueBy};
ghost use Rattle.zb_rules.specs.declared.alarm.Alarm.{Alarm};
ghost use Rattle.zb_rules.specs.Due.{alarms, due_command, IsFirstDue};

/// The command that is due first is that of an alarm, a message's, a job's or a timer's, whose moment has come, and no
/// other one whose moment has come is before it by that moment, then by its key. Where no command is due, each moment
/// lies ahead.
pub fn due_commands_come_first()
    ensures first { (now : ℕ) (es : List Event) (command : Command) → due_command now es ≡ Some command
        → (alarm : Alarm) × (command ≡ alarm.command) × IsFirstDue now es alarm }
    ensures none { (now : ℕ) (es : List Event) → due_command now es ≡ None → All (λ alarm. now < alarm.moment) (alarms es) }
{}

/// From the moment at which a command is due there is no reason against it, and it is one that is run: a message
/// whose deadline has come expires, a job whose deadline has come is taken back from the worker that has it, and a
/// timer whose moment has come, and whose cell waits for it, is triggered.
pub fn due_commands_have_no_reason()
    ensures no_reason { (now moment : ℕ) (es : List Event) (command : Command) → now ≤ moment → due_command now es ≡ Some command → reason_for es moment command ≡ None }
    ensures run { (now : ℕ) (es : List Event) (command : Command) → due_command now es ≡ Some command → IsSupported command }
{}

/// A log whose events apply has a board, and that is sound: its cells ascend, each has its model, and each of them
/// but a root stands in an earlier cell that is active or terminating: in a scope of its model, or in a body. Each token
/// stands in such a scope. A cell that leaves owes a flow, and is no root. At most one incident stands on each cell, and no
/// two have one key.
pub fn boards_of_logs_are_sound()
    ensures there { (p : ℕ) (es : List Event) → IsTrue (all_apply p [] es) → IsTrue (is_some (board_of es)) }
    ensures sound { (p : ℕ) (es : List Event) (board : Board) → IsTrue (all_apply p [] es) → board_of es ≡ Some board → IsSound board }
{}

/// The jobs of a log whose events apply: their keys ascend, and the partition draws none of them again. Each is of a
/// cell of its own that waits for its work, and no incident stands there as long as the job has a try left. An
/// incident that a job is the cause of stands on the job's cell.
pub fn jobs_of_logs_are_sound()
    ensures { (p : ℕ) (es : List Event) (board : Board) → IsTrue (all_apply p [] es) → board_of es ≡ Some board → HasSoundJobs p es board }
{}

/// In a log whose events apply each job is over at most once: completed, canceled, or ended by an error that is
/// thrown in it. One that is over has a key of the log's partition.
pub fn jobs_end_once()
    ensures once { (p : ℕ) (es : List Event) (job : ℕ) → IsTrue (all_apply p [] es) → times_ended job es ≤ 1 }
    ensures home { (p : ℕ) (es : List Event) (job : ℕ) → IsTrue (all_apply p [] es) → 1 ≤ times_ended job es → job / 2 ^ 51 ≡ p }
{}

/// In a log whose events apply each timer ends at most once: it is triggered or canceled. One that ended has a key of
/// the log's partition.
pub fn timers_end_once()
    ensures once { (p : ℕ) (es : List Event) (timer : ℕ) → IsTrue (all_apply p [] es) → times_timer_ended timer es ≤ 1 }
    ensures home { (p : ℕ) (es : List Event) (timer : ℕ) → IsTrue (all_apply p [] es) → 1 ≤ times_timer_ended timer es → timer / 2 ^ 51 ≡ p }
{}

/// A step triggers no timer before its moment: what a command leads to triggers none but one that is there, and due.
pub fn timers_fire_on_time()
    ensures { (p n moment : ℕ) (es : List Event) (command : Command) (outcome : Outcome) → IsOutcomeOf p n moment es command outcome
        → (timer : ℕ) → IsTrue (list_any (triggers timer) (events_in outcome)) → IsDueBy es timer moment }
{}

/// Each event of a step is of a kind that its command makes itself, or of one that may follow: it comes of what is
/// forced, or stands beside an event that does. One by which a subscription begins to be deleted carries the messages
/// that this was given.
pub fn steps_have_listed_kinds()
    ensures closings { (p n moment : ℕ) (es : List Event) (command : Command) (outcome : Outcome) → IsOutcomeOf p n moment es command outcome
        → AllCarry es (events_in outcome) }
    ensures kinds { (p n moment : ℕ) (es : List Event) (command : Command) (outcome : Outcome) → IsOutcomeOf p n moment es command outcome
        → All (λ event. IsTrue (may_follow event || may_lead_to command event)) (events_in outcome) }
{}

/// A cell at an event gateway takes one way: behind a log whose events apply it completes with one flow at most, the one
/// to the node whose event has come, and once it was told of an event it is told of no other.
pub fn event_gateways_take_one_way()
    ensures way { (p : ℕ) (es : List Event) (board : Board) (leave : Leave) (cell : Cell) → IsTrue (all_apply p [] es) → board_of es ≡ Some board
        → cell_at board leave.key ≡ Some cell → IsTrue (is_gateway_cell board cell) → IsTrue (fits board (moves.Leave leave)) → length leave.owed ≤ 1 }
    ensures chosen { (board : Board) (told : Triggered) (cell : Cell) → cell_at board told.cell ≡ Some cell
        → IsTrue (is_gateway_cell board cell) → IsTrue (has_come_about cell.mark) → IsFalse (fits_trigger board told) }
{}

/// In a log whose events apply so many runs began in a cell as it has taken of its items, of which there are no fewer.
/// The run that begins after so many others of its body is for the item in that place there, and which one it is and
/// that item are all that is set behind its event. A body that has become active keeps its items as long as it is there.
pub fn runs_are_for_items_in_order()
    ensures taken { (p : ℕ) (es : List Event) (board : Board) (body : ℕ) (cell : Cell) → IsTrue (all_apply p [] es) → board_of es ≡ Some board
        → cell_at board body ≡ Some cell → (times_run body es ≡ cell.taken) × (cell.taken ≤ length cell.items) }
    ensures item { (p : ℕ) (es : List Event) (run : ElementActivating) (after : Board) → IsTrue (all_apply p [] (es ++ events.ElementActivating run ∷ []))
        → IsTrue (is_role run.role roles.Inner) → board_of (es ++ events.ElementActivating run ∷ []) ≡ Some after
        → IsRunFor after run (times_run run.scope es) }
    ensures set { (p moment : ℕ) (es : List Event) (run : ElementActivating) → IsTrue (all_apply p [] (es ++ events.ElementActivating run ∷ []))
        → IsTrue (is_role run.role roles.Inner)
        → length (events_behind p moment es (events.ElementActivating run) (es ++ events.ElementActivating run ∷ [])) ≡ 2 }
    ensures kept { (p : ℕ) (es more : List Event) (board after : Board) (body : ℕ) (cell later : Cell) → IsTrue (all_apply p [] (es ++ more))
        → board_of es ≡ Some board → board_of (es ++ more) ≡ Some after → cell_at board body ≡ Some cell
        → IsFalse (is_phase cell.phase phases.Activating) → cell_at after body ≡ Some later → later.items ≡ cell.items }
{}

/// Behind a log whose events apply an active body begins to complete exactly where so many runs began in it as it has
/// items, and none of them is there any more. As long as an item is left, it may begin a run under the next key, if one
/// is left, where its runs come at once, or none is there.
pub fn bodies_complete_behind_all_runs()
    ensures all { (p : ℕ) (es : List Event) (board : Board) (body : ℕ) (cell : Cell) → IsTrue (all_apply p [] es) → board_of es ≡ Some board
        → cell_at board body ≡ Some cell → IsTrue (is_body cell) → IsTrue (applies p es (events.ElementCompleting body))
        → (times_run body es ≡ length cell.items) × IsFalse (has_child board body) }
    ensures then { (p : ℕ) (es : List Event) (board : Board) (body : ℕ) (cell : Cell) → IsTrue (all_apply p [] es) → board_of es ≡ Some board
        → cell_at board body ≡ Some cell → IsTrue (is_body cell) → cell.phase ≡ phases.Active
        → times_run body es ≡ length cell.items → IsFalse (has_child board body) → IsTrue (applies p es (events.ElementCompleting body)) }
    ensures next { (p : ℕ) (es : List Event) (board : Board) (body : ℕ) (cell : Cell) (model : Model) → IsTrue (all_apply p [] es) → HasKeys p es 1
        → board_of es ≡ Some board → cell_at board body ≡ Some cell → IsTrue (is_body cell) → cell.phase ≡ phases.Active
        → model_under board cell.definition ≡ Some model → times_run body es < length cell.items
        → IsTrue (not (is_sequential model cell) || not (has_child board body))
        → IsTrue (option_map_or (applies p es) (event_of board (moves.Inner (record { key = next_key p es; body = body }))) false) }
{}

/// In a log whose events apply a handler undoes the activity that finished last in the scope of its compensation event, of
/// those that can be undone and that no handler has undone: activities are kept in the order in which they finish, and
/// nothing else is made of them. So many handlers have begun in a scope that is there, and so many are still to run,
/// as activities with a handler have finished in it.
pub fn handlers_run_newest_first()
    ensures newest { (p : ℕ) (es : List Event) (handler : ElementActivating) (board after : Board) → IsTrue (all_apply p [] (es ++ events.ElementActivating handler ∷ []))
        → IsTrue (is_role handler.role roles.Handler) → board_of es ≡ Some board → board_of (es ++ events.ElementActivating handler ∷ []) ≡ Some after
        → IsOfLast board after handler }
    ensures kept { (p : ℕ) (es : List Event) (completed : ElementCompleted) (board after : Board) (scope : ℕ) (cell left later : Cell)
        → IsTrue (all_apply p [] (es ++ events.ElementCompleted completed ∷ [])) → board_of es ≡ Some board → board_of (es ++ events.ElementCompleted completed ∷ []) ≡ Some after
        → cell_at board completed.key ≡ Some left → IsTrue (finishes_in scope (events.ElementCompleted completed) board)
        → cell_at board scope ≡ Some cell → cell_at after scope ≡ Some later → later.finished ≡ cell.finished ++ left.node ∷ [] }
    ensures others { (p : ℕ) (es : List Event) (event : Event) (board after : Board) (scope : ℕ) (cell later : Cell)
        → IsTrue (all_apply p [] (es ++ event ∷ [])) → board_of es ≡ Some board → board_of (es ++ event ∷ []) ≡ Some after
        → IsFalse (finishes_in scope event board) → IsFalse (undoes_in scope event board)
        → cell_at board scope ≡ Some cell → cell_at after scope ≡ Some later → later.finished ≡ cell.finished }
    ensures once { (p : ℕ) (es : List Event) (board : Board) (scope : ℕ) (cell : Cell) → IsTrue (all_apply p [] es) → board_of es ≡ Some board
        → cell_at board scope ≡ Some cell → times_finished scope es ≡ times_undone scope es + length cell.finished }
{}

/// Behind a log whose events apply an active compensation event begins to complete exactly where no handler runs in it,
/// and no activity is left in its scope that can be undone. As long as one is left and no handler runs, it may begin the
/// next one under the next key, if one is left.
pub fn compensation_ends_behind_all_handlers()
    ensures all { (p : ℕ) (es : List Event) (board : Board) (event : ℕ) (cell scope : Cell) (model : Model) → IsTrue (all_apply p [] es) → board_of es ≡ Some board
        → cell_at board event ≡ Some cell → model_under board cell.definition ≡ Some model → IsTrue (undoes model cell) → cell_at board cell.scope ≡ Some scope
        → IsTrue (applies p es (events.ElementCompleting event)) → (scope.finished ≡ []) × IsFalse (has_child board event) }
    ensures then { (p : ℕ) (es : List Event) (board : Board) (event : ℕ) (cell scope : Cell) (model : Model) → IsTrue (all_apply p [] es) → board_of es ≡ Some board
        → cell_at board event ≡ Some cell → model_under board cell.definition ≡ Some model → IsTrue (undoes model cell) → cell.phase ≡ phases.Active
        → cell_at board cell.scope ≡ Some scope → scope.finished ≡ [] → IsFalse (has_child board event) → IsTrue (applies p es (events.ElementCompleting event)) }
    ensures next { (p : ℕ) (es : List Event) (board : Board) (event : ℕ) (cell scope : Cell) (model : Model) → IsTrue (all_apply p [] es) → HasKeys p es 1 → board_of es ≡ Some board
        → cell_at board event ≡ Some cell → model_under board cell.definition ≡ Some model → IsTrue (undoes model cell) → cell.phase ≡ phases.Active
        → cell_at board cell.scope ≡ Some scope → 1 ≤ length scope.finished → IsFalse (has_child board event)
        → (node : List ℕ) × (next_handler board cell ≡ Some node)
        × IsTrue (option_map_or (applies p es) (event_of board (moves.Undo (record { key = next_key p es; event = event; node = node }))) false) }
{}

/// Who is forced behind a log whose events apply has an event, where a key is left: those in front of it apply,
/// and behind them it does, and shows the move of the mover, which agrees with what it evaluates on the board
/// before them.
pub fn forced_events_apply()
    ensures { (p moment : ℕ) (es : List Event) (board : Board) (mover : Mover) → IsTrue (all_apply p [] es) → HasKeys p es 1
        → board_of es ≡ Some board → next_mover board ≡ Some mover → IsForcedEvent p moment es board mover }
{}

/// Behind a log whose events apply each variable that is set by a move which fits has an event in front of
/// that of the move: none is passed over.
pub fn assignments_have_events()
    ensures { (p : ℕ) (es : List Event) (board : Board) (move : Move) → IsTrue (all_apply p [] es) → board_of es ≡ Some board
        → IsTrue (fits board move) → length (events_in_front board move es) ≡ count_in_front board move }
{}

/// Behind a log whose events apply: where a turn or a cancel begins to end a cell, no incident
/// stands on it any more.
pub fn ended_cells_have_no_incident()
    ensures turn { (p moment : ℕ) (es : List Event) (cell : ℕ) (rest : List Event) (after : Board)
        → IsTrue (all_apply p [] es) → HasKeys p es 1
        → turn p moment es ≡ Some (events.ElementTerminating cell ∷ rest)
        → board_of (es ++ events.ElementTerminating cell ∷ rest) ≡ Some after
        → incident_on after cell ≡ None }
    ensures cancel { (p moment : ℕ) (es : List Event) (root : ℕ) (after : Board)
        → IsTrue (all_apply p [] es) → reason_to_cancel es root ≡ None
        → board_of (es ++ cancelled p moment root es) ≡ Some after
        → incident_on after root ≡ None }
{}

/// An event that applies makes the move that it shows legally, where that agrees with what it evaluates
/// on the board of the events that were seen.
pub fn applied_moves_are_legal()
    ensures { (p moment : ℕ) (seen : List Event) (evaluated : Board) → board_of seen ≡ Some evaluated
        → (es : List Event) (event : Event) → IsTrue (applies p es event)
        → ((move : Move) → shown es event ≡ Some move → IsTrue (agrees evaluated moment move))
        → IfSome (shown es event) (IsMadeLegally moment seen es event) }
{}

/// Behind a log whose events apply each cell has a holder of each name: itself or a cell around it that has the name,
/// or its root. So where an update has no reason against it, none of its variables is passed over: each has an event,
/// and one is behind them all.
pub fn names_have_holders()
    ensures holders { (p : ℕ) (es : List Event) (board : Board) (scope : ℕ) (name : List ℕ) → IsTrue (all_apply p [] es) → board_of es ≡ Some board
        → IsTrue (is_some (cell_at board scope)) → IsHolder board name (holder_of board scope name) }
    ensures updates { (p : ℕ) (es : List Event) (update : VariableDocumentUpdate) → IsTrue (all_apply p [] es) → reason_to_update es update.scope ≡ None
        → length (updated update es) ≡ length update.variables + 1 }
{}
