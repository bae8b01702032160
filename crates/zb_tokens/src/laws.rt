ghost use Rattle.std.specs.Prelude.{◌≡◌, ℕ, ◌==◌, IsTrue, IsFalse, List, Option, Some, None, Ok, Err, ◌⊎◌, option_map, [], ◌∷◌, ◌++◌, All, Contains, not, ◌||◌};
ghost use Rattle.std.specs.List.{find};
ghost use Rattle.std.specs.Result.{is_ok};
ghost use Rattle.zb_base.specs.declared.value.Value.{Value};
ghost use Rattle.zb_base.specs.declared.vars.Variable.{Variable};
ghost use Rattle.zb_base.specs.Vars.{is_ascending, value_named};
ghost use Rattle.zb_process.specs.declared.model.Mapping.{Mapping};
ghost use Rattle.zb_process.specs.Expr.{ValueFault};
ghost use Rattle.zb_process.specs.declared.model.Model.{Model};
ghost use Rattle.zb_process.specs.declared.model.Node.{Node};
ghost use Rattle.zb_faults.specs.Elements.{is_exclusive_gateway};
ghost use Rattle.zb_tokens.specs.declared.board.Cell.{Cell};
ghost use Rattle.zb_tokens.specs.declared.board.Token.{Token};
ghost use Rattle.zb_tokens.specs.declared.board.Incident.{Incident};
ghost use Rattle.zb_tokens.specs.declared.board.Move.{Move};
ghost use Rattle.zb_tokens.specs.declared.board.Phase.TheVariants as phases;
ghost use Rattle.zb_tokens.specs.declared.board.Enter.{Enter};
ghost use Rattle.zb_tokens.specs.declared.board.Leave.{Leave};
ghost use Rattle.zb_tokens.specs.declared.board.Take.{Take};
ghost use Rattle.zb_tokens.specs.Board.{Board, cell_at, model_under, is_at, owes_none, in_phase};
ghost use Rattle.zb_tokens.specs.declared.board.Triggered.{Triggered};
ghost use Rattle.zb_tokens.specs.Errors.{catcher, first_for, is_for, IsCaughtAt};
ghost use Rattle.zb_tokens.specs.Game.{played};
ghost use Rattle.zb_tokens.specs.Effects.{is_stand, is_of_incident, other_cells, other_tokens, scope_ended_by, is_emptied, IsEntered};
ghost use Rattle.zb_tokens.specs.MoveEnter.{play_enter};
ghost use Rattle.zb_tokens.specs.Names.{value_seen, visible};
ghost use Rattle.zb_tokens.specs.Incidents.{Hindrance};
ghost use Rattle.zb_tokens.specs.Choice.{Gateway};
ghost use Rattle.zb_tokens.specs.Mappings.{mapped, outputs_of};
ghost use Rattle.zb_tokens.specs.Mapped.{AreMapped, IsFirstFault, IsKeptBy};
ghost use Rattle.zb_tokens.specs.Chosen.{IsAtGateway, IsChosen, IsUndecided};
ghost use Rattle.zb_tokens.specs.MoveLeave.{flows_of, exit_of, completion_of, play_leave, with_end};
ghost use Rattle.zb_tokens.specs.MoveTake.{play_take, spot_behind};
ghost use Rattle.zb_tokens.specs.MoveHalt.{play_halt};
ghost use Rattle.zb_tokens.specs.Doom.{is_doomed};
ghost use Rattle.zb_tokens.specs.Forced.{is_forced, can_enter, move_at, IsQuiet, IsEnd};

/// A cell that is called off does nothing but end: it begins to terminate, or is gone, or waits for what runs in it.
pub fn doomed_cells_end()
    ensures { (board : Board) (moment key : ℕ) (cell : Cell) → IsTrue (is_doomed board cell)
        → IsEnd cell (move_at board moment key cell) }
{}

/// A cell on which an incident stands is forced to nothing, unless it is doomed.
pub fn stuck_cells_wait()
    ensures { (board : Board) (incident : Incident) (cell : Cell)
        → Contains board.incidents incident → incident.cell ≡ cell.key
        → IsFalse (is_doomed board cell) → IsFalse (is_forced board cell) }
{}

/// At an exclusive gateway a cell owes one flow out of it: the first whose condition is true or that
/// has none, where each in front of it but the default is false, or the default where each other one
/// is false. It is hindered where the first flow that isn't false has a fault, or where there is
/// neither such a flow nor a default. At any other node it owes all flows that may go out of it.
pub fn gateways_choose_one_flow()
    ensures chosen { (board : Board) (cell : Cell) (gateway : Gateway) (owed : List (List ℕ))
        → IsAtGateway board cell gateway → exit_of board cell ≡ Ok owed
        → IsChosen board cell gateway owed }
    ensures undecided { (board : Board) (cell : Cell) (gateway : Gateway) (hindrance : Hindrance)
        → IsAtGateway board cell gateway → exit_of board cell ≡ Err hindrance
        → IsUndecided (value_seen board cell.key) gateway hindrance }
    ensures elsewhere { (board : Board) (cell : Cell) (model : Model)
        → model_under board cell.definition ≡ Some model
        → IsTrue (owes_none cell || not (is_at model cell.node is_exclusive_gateway))
        → exit_of board cell ≡ Ok (flows_of board cell) }
{}

/// Mappings give each of their targets the value of its source, in order, where names have the same values
/// for all of them. Where they give none, the first source that has no value is why.
pub fn mappings_are_evaluated_first()
    ensures values { (names : List ℕ → Option Value) (mappings : List Mapping) (variables : List Variable)
        → mapped names mappings ≡ Ok variables → AreMapped names mappings variables }
    ensures fault { (names : List ℕ → Option Value) (mappings : List Mapping) (fault : ValueFault)
        → mapped names mappings ≡ Err fault → IsFirstFault names mappings fault }
{}

/// A cell that completes has outputs with values, and is left by its flows; where it can't complete, its
/// outputs have a fault, or they have none and it can't be left.
pub fn outputs_come_before_exits()
    ensures completed { (board : Board) (cell : Cell) (owed : List (List ℕ)) → completion_of board cell ≡ Ok owed
        → IsTrue (is_ok (outputs_of board cell)) × (exit_of board cell ≡ Ok owed) }
    ensures kept { (board : Board) (cell : Cell) (hindrance : Hindrance)
        → completion_of board cell ≡ Err hindrance → IsKeptBy board cell hindrance }
{}

/// All that a cell sees are variables whose names ascend, and each name has among them the value that the cell
/// sees under it: its own one, or that of the nearest cell around it that has the name.
pub fn visible_variables_are_those_seen()
    ensures values { (board : Board) (cell : ℕ) (name : List ℕ)
        → value_named name (visible board cell) ≡ value_seen board cell name }
    ensures ascending { (board : Board) (cell : ℕ) → IsTrue (is_ascending (visible board cell)) }
{}

/// Where nobody is forced, no cell is, and no token can enter.
pub fn quiet_games_rest()
    ensures cells { (board : Board) → IsQuiet board
        → All (λ (cell : Cell). IsFalse (is_forced board cell)) board.cells }
    ensures tokens { (board : Board) → IsQuiet board
        → All (λ (token : Token). IsFalse (can_enter board token)) board.tokens }
{}

/// A flow that is taken makes exactly one token, on that flow, in the scope of the cell that is left; before the
/// target of the flow where that cell is at an event gateway.
pub fn taken_flows_make_one_token()
    ensures { (board after : Board) (take : Take) → play_take board take ≡ Some after
        → (cell : Cell) × (cell_at board take.key ≡ Some cell)
        × (after.tokens ≡ board.tokens ++ record { scope = cell.scope; spot = spot_behind board cell take.flow } ∷ []) }
{}

/// An entry makes exactly one cell, in the scope, and takes exactly the first token at each spot where
/// one has to stand, if no two of these spots are the same: one token, but where flows join one on each
/// flow into the gateway.
pub fn entries_take_first_tokens()
    ensures { (board after : Board) (entry : Enter) → play_enter board entry ≡ Some after
        → IsEntered board entry after }
{}

/// A move changes no cell but those that it names, and no token but those in a scope that it names.
pub fn moves_leave_others_alone()
    ensures cells { (board after : Board) (move : Move) → played board move ≡ Some after
        → other_cells board move after ≡ other_cells board move board }
    ensures tokens { (board after : Board) (move : Move) → played board move ≡ Some after
        → other_tokens board move after ≡ other_tokens board move board }
{}

/// Only the move by which a model stands there changes the models.
pub fn models_stay()
    ensures { (board after : Board) (move : Move) → IsFalse (is_stand move)
        → played board move ≡ Some after → after.models ≡ board.models }
{}

/// Only the moves by which an incident stands there or is gone change the incidents, and they
/// change nothing else.
pub fn incidents_stay()
    ensures others { (board after : Board) (move : Move) → IsFalse (is_of_incident move)
        → played board move ≡ Some after → after.incidents ≡ board.incidents }
    ensures alone { (board after : Board) (move : Move) → IsTrue (is_of_incident move)
        → played board move ≡ Some after → after ≡ record board { incidents = after.incidents } }
{}

/// A cell that is halted is the same but terminating, and no token is left in it, and no cell that
/// leaves in it.
pub fn halted_cells_are_emptied()
    ensures cell { (board after : Board) (key : ℕ) → play_halt board key ≡ Some after
        → (cell : Cell) × (cell_at board key ≡ Some cell)
        × (cell_at after key ≡ Some (in_phase phases.Terminating [] cell)) }
    ensures inside { (board after : Board) (key : ℕ) → play_halt board key ≡ Some after
        → IsTrue (is_emptied key after) }
{}

/// A scope that a terminate end event ends is the same but ending, where no cell is in itself, and no
/// token is left in it, and no cell that leaves in it.
pub fn ended_scopes_are_emptied()
    ensures scope { (board after : Board) (leave : Leave) (scope : ℕ) → scope_ended_by board leave.key ≡ Some scope
        → play_leave board leave ≡ Some after → All (λ (cell : Cell). IsFalse (cell.scope == cell.key)) board.cells
        → cell_at after scope ≡ option_map with_end (cell_at board scope) }
    ensures inside { (board after : Board) (leave : Leave) (scope : ℕ) → scope_ended_by board leave.key ≡ Some scope
        → play_leave board leave ≡ Some after → IsTrue (is_emptied scope after) }
{}

/// An error is caught at a boundary event of an activity that is there; of those at one activity it is one for its code, or
/// one for any where there is none for that code.
pub fn errors_are_caught_by_their_code()
    ensures there { (board : Board) (code : List ℕ) (cell : ℕ) (event : Triggered) → catcher board code cell ≡ Some event → IsCaughtAt board code event }
    ensures code { (code : List ℕ) (events : List Node) (event : Node) → first_for code events ≡ Some event
        → IsTrue (is_for code event) ⊎ ((find (is_for code) events ≡ None) × IsTrue (is_for [] event)) }
{}
