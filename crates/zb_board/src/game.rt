ghost use Rattle.std.specs.Prelude.{◌≡◌, All, IfSome, false, true, option_map};
ghost use Rattle.std.specs.Option.{option_copied, option_map_or};
ghost use Rattle.std.specs.Str.{bytes_eq};
ghost use Rattle.zb_table.specs.Rows.{Ascend};
ghost use Rattle.zb_tokens.specs.Board.{cell_at, model_under};
ghost use Rattle.zb_tokens.specs.Game.{empty_board};
ghost use Rattle.zb_places.specs.Places.{held_tokens};
ghost use Rattle.zb_board.specs.Indexed.{is_ending, is_kept, is_resting};
ghost use Rattle.zb_board.specs.declared.game.GameFault.TheVariants as faults;

mod changes;
mod contents;
mod doom;
mod entering;
mod incident;
mod meeting;
mod removals;
mod repair;
mod rest;
mod scopes;
mod stand;
mod tokens;

use crate::models::Models;
use std::alloc::{AllocError, AllocFailed, Global};
use std::collections::{BTreeMap, BTreeSet};
use std::marker::Model;
use thiserror::Error;
use zb_arrivals::Arrivals;
use zb_base::Key;
use zb_graph::Graph;
use zb_groups::Groups;
use zb_table::Table;
use zb_tokens::{Cell, Incident, Token};

/// Why a move was not made.
#[derive(Clone, Copy, Debug, PartialEq, Eq, Error)]
pub enum GameFault {
    /// It doesn't fit the board, or its effect names a cell, a token, a model or an incident that isn't there.
    #[error("the move doesn't fit the board, or names what isn't there")]
    Illegal,
    #[error("there was no memory")]
    Memory,
}

impl From<AllocError> for GameFault {
    ghost from_gives = { λ _ fault. fault ≡ faults.Memory };

    fn from(_: AllocError) -> Self {
        GameFault::Memory
    }
}

impl<T: Drop> From<AllocFailed<T>> for GameFault {
    ghost from_gives = { λ _ fault. fault ≡ faults.Memory };

    fn from(_: AllocFailed<T>) -> Self {
        GameFault::Memory
    }
}

/// A game of tokens: the models, the cells, the tokens and the incidents on a board.
#[derive(Drop)]
pub struct Game {
    models: Models,
    cells: Arrivals<Cell>,
    tokens: Groups<Token>,
    incidents: Arrivals<Incident>,
    // Whether the keys of the cells and of the incidents ascend, no two incidents stand on one cell, and what is kept
    // below is right. Where it isn't set, what is kept below counts no more.
    ascends: bool,
    // The scope and the key of each cell.
    children: BTreeSet<(Key, Key)>,
    // The key of the incident on each cell on which one stands.
    stuck: BTreeMap<Key, Key>,
    // The keys of the cells that may go on by themselves, as if nobody were called off, and of those that end as they
    // are called off.
    ready: Table<Key>,
    // The keys of the cells that call off what is in them.
    calling: Table<Key>,
    // The numbers of the tokens that may enter by themselves, as if nobody were called off, the first at each spot.
    coming: Table<Key>,
}

impl Model for Game {
    ghost use Rattle.zb_tokens.specs.Board.{Board};
    ghost use Rattle.zb_tokens.specs.contracts.board.Deployed as deployed;
    ghost use Rattle.zb_tokens.specs.contracts.board.Cell as cell;
    ghost use Rattle.zb_tokens.specs.contracts.board.Token as token;
    ghost use Rattle.zb_tokens.specs.contracts.board.Incident as incident;
    ghost use Rattle.zb_places.specs.Places.{held_tokens};
    ghost use Rattle.zb_board.specs.BoardCode.{board_code};

    ghost Value = { Board };

    ghost coded = { board_code deployed.the_row.coded cell.the_row.coded token.the_row.coded incident.the_row.coded };

    ghost view = { λ g. record {
      models = g.models;
      cells = g.cells;
      tokens = held_tokens g.tokens;
      incidents = g.incidents;
    } };

    ghost use Rattle.std.specs.Prelude.{IsTrue};
    ghost use Rattle.zb_board.specs.Indexed.{IsIndexed};

    ghost invariant = { λ g. IsTrue g.ascends → IsIndexed (record {
      models = g.models;
      cells = g.cells;
      tokens = held_tokens g.tokens;
      incidents = g.incidents;
    }) g.tokens g.children g.stuck.entries g.ready g.calling g.coming };
}

impl Game {
    /// A game with nothing on the board. It takes no memory.
    pub fn empty(alloc: Global) -> Game
        ensures { result ≡ empty_board }
    {
        Game {
            models: Models::empty(alloc),
            cells: Arrivals::empty(alloc),
            tokens: Groups::empty(alloc),
            incidents: Arrivals::empty(alloc),
            ascends: true,
            children: BTreeSet::new(alloc),
            stuck: BTreeMap::new(alloc),
            ready: Table::empty(alloc),
            calling: Table::empty(alloc),
            coming: Table::empty(alloc),
        }
    }

    /// The definition of a cell. It is found as by `cell`.
    pub fn definition_of(&self, cell: Key) -> Option<Key>
        ensures { result ≡ option_map (λ c. c.definition) (cell_at self.now cell) }
    {
        match self.cell(cell) {
            Some(cell) => Some(cell.definition),
            None => None,
        }
    }

    /// Whether the process of a definition has this id. It takes the logarithm of how many models there are.
    pub fn is_process_of(&self, definition: Key, id: &str) -> bool
        ensures { result ≡ option_map_or (λ m. bytes_eq m.process id.now) (model_under self.now definition) false }
    {
        match self.model(definition) {
            Some(model) => model.model().process.as_str() == id,
            None => false,
        }
    }

    /// The cell with a key. Where the keys of the cells and of the incidents ascend and no two incidents stand on one
    /// cell, as in every game of a log, it takes the logarithm of how many cells there are; elsewhere it is searched for
    /// from the front.
    pub fn cell(&self, key: Key) -> Option<&Cell>
        ensures { option_copied result ≡ cell_at self.now key }
    {
        self.cells.get(key)
    }

    /// The model of a definition, as a graph. It takes the logarithm of how many models there are.
    pub fn model(&self, definition: Key) -> Option<&Graph>
        ensures { option_copied result ≡ model_under self.now definition }
    {
        self.models.get(definition)
    }

    /// The cells, in the order in which they came. It takes constant time.
    pub fn cells(&self) -> &Arrivals<Cell>
        ensures { result.now ≡ self.now.cells }
    {
        &self.cells
    }

    /// The tokens, in the order in which they came, each in the group of its scope. It takes constant time.
    pub fn tokens(&self) -> &Groups<Token>
        ensures { held_tokens result.now ≡ self.now.tokens }
    {
        &self.tokens
    }

    /// The keys of the cells that may go on by themselves: of all that don't rest where nobody is called off, of all that
    /// end as they are called off, and of some others. `None` where they aren't known. It takes constant time.
    pub fn ready(&self) -> Option<&Table<Key>>
        ensures ascend { IfSome result (λ keys. Ascend (λ c. c.key) 0 self.now.cells) }
        ensures awake { IfSome result (λ keys. All (λ c. is_resting self.now c ≡ false → is_kept keys.now c.key ≡ true) self.now.cells) }
        ensures ending { IfSome result (λ keys. All (λ c. is_ending self.now c ≡ true → is_kept keys.now c.key ≡ true) self.now.cells) }
    {
        if self.ascends {
            Some(&self.ready)
        } else {
            None
        }
    }
}
