// The models on a board, found by their keys.
ghost use Rattle.std.specs.Prelude.{◌≡◌, ℕ, ◌<◌, ◌==◌, ◌++◌, ◌∷◌, [], Some, None, OnOk, OnErr, length, option_map, vec_len, vec_capacity, if◌then◌else◌};
ghost use Rattle.std.specs.List.{find};
ghost use Rattle.std.specs.Option.{option_copied, option_or};
ghost use Rattle.zb_board.specs.Kept.{number_under};

use std::alloc::{AllocError, Global};
use std::collections::BTreeMap;
use std::marker::Model;
use zb_base::Key;
use zb_graph::{Graph, compile};
use zb_tokens::Deployed;

/// A model under its key, as a graph. Contracts see the model under its key.
#[derive(Drop)]
pub struct Compiled {
    key: Key,
    version: u32,
    graph: Graph,
}

impl Model for Compiled {
    ghost use Rattle.zb_tokens.specs.declared.board.Deployed.{Deployed};
    ghost use Rattle.zb_tokens.specs.contracts.board.Deployed as deployed;

    ghost Value = { Deployed };

    ghost coded = { deployed.the_row.coded };

    ghost view = { λ c. record { key = c.key; version = c.version; model = c.graph } };
}

/// Models in the order in which they came, whatever their keys are. Contracts see the list of them.
#[derive(Drop)]
pub struct Models {
    list: Vec<Compiled>,
    // Where the first model with each key stands.
    places: BTreeMap<Key, usize>,
}

impl Model for Models {
    ghost use Rattle.std.specs.Coded.{coded_list};
    ghost use Rattle.std.specs.Prelude.{List};
    ghost use Rattle.zb_tokens.specs.declared.board.Deployed.{Deployed};
    ghost use Rattle.zb_tokens.specs.contracts.board.Deployed as deployed;
    ghost use Rattle.zb_board.specs.Kept.{ArePlaced};

    ghost Value = { List Deployed };

    ghost coded = { coded_list deployed.the_row.coded };

    ghost view = { λ m. m.list.items };

    ghost invariant = { λ m. ArePlaced m.list.items m.places.entries };
}

impl Models {
    /// No models. It takes no memory.
    pub fn empty(alloc: Global) -> Models
        ensures { result ≡ [] }
    {
        Models {
            list: Vec::new(alloc),
            places: BTreeMap::new(alloc),
        }
    }

    /// The first model with a key, as a graph. It takes the logarithm of how many keys models have.
    pub fn get(&self, key: Key) -> Option<&Graph>
        ensures { option_copied result ≡ option_map (λ d. d.model) (find (λ d. d.key == key) self.now) }
    {
        match self.at(key) {
            Some(compiled) => Some(compiled.graph()),
            None => None,
        }
    }

    // The first model with a key.
    fn at(&self, key: Key) -> Option<&Compiled>
        ensures { option_copied result ≡ find (λ d. d.key == key) self.now }
    {
        match self.places.get(&key) {
            Some(place) => self.list.get(*place),
            None => None,
        }
    }

    /// Adds a model behind the others. After a refusal, as where it has too many nodes or flows to be numbered, they
    /// are as they were. It costs what `get` and `zb_graph::compile` do.
    pub fn push(&mut self, alloc: Global, deployed: Deployed) -> Result<(), AllocError>
        ensures added { OnOk result (self.new ≡ self.old ++ deployed ∷ []) }
        ensures kept { OnErr result (self.new ≡ self.old) }
    {
        let Deployed {
            key,
            version,
            model,
        } = deployed;
        match compile(alloc, model.into_model()) {
            Ok(graph) => self.add(key, version, graph),
            Err(AllocError) => Err(AllocError),
        }
    }

    // Adds a graph under a key behind the others.
    fn add(&mut self, key: Key, version: u32, graph: Graph) -> Result<(), AllocError>
        ensures added { OnOk result (self.new ≡ self.old ++ record { key = key; version = version; model = graph } ∷ []) }
        ensures kept { OnErr result (self.new ≡ self.old) }
    {
        match make_room(&mut self.list, &mut self.places, key) {
            Ok(()) => {
                self.list.push_reserved(Compiled {
                    key,
                    version,
                    graph,
                });
                Ok(())
            }
            Err(AllocError) => {
                graph.discard();
                Err(AllocError)
            }
        }
    }
}

impl Compiled {
    // The graph.
    fn graph(&self) -> &Graph
        ensures { result.now ≡ self.now.model }
    {
        &self.graph
    }
}

// Makes room for one more model behind the others, whose key is this one.
fn make_room(
    list: &mut Vec<Compiled>,
    places: &mut BTreeMap<Key, usize>,
    key: Key,
) -> Result<(), AllocError>
    ensures first { OnOk result ((other : ℕ) → number_under places.new.entries other
        ≡ option_or (number_under places.old.entries other) (if key == other then Some (length list.old.items) else None)) }
    ensures kept { OnErr result (places.new.entries ≡ places.old.entries) }
    ensures items { list.new.items ≡ list.old.items }
    ensures room { OnOk result (vec_len list.new < vec_capacity list.new) }
{
    list.reserve(1)?;
    keep_first(places, key, list.len())
}

// Keeps a number under a key, if none is kept there so far. It takes the logarithm of how many are kept.
fn keep_first(numbers: &mut BTreeMap<Key, usize>, key: Key, number: usize) -> Result<(), AllocError>
    ensures first { OnOk result ((other : ℕ) → number_under numbers.new.entries other
        ≡ option_or (number_under numbers.old.entries other) (if key == other then Some number else None)) }
    ensures kept { OnErr result (numbers.new.entries ≡ numbers.old.entries) }
{
    if numbers.contains_key(&key) {
        return Ok(());
    }
    numbers.insert(key, number)?;
    Ok(())
}
