// Where in a list the items of a name stand.
ghost use Rattle.std.specs.Prelude.{◌≡◌, ◌<◌, ◌^◌, ◌++◌, [], ◌∷◌, ℕ, List, None, IfOk, OnOk, length, if◌then◌else◌};
ghost use Rattle.std.specs.Str.{bytes_eq};
ghost use Rattle.zb_graph.specs.Places.{places};
ghost use Rattle.zb_graph.specs.PlacesAt.{places_at};
ghost use Rattle.indexmap.specs.IndexMap.{get_by_text};

use crate::label::Label;
use indexmap::IndexMap;
use std::alloc::{AllocError, Global};

/// Where the items of each name stand.
#[derive(Drop)]
pub struct Places {
    lists: IndexMap<String, Vec<u32>>,
}

/// Where the items of each name stand. It takes a step for each item, on average.
pub fn places_by<T, L: Label<T>>(alloc: Global, items: &[T]) -> Result<Places, AllocError>
    requires { length items.now < 2 ^ 32 }
    ensures { IfOk result (λ made. (name : List ℕ) → places_at made name ≡ places (λ x. L.has_name x name) items.now) }
{
    let mut made = Places {
        lists: IndexMap::new(alloc),
    };
    for place in 0..items.len() {
        made.add_item::<T, L>(alloc, place as u32, &items[place])?;
    }
    Ok(made)
}

impl Places {
    /// Where the items of this name stand, in order. It takes constant time on average.
    pub fn at(&self, name: &str) -> &[u32]
        ensures { result.now ≡ places_at self.now name.now }
    {
        match self.lists.get(name) {
            Some(list) => list.as_slice(),
            None => &[],
        }
    }

    // Adds the place of an item under its name, if it has one.
    fn add_item<T, L: Label<T>>(
        &mut self,
        alloc: Global,
        place: u32,
        item: &T,
    ) -> Result<(), AllocError>
        ensures { OnOk result ((name : List ℕ)
            → places_at self.new name ≡ places_at self.old name ++ (if L.has_name item.now name then place ∷ [] else [])) }
    {
        match L::name(item) {
            Some(name) => self.add(alloc, name, place),
            None => Ok(()),
        }
    }

    // Adds a place under a name.
    fn add(&mut self, alloc: Global, name: &str, place: u32) -> Result<(), AllocError>
        ensures { OnOk result ((other : List ℕ)
            → places_at self.new other ≡ places_at self.old other ++ (if bytes_eq name.now other then place ∷ [] else [])) }
    {
        match self.lists.get_mut(name) {
            Some(list) => {
                list.push(place)?;
                Ok(())
            }
            None => self.begin(alloc, name, place),
        }
    }

    // Adds a place under a name that has none so far.
    fn begin(&mut self, alloc: Global, name: &str, place: u32) -> Result<(), AllocError>
        requires { get_by_text self.old.lists name.now ≡ None }
        ensures { OnOk result ((other : List ℕ)
            → places_at self.new other ≡ places_at self.old other ++ (if bytes_eq name.now other then place ∷ [] else [])) }
    {
        let mut list = Vec::with_capacity(alloc, 1)?;
        list.push(place)?;
        self.lists.insert(String::from_str(alloc, name)?, list)?;
        Ok(())
    }
}
