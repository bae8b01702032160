ghost use Rattle.std.specs.Prelude.{◌≡◌, ◌==◌, ◌&&◌, ◌++◌, ◌∷◌, [], ℕ, List, None, Some, OnOk, max, option_map, if◌then◌else◌};
ghost use Rattle.std.specs.List.{find, list_any};
ghost use Rattle.std.specs.Option.{option_or};
ghost use Rattle.std.specs.Str.{bytes_eq};
ghost use Rattle.indexmap.specs.IndexMap.{get_by_text};
ghost use Rattle.zb_model.specs.declared.record.Event.TheVariants as events;
ghost use Rattle.zb_views.specs.Definitions.{definition_told, greatest_version, version_of};
ghost use Rattle.zb_views.specs.declared.definition.Definition.{Definition};
ghost use Rattle.zb_definitions.specs.Versions.{greater_key};

use crate::process::Process;
use crate::version::Defined;
use indexmap::IndexMap;
use std::alloc::{AllocError, Global};
use zb_model::{Event, Key, ProcessDefinition};
use zb_table::Table;

/// The definitions of a log. What it says of them it says of every list of definitions that it keeps (`KeepsDefinitions`).
#[derive(Drop)]
pub struct Definitions {
    // The version of each definition.
    defined: Table<Defined>,
    // The versions of each process, by its id.
    processes: IndexMap<String, Process>,
}

impl Definitions {
    ghost use Rattle.zb_definitions.specs.Kept.{KeepsDefinitions, KeepsMoreDefinitions, version_at, latest_in, key_in};

    /// No definitions. It takes no memory.
    pub fn empty(alloc: Global) -> Definitions
        ensures { KeepsDefinitions [] result }
    {
        Definitions {
            defined: Table::empty(alloc),
            processes: IndexMap::new(alloc),
        }
    }

    /// Takes in the definition that an event makes, behind the others. After a refusal they are only dropped. It takes
    /// constant time on average where its key and its version are the greatest, and else a step for each greater one.
    pub fn apply(&mut self, alloc: Global, event: &Event) -> Result<(), AllocError>
        ensures { OnOk result (KeepsMoreDefinitions (definition_told event.now) self.old self.new) }
    {
        match event {
            Event::ProcessCreated(process) => self.push(alloc, process),
            _ => Ok(()),
        }
    }

    // Adds the definition of a process behind the others.
    fn push(&mut self, alloc: Global, process: &ProcessDefinition) -> Result<(), AllocError>
        ensures { OnOk result (KeepsMoreDefinitions (definition_told (events.ProcessCreated process.now)) self.old self.new) }
    {
        self.keep_key(process.key, process.version)?;
        self.keep_version(
            alloc,
            process.model.process.as_str(),
            process.version,
            process.key,
        )?;
        Ok(())
    }

    /// Whether a definition has this key. It takes the logarithm of how many there are.
    pub fn contains(&self, key: Key) -> bool
        ensures { (ds : List Definition) → KeepsDefinitions ds self.now → result ≡ list_any (λ d. d.key == key) ds }
    {
        self.version_under(key).is_some()
    }

    /// The version of the first definition with a key. It takes the logarithm of how many there are.
    pub fn version_under(&self, key: Key) -> Option<u32>
        ensures kept { result ≡ version_at self.now key }
        ensures version { (ds : List Definition) → KeepsDefinitions ds self.now
            → result ≡ option_map (λ d. d.version) (find (λ d. d.key == key) ds) }
    {
        match self.defined.get(key) {
            Some(found) => Some(found.version),
            None => None,
        }
    }

    /// The greatest version of a process, or 0. It takes constant time on average.
    pub fn greatest_version(&self, process: &str) -> u32
        ensures { (ds : List Definition) → KeepsDefinitions ds self.now → result ≡ greatest_version process.now ds }
    {
        match self.processes.get(process) {
            Some(found) => found.latest,
            None => 0,
        }
    }

    /// The key of the definition that is asked for: version 0 is the latest one. It takes the logarithm of how many
    /// versions the process has, on average.
    pub fn definition_for(&self, process: &str, version: u32) -> Option<Key>
        ensures { (ds : List Definition) → KeepsDefinitions ds self.now → result ≡ option_map (λ d. d.key)
            (version_of process.now (if version == 0 then greatest_version process.now ds else version) ds) }
    {
        if version == 0 {
            return self.definition_of(process, self.greatest_version(process));
        }
        self.definition_of(process, version)
    }

    // The key of the definition that counts for a version of a process.
    fn definition_of(&self, process: &str, version: u32) -> Option<Key>
        ensures { (ds : List Definition) → KeepsDefinitions ds self.now → result ≡ option_map (λ d. d.key) (version_of process.now version ds) }
    {
        match self.processes.get(process) {
            Some(found) => found.definition(version),
            None => None,
        }
    }

    // Keeps the version of a definition, if none is kept under its key.
    fn keep_key(&mut self, key: Key, version: u32) -> Result<(), AllocError>
        ensures versions { OnOk result ((other : ℕ) → version_at self.new other
            ≡ option_or (version_at self.old other) (if key == other then Some version else None)) }
        ensures processes { self.new.processes ≡ self.old.processes }
    {
        if self.version_under(key).is_some() {
            return Ok(());
        }
        self.defined.add(Defined { key, version })?;
        Ok(())
    }

    // Keeps that a definition has a version of a process.
    fn keep_version(
        &mut self,
        alloc: Global,
        process: &str,
        version: u32,
        definition: Key,
    ) -> Result<(), AllocError>
        ensures defined { self.new.defined ≡ self.old.defined }
        ensures latest { OnOk result ((other : List ℕ) → latest_in self.new other
            ≡ (if bytes_eq process.now other then max version (latest_in self.old other) else latest_in self.old other)) }
        ensures keys { OnOk result ((other : List ℕ) (v : ℕ) → key_in self.new other v
            ≡ (if bytes_eq process.now other && (version == v) then Some (greater_key definition (key_in self.old other v)) else key_in self.old other v)) }
    {
        match self.processes.get_mut(process) {
            Some(found) => {
                found.put(version, definition)?;
                Ok(())
            }
            None => self.begin(alloc, process, version, definition),
        }
    }

    // The same for a process that has no version so far.
    fn begin(
        &mut self,
        alloc: Global,
        process: &str,
        version: u32,
        definition: Key,
    ) -> Result<(), AllocError>
        requires { get_by_text self.old.processes process.now ≡ None }
        ensures defined { self.new.defined ≡ self.old.defined }
        ensures latest { OnOk result ((other : List ℕ) → latest_in self.new other
            ≡ (if bytes_eq process.now other then max version (latest_in self.old other) else latest_in self.old other)) }
        ensures keys { OnOk result ((other : List ℕ) (v : ℕ) → key_in self.new other v
            ≡ (if bytes_eq process.now other && (version == v) then Some (greater_key definition (key_in self.old other v)) else key_in self.old other v)) }
    {
        let mut begun = Process::empty(alloc);
        begun.put(version, definition)?;
        self.processes
            .insert(String::from_str(alloc, process)?, begun)?;
        Ok(())
    }
}
