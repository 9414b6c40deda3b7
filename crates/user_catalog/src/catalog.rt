// The named graphs of a user.
ghost use Rattle.std.specs.Prelude.{◌≡◌, ◌+◌, ◌<◌, length, IfOk, IfErr, OnOk, OnErr, None, Some, option_copied};
ghost use Rattle.graph_model.specs.Projection.{under};
ghost use Rattle.graph_model.specs.Refusals.{UnlessMem};
ghost use Rattle.user_catalog.specs.Catalog.{most_graphs, greatest_version, no_graphs, refused_insert, after_insert, after_remove, refused_column, after_column, IsCatalog};

use crate::entry::{self, Entry};
use csr_columns::Projection;
use graph_model::{Column, Counter, Mem, Name, Refusal, Shared, Tag};
use std::alloc::Global;
use std::marker::Model;

// The most graphs of a user.
const MOST_GRAPHS: usize = 64;

/// Named graphs by ascending name, at most 64, each under a version of its own. Contracts see them and the last version.
#[derive(Drop)]
pub struct Catalog {
    entries: Vec<(Tag, Entry)>,
    last: u32,
}

impl Model for Catalog {
    ghost use Rattle.user_catalog.specs.Catalog.{NamedGraphs, named_graphs, IsCatalog};

    ghost Value = { NamedGraphs };

    ghost view = { λ c. named_graphs c.entries.items c.last };

    ghost invariant = { λ c. IsCatalog (named_graphs c.entries.items c.last) };
}

impl Catalog {
    /// No graph is kept yet, and no version was given. It takes no memory.
    pub fn new(alloc: Global) -> Catalog
        ensures { result ≡ no_graphs }
    {
        Catalog {
            entries: Vec::new(alloc),
            last: 0,
        }
    }

    /// Keeps a graph under a name, and answers its version, the next one.
    ///
    /// # Errors
    /// In this order, exactly where it is so: `GraphExists` where the name is there, `TooManyGraphs` where there are 64
    /// graphs, and `CounterSpent` where the greatest version was given. Or `Mem`. Then the catalog is as it was.
    pub fn insert(&mut self, alloc: Global, name: Tag, graph: Projection) -> Result<u32, Refusal>
        ensures version { IfOk result (λ version. version ≡ self.old.last + 1) }
        ensures ok { OnOk result (self.new ≡ after_insert self.old name graph) }
        ensures allowed { OnOk result (refused_insert self.old name ≡ None) }
        ensures refused { IfErr result (λ why. UnlessMem why (refused_insert self.old name ≡ Some why)) }
        ensures err { OnErr result (self.new ≡ self.old) }
    {
        if self.get(&name).is_some() {
            return Err(Refusal::GraphExists { graph_name: name });
        }
        if self.entries.len() >= MOST_GRAPHS {
            return Err(Refusal::TooManyGraphs {
                limit: MOST_GRAPHS as u64,
            });
        }
        if self.last == u32::MAX {
            return Err(Refusal::CounterSpent {
                counter: Counter::Versions,
                last: u64::from(u32::MAX),
            });
        }
        match self.add(alloc, name, graph) {
            Ok(version) => Ok(version),
            Err(_mem) => Err(Refusal::Mem),
        }
    }

    /// The entry under a name, `None` exactly where there is none. It takes no memory.
    pub fn get(&self, name: &Tag) -> Option<&Entry>
        ensures { option_copied result ≡ under name.now self.now.entries }
    {
        entry::entry_under(self.entries.as_slice(), name)
    }

    /// Drops the graph under a name, and answers its entry, `None` exactly where there is none. Its version isn't given
    /// again. It takes no memory.
    pub fn remove(&mut self, name: &Tag) -> Option<Entry>
        ensures value { result ≡ under name.now self.old.entries }
        ensures ok { self.new ≡ after_remove self.old name.now }
    {
        match entry::place_of(self.entries.as_slice(), name) {
            Some(place) => Some(self.entries.remove(place).1),
            None => None,
        }
    }

    /// All entries, ascending by name.
    pub fn list(&self) -> &[(Tag, Entry)]
        ensures entries { result.now ≡ self.now.entries }
        ensures kept { IsCatalog self.now }
    {
        self.entries.as_slice()
    }

    /// Adds a column to the graph under a name, which keeps its version. What the graph had is shared with the new one.
    ///
    /// # Errors
    /// In this order, exactly where it is so: `GraphGone` where the name has another version now or no graph, and
    /// `PropertyExists` where its graph has the key. Or `Mem`. Then the catalog is as it was.
    pub fn add_column(
        &mut self,
        alloc: Global,
        name: &Tag,
        version: u32,
        key: Name,
        column: &Column,
    ) -> Result<(), Refusal>
        ensures ok { OnOk result (self.new ≡ after_column self.old name.now key column.now) }
        ensures allowed { OnOk result (refused_column self.old name.now version key ≡ None) }
        ensures refused { IfErr result (λ why. UnlessMem why (refused_column self.old name.now version key ≡ Some why)) }
        ensures err { OnErr result (self.new ≡ self.old) }
    {
        entry::widen(
            alloc,
            self.entries.as_mut_slice(),
            name,
            version,
            key,
            column,
        )
    }

    // Keeps a graph under a name that is free, where there is room for it and a version.
    fn add(&mut self, alloc: Global, name: Tag, graph: Projection) -> Result<u32, Mem>
        requires free { under name self.old.entries ≡ None }
        requires room { length self.old.entries < most_graphs }
        requires next { self.old.last < greatest_version }
        ensures version { IfOk result (λ version. version ≡ self.old.last + 1) }
        ensures ok { OnOk result (self.new ≡ after_insert self.old name graph) }
        ensures err { OnErr result (self.new ≡ self.old) }
    {
        let version = self.last + 1;
        let graph = Shared::new(alloc, graph)?;
        let behind = entry::place_behind(self.entries.as_slice(), &name);
        let place = behind.unwrap_or(self.entries.len());
        self.entries
            .insert(place, (name, Entry { version, graph }))?;
        self.last = version;
        Ok(version)
    }
}
