// What is held in memory for a keeper.
ghost use Rattle.std.specs.Prelude.{◌≡◌, Some, None, option_copied, IfOk, OnOk, OnErr};
ghost use Rattle.graph_model.specs.Change.{IsWellFormedChange, refused_change};
ghost use Rattle.graph_model.specs.Kept.{IsValidKept, NoteFits, kept_after};
ghost use Rattle.store_keeper.specs.Held.{kept_now};

use crate::notes::Notes;
use crate::reading::graph_of;
use graph_model::laws::notes_are_kept;
use graph_model::{Change, ImportNote, Kept, Mem, TryClone};
use graph_store::Store;
use std::alloc::Global;
use std::marker::Model;

/// A store, and the notes of imports.
#[derive(Drop)]
pub(crate) struct Opened {
    store: Store,
    notes: Notes,
}

impl Model for Opened {
    ghost use Rattle.graph_model.specs.declared.kept.Kept.{Kept};
    ghost use Rattle.graph_model.specs.Kept.{IsValidKept};

    ghost Value = { Kept };

    ghost view = { λ opened. record { graph = opened.store; imports = opened.notes } };

    ghost invariant = { λ opened. IsValidKept (record { graph = opened.store; imports = opened.notes }) };
}

impl Opened {
    // Copies of what is kept, opened.
    fn of(alloc: Global, kept: &Kept) -> Result<Opened, Mem>
        requires { IsValidKept kept.now }
        ensures { IfOk result (λ opened. opened ≡ kept.now) }
    {
        Ok(Opened {
            store: Store::of(alloc, kept.graph.try_clone()?)?,
            notes: Notes::of(alloc, kept.imports.as_slice())?,
        })
    }

    // A copy of what is kept.
    fn copy(&self, alloc: Global) -> Result<Kept, Mem>
        ensures { IfOk result (λ kept. kept ≡ self.now) }
    {
        Ok(Kept {
            graph: graph_of(alloc, &self.store)?,
            imports: self.notes.copies(alloc)?,
        })
    }

    // Makes a change, and adds its note where it came with one. All memory is taken before anything is changed.
    fn change(
        &mut self,
        alloc: Global,
        change: &Change,
        note: Option<&ImportNote>,
    ) -> Result<(), Mem>
        requires formed { IsWellFormedChange change.now }
        requires fits { refused_change self.old.graph change.now ≡ None }
        requires room { NoteFits (option_copied note) self.old.imports }
        ensures valid { IsValidKept self.new }
        ensures ok { OnOk result (self.new ≡ kept_after self.old change.now (option_copied note.entry)) }
        ensures err { OnErr result (self.new ≡ self.old) }
    {
        notes_are_kept();
        let Ok(made) = self.store.prepare(alloc, change) else {
            return Err(Mem);
        };
        if let Some(note) = note {
            self.notes.add(note)?;
        }
        self.store.apply(made);
        Ok(())
    }
}

/// What is held for a keeper in memory: what was given, and from the first change on a store and the notes of imports.
#[derive(Drop)]
pub(crate) struct Held {
    given: Kept,
    opened: Option<Opened>,
}

impl Model for Held {
    ghost use Rattle.graph_model.specs.declared.kept.Kept.{Kept};
    ghost use Rattle.graph_model.specs.Kept.{IsValidKept};
    ghost use Rattle.store_keeper.specs.Held.{kept_now};

    ghost Value = { Kept };

    ghost view = { λ held. kept_now held.opened held.given };

    ghost invariant = { λ held. IsValidKept (kept_now held.opened held.given) };
}

impl Held {
    /// What is given. It takes no memory.
    pub(crate) fn new(given: Kept) -> Held
        requires { IsValidKept given }
        ensures { result ≡ given }
    {
        Held {
            given,
            opened: None,
        }
    }

    /// A copy of what is kept.
    ///
    /// # Errors
    /// `Mem` where there is no memory for it.
    pub(crate) fn copy(&self, alloc: Global) -> Result<Kept, Mem>
        ensures valid { IfOk result IsValidKept }
        ensures ok { IfOk result (λ kept. kept ≡ self.now) }
    {
        match &self.opened {
            Some(opened) => opened.copy(alloc),
            None => self.given.try_clone(),
        }
    }

    /// Makes a change, and adds its note where it came with one.
    ///
    /// # Errors
    /// `Mem` where there is no memory for them. Then all is as it was.
    pub(crate) fn change(
        &mut self,
        alloc: Global,
        change: &Change,
        note: Option<&ImportNote>,
    ) -> Result<(), Mem>
        requires formed { IsWellFormedChange change.now }
        requires fits { refused_change self.old.graph change.now ≡ None }
        requires room { NoteFits (option_copied note) self.old.imports }
        ensures ok { OnOk result (self.new ≡ kept_after self.old change.now (option_copied note.entry)) }
        ensures err { OnErr result (self.new ≡ self.old) }
    {
        change_held(&mut self.opened, alloc, &self.given, change, note)
    }
}

// Opens what was given, where it isn't open yet.
fn open(opened: &mut Option<Opened>, alloc: Global, given: &Kept) -> Result<(), Mem>
    requires { IsValidKept (kept_now opened.old given.now) }
    ensures ok { OnOk result (opened.new ≡ Some (kept_now opened.old given.now)) }
    ensures err { OnErr result (opened.new ≡ opened.old) }
{
    if opened.is_none() {
        *opened = Some(Opened::of(alloc, given)?);
    }
    Ok(())
}

// Makes a change on what is held.
fn change_held(
    opened: &mut Option<Opened>,
    alloc: Global,
    given: &Kept,
    change: &Change,
    note: Option<&ImportNote>,
) -> Result<(), Mem>
    requires valid { IsValidKept (kept_now opened.old given.now) }
    requires formed { IsWellFormedChange change.now }
    requires fits { refused_change (kept_now opened.old given.now).graph change.now ≡ None }
    requires room { NoteFits (option_copied note) (kept_now opened.old given.now).imports }
    ensures valid { IsValidKept (kept_now opened.new given.now) }
    ensures ok { OnOk result (kept_now opened.new given.now ≡ kept_after (kept_now opened.old given.now) change.now (option_copied note.entry)) }
    ensures err { OnErr result (kept_now opened.new given.now ≡ kept_now opened.old given.now) }
{
    open(opened, alloc, given)?;
    match opened {
        Some(store) => store.change(alloc, change, note),
        None => Err(Mem),
    }
}
