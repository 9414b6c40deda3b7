// The notes of imports, by user and id.
ghost use Rattle.std.specs.Prelude.{◌≡◌, Some, IfOk, OnOk, OnErr};
ghost use Rattle.graph_model.specs.Lists.{Pairwise};
ghost use Rattle.graph_model.specs.Kept.{NoteBefore, notes_after};

use graph_model::{ChangeReply, ImportNote, List, Mem, Tag, TryClone};
use std::alloc::Global;
use std::collections::BTreeMap;
use std::marker::Model;

/// What a note stands under: a user, and an import id of that user.
#[derive(Debug, Drop, PartialEq, Eq, PartialOrd, Ord)]
pub(crate) struct NoteKey {
    user: Tag,
    id: Tag,
}

/// Notes of imports, each found by its user and id. Contracts see them in order.
#[derive(Drop)]
pub(crate) struct Notes {
    answers: BTreeMap<NoteKey, ChangeReply>,
}

impl Model for Notes {
    ghost use Rattle.std.specs.Prelude.{List, map};
    ghost use Rattle.graph_model.specs.declared.kept.ImportNote.{ImportNote};
    ghost use Rattle.graph_model.specs.Lists.{Pairwise};
    ghost use Rattle.graph_model.specs.Kept.{NoteBefore};
    ghost use Rattle.store_keeper.specs.Held.{note_of};

    ghost Value = { List ImportNote };

    ghost view = { λ notes. map note_of notes.answers.entries };

    ghost invariant = { λ notes. Pairwise NoteBefore (map note_of notes.answers.entries) };
}

impl Notes {
    /// Copies of notes that are in order.
    ///
    /// # Errors
    /// `Mem` where there is no memory for them.
    pub(crate) fn of(alloc: Global, notes: &[ImportNote]) -> Result<Notes, Mem>
        requires { Pairwise NoteBefore notes.now }
        ensures { IfOk result (λ made. made ≡ notes.now) }
    {
        let mut made = Notes {
            answers: BTreeMap::new(alloc),
        };
        for note in notes {
            made.add(note)?;
        }
        Ok(made)
    }

    /// Puts a copy of a note at its place.
    ///
    /// # Errors
    /// `Mem` where there is no memory for it. Then the notes are as they were.
    pub(crate) fn add(&mut self, note: &ImportNote) -> Result<(), Mem>
        ensures ok { OnOk result (self.new ≡ notes_after (Some note.now) self.old) }
        ensures err { OnErr result (self.new ≡ self.old) }
    {
        let key = NoteKey {
            user: note.user.try_clone()?,
            id: note.id.try_clone()?,
        };
        self.answers.insert(key, note.answer)?;
        Ok(())
    }

    /// Copies of all notes, in order.
    ///
    /// # Errors
    /// `Mem` where there is no memory for them.
    pub(crate) fn copies(&self, alloc: Global) -> Result<List<ImportNote>, Mem>
        ensures { IfOk result (λ notes. notes ≡ self.now) }
    {
        let mut notes = List::new(alloc);
        for (key, answer) in &self.answers {
            notes.push(ImportNote {
                user: key.user.try_clone()?,
                id: key.id.try_clone()?,
                answer: *answer,
            })?;
        }
        Ok(notes)
    }
}
