// The lists of all users.
ghost use Rattle.std.specs.Prelude.{◌≡◌, ◌≢◌, ℕ, true, List, [], length, IsSome, IfNone, Some, IfOk, OnOk, OnErr, option_copied};
ghost use Rattle.std.specs.Option.{option_map};
ghost use Rattle.graph_model.specs.Kept.{NoteBefore};
ghost use Rattle.graph_model.specs.Lists.{Pairwise};
ghost use Rattle.graph_model.specs.Projection.{under};
ghost use Rattle.desk_model.specs.State.{loaded_lists};
ghost use Rattle.desk_model.specs.Replies.{plain_reply};
ghost use Rattle.desk_model.specs.Step.{kept_answer, with_answer};
ghost use Rattle.user_lists.specs.Imports.{AnswersAscend, lists_without_answer};
ghost use Rattle.user_lists.specs.Lists.{named};
ghost use Rattle.user_lists.specs.Steps.{IsEventStep, IsReadyOn, begins_job};
ghost use Rattle.user_lists.specs.Users.{lists_of, IsOpenFor, OthersStay};

use crate::event::ListEvent;
use crate::lists::UserLists;
use desk_model::Reply;
use graph_model::{ChangeReply, ImportNote, Mem, Refusal, Tag, TryClone};
use std::alloc::Global;
use std::collections::BTreeMap;
use std::marker::Model;
use std::mem;
use user_catalog::Entry;

/// The lists of each user for whom something was kept. Contracts see them by user; a user who isn't there has empty lists.
#[derive(Drop)]
pub struct Users {
    lists: BTreeMap<Tag, UserLists>,
}

impl Model for Users {
    ghost use Rattle.std.specs.Prelude.{List, ℕ};
    ghost use Rattle.desk_model.specs.State.{UserLists};

    ghost Value = { List (List ℕ × UserLists) };

    ghost view = { λ users. users.lists.entries };
}

impl Users {
    /// Nobody has lists yet. It takes no memory.
    pub fn new(alloc: Global) -> Users
        ensures { result ≡ [] }
    {
        Users {
            lists: BTreeMap::new(alloc),
        }
    }

    /// The lists of all users of whom nothing is kept but answers of imports, whose notes are in order.
    ///
    /// # Errors
    /// `Mem` where there is no memory for them.
    pub fn loaded(alloc: Global, notes: &[ImportNote]) -> Result<Users, Mem>
        requires { Pairwise NoteBefore notes.now }
        ensures { IfOk result (λ users. (user : List ℕ) → lists_of users user ≡ loaded_lists notes.now user) }
    {
        let mut users = Users::new(alloc);
        for note in notes {
            users.keep_answer(alloc, &note.user, &note.id, note.answer)?;
        }
        Ok(users)
    }

    /// Answers an event on the lists of a user: exactly the step that the machine's table has. The lists of a user are taken
    /// out and put back here alone; they are made where a job begins, and else memory is taken only for the reply.
    pub fn apply(&mut self, alloc: Global, user: &Tag, event: ListEvent) -> Reply
        requires { IsReadyOn event (lists_of self.old user.now) }
        ensures step { IsEventStep event (lists_of self.old user.now) (plain_reply result) (lists_of self.new user.now) }
        ensures others { OthersStay user.now self.old self.new }
    {
        if self.open_for(alloc, user, &event).is_err() {
            return Reply::Refused(Refusal::Mem);
        }
        match self.take(alloc, user) {
            Some(lists) => {
                let mut lists = lists;
                let reply = lists.apply(alloc, event);
                self.put(user, lists);
                reply
            }
            None => UserLists::new(alloc).apply(alloc, event),
        }
    }

    /// The graph of a user under a name, `None` exactly where there is none.
    pub fn graph(&self, user: &Tag, name: &Tag) -> Option<&Entry>
        ensures { under name.now (lists_of self.now user.now).graphs ≡ option_map named (option_copied result) }
    {
        match self.get(user) {
            Some(lists) => lists.graph(name),
            None => None,
        }
    }

    /// The answer that is kept for a user under an import id.
    pub fn kept_answer(&self, user: &Tag, id: &Tag) -> Option<ChangeReply>
        ensures { result ≡ kept_answer (Some id.now) (lists_of self.now user.now) }
    {
        match self.get(user) {
            Some(lists) => lists.kept_answer(id),
            None => None,
        }
    }

    /// How many answers of imports are kept for a user.
    pub fn import_count(&self, user: &Tag) -> usize
        ensures { result ≡ length (lists_of self.now user.now).imports }
    {
        match self.get(user) {
            Some(lists) => lists.import_count(),
            None => 0,
        }
    }

    /// Keeps an answer for a user under an import id.
    ///
    /// # Errors
    /// `Mem` where there is no memory for it. Then all lists are as they were.
    pub fn keep_answer(
        &mut self,
        alloc: Global,
        user: &Tag,
        id: &Tag,
        answer: ChangeReply,
    ) -> Result<(), Mem>
        ensures ok { OnOk result (lists_of self.new user.now ≡ with_answer (Some id.now) answer (lists_of self.old user.now)) }
        ensures ascend { OnOk result (AnswersAscend (lists_of self.old user.now).imports) }
        ensures err { OnErr result (lists_of self.new user.now ≡ lists_of self.old user.now) }
        ensures others { OthersStay user.now self.old self.new }
    {
        self.open(alloc, user)?;
        let Some(lists) = self.take(alloc, user) else {
            return Err(Mem);
        };
        let mut lists = lists;
        let kept = lists.keep_answer(id, answer);
        self.put(user, lists);
        kept
    }

    /// Forgets the answer that is kept for a user under an import id. It takes no memory.
    pub fn forget_answer(&mut self, alloc: Global, user: &Tag, id: &Tag)
        ensures own { lists_of self.new user.now ≡ lists_without_answer id.now (lists_of self.old user.now) }
        ensures others { OthersStay user.now self.old self.new }
    {
        if let Some(lists) = self.take(alloc, user) {
            let mut lists = lists;
            lists.forget_answer(id);
            self.put(user, lists);
        }
    }

    // The lists of a user, where there are some.
    fn get(&self, user: &Tag) -> Option<&UserLists>
        ensures { option_copied result ≡ under user.now self.now }
    {
        self.lists.get(user)
    }

    // Makes lists for a user who has none.
    //
    // # Errors
    // `Mem` where there is no memory for them.
    fn open(&mut self, alloc: Global, user: &Tag) -> Result<(), Mem>
        ensures open { OnOk result (IsSome (under user.now self.new)) }
        ensures kept { (other : List ℕ) → lists_of self.new other ≡ lists_of self.old other }
    {
        if self.lists.contains_key(user) {
            return Ok(());
        }
        self.lists.insert(user.try_clone()?, UserLists::new(alloc))?;
        Ok(())
    }

    // Takes the lists of a user out, to be changed and put back. It takes no memory.
    fn take(&mut self, alloc: Global, user: &Tag) -> Option<UserLists>
        ensures value { result ≡ under user.now self.old }
        ensures others { OthersStay user.now self.old self.new }
        ensures open { IsSome result → IsSome (under user.now self.new) }
        ensures none { IfNone result (self.new ≡ self.old) }
    {
        match self.lists.get_mut(user) {
            Some(lists) => Some(mem::replace(lists, UserLists::new(alloc))),
            None => None,
        }
    }

    // Puts the lists of a user back in their place. It takes no memory.
    fn put(&mut self, user: &Tag, lists: UserLists)
        requires { IsSome (under user.now self.old) }
        ensures own { lists_of self.new user.now ≡ lists }
        ensures others { OthersStay user.now self.old self.new }
    {
        if let Some(place) = self.lists.get_mut(user) {
            *place = lists;
        }
    }

    // Makes lists for a user whose job begins.
    fn open_for(&mut self, alloc: Global, user: &Tag, event: &ListEvent) -> Result<(), Mem>
        ensures open { OnOk result (IsOpenFor event.now user.now self.new) }
        ensures begins { OnErr result (begins_job event.now ≡ true) }
        ensures kept { (other : List ℕ) → lists_of self.new other ≡ lists_of self.old other }
    {
        match event {
            ListEvent::Begin { .. } => self.open(alloc, user),
            ListEvent::End { .. }
            | ListEvent::Abandon { .. }
            | ListEvent::Terminate { .. }
            | ListEvent::Exists { .. }
            | ListEvent::List { .. }
            | ListEvent::Drop { .. }
            | ListEvent::Jobs => Ok(()),
        }
    }
}
