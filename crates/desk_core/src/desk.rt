// The desk.
ghost use Rattle.std.specs.Prelude.{◌≡◌, ◌≤◌, ℕ, List, Some, None, true, false, IsTrue, IfOk, IfErr};
ghost use Rattle.gds_causes.specs.Faults.{Rose};
ghost use Rattle.graph_model.specs.Graph.{IsValidGraph, IsWithinLimits};
ghost use Rattle.graph_model.specs.declared.kept.Kept.{Kept};
ghost use Rattle.graph_model.specs.Kept.{IsValidKept};
ghost use Rattle.desk_model.specs.State.{IsNewUser, loaded_lists, loaded_state, part_of};
ghost use Rattle.desk_model.specs.Valid.{IsValidState};
ghost use Rattle.desk_model.specs.Replies.{plain_reply};
ghost use Rattle.desk_model.specs.Step.{IsGivenName, IsReady, IsStep, is_admin, is_fault, mark_of, refused_naming};
ghost use Rattle.user_lists.specs.Steps.{IsEventStep, IsReadyOn};
ghost use Rattle.user_lists.specs.Users.{lists_of, OthersStay};
ghost use Rattle.desk_core.specs.Fields.{state_of, IsDeskOf, KeepsStore};

use crate::capturing::capture;
use crate::changing::make_change;
use crate::importing::import_change;
use crate::replies::{changed, stored, told};
use crate::rows::{projected_rows, stored_rows};
use desk_model::{Asked, Event, Reply};
use graph_making::MakeSpec;
use graph_model::{Change, Choice, Kept, Mem, Name, Refusal, Tag};
use graph_store::Store;
use std::alloc::Global;
use std::marker::Model;
use store_keeper::{KeepRefusal, Keeper};
use user_lists::{ListEvent, Users};

/// The machine that answers events: the graph of a store, a keeper of its changes, an administrator or none, and what is kept
/// for each user. Every desk keeps that what its keeper tells is its graph and its users' answers of imports, and that the lists
/// of every user are valid: job numbers ascend, job names and versions differ, and none is beyond the last one given.
#[derive(Drop)]
pub struct Desk<K: Keeper> {
    keeper: K,
    store: Store,
    admin: Option<Tag>,
    users: Users,
}

impl<K: Keeper> Model for Desk<K> {
    ghost use Rattle.desk_core.specs.Fields.{DeskFields, IsDeskOf};

    ghost Value = { DeskFields K };

    ghost view = { λ desk. record { keeper = desk.keeper; graph = desk.store; admin = desk.admin; users = desk.users } };

    ghost invariant = { λ desk. IsDeskOf (K.kept desk.keeper) desk.store desk.users };
}

impl<K: Keeper> Desk<K> {
    /// A desk over what a keeper keeps: its graph, and each user's answers of imports, with this administrator or none. All else
    /// is empty.
    ///
    /// # Errors
    /// The keeper, and why what it keeps wasn't to be had: `Fault` exactly where its count of faults rises, or `Mem`.
    pub fn start(alloc: Global, keeper: K, admin: Option<Tag>) -> Result<Desk<K>, (K, KeepRefusal)>
        ensures ok { IfOk result (λ desk. (kept : Kept) → K.kept keeper ≡ Some kept → state_of desk ≡ loaded_state admin kept) }
        ensures graph { IfOk result (λ desk. IsValidGraph desk.graph) }
        ensures limits { IfOk result (λ desk. IsWithinLimits desk.graph) }
        ensures admin { IfOk result (λ desk. desk.admin ≡ admin) }
        ensures new { IfOk result (λ desk. (user : List ℕ) → IsNewUser (lists_of desk.users user)) }
        ensures valid { IfOk result (λ desk. IsValidState (state_of desk)) }
        ensures told { IfOk result (λ desk. K.kept desk.keeper ≡ K.kept keeper) }
        ensures path { IfOk result (λ desk. K.path desk.keeper ≡ K.path keeper) }
        ensures calm { IfOk result (λ desk. K.faults desk.keeper ≡ K.faults keeper) }
        ensures err_told { IfErr result (λ refused. K.kept refused.0 ≡ K.kept keeper) }
        ensures err_path { IfErr result (λ refused. K.path refused.0 ≡ K.path keeper) }
        ensures fault { IfErr result (λ refused. refused.1 ≡ KeepRefusal.Fault → Rose (K.faults keeper) (K.faults refused.0)) }
        ensures err_calm { IfErr result (λ refused. refused.1 ≡ KeepRefusal.Mem → K.faults refused.0 ≡ K.faults keeper) }
        ensures later { IfErr result (λ refused. K.faults keeper ≤ K.faults refused.0) }
    {
        let mut keeper = keeper;
        match keeper.load(alloc) {
            Ok(kept) => match opened(alloc, kept) {
                Ok((store, users)) => Ok(Desk {
                    keeper,
                    store,
                    admin,
                    users,
                }),
                Err(_mem) => Err((keeper, KeepRefusal::Mem)),
            },
            Err(why) => Err((keeper, why)),
        }
    }

    /// The keeper as it stands, with its count of faults. It takes no memory.
    pub fn end(self) -> K
        ensures keeper { result ≡ self.keeper }
        ensures told { IsDeskOf (K.kept result) self.graph self.users }
    {
        let Desk {
            keeper,
            store: _,
            admin: _,
            users: _,
        } = self;
        keeper
    }

    /// Answers an event: one step of the machine.
    pub fn apply(&mut self, alloc: Global, asked: Asked) -> Reply
        requires { IsReady asked.event (part_of (state_of self.old) asked.user) }
        ensures step { IsStep asked.user asked.event (state_of self.old) (plain_reply result) (state_of self.new) }
        ensures valid { IsValidState (state_of self.new) }
        ensures told { IsDeskOf (K.kept self.new.keeper) self.new.graph self.new.users }
        ensures path { K.path self.new.keeper ≡ K.path self.old.keeper }
        ensures fault { IsTrue (is_fault (mark_of (plain_reply result))) → Rose (K.faults self.old.keeper) (K.faults self.new.keeper) }
        ensures calm { is_fault (mark_of (plain_reply result)) ≡ false → K.faults self.new.keeper ≡ K.faults self.old.keeper }
        ensures later { K.faults self.old.keeper ≤ K.faults self.new.keeper }
    {
        let Asked { user, event } = asked;
        match event {
            Event::Change { import, change } => self.change(alloc, &user, &import, &change),
            Event::StoreRows { key, labels } => self.store_rows(alloc, &key, &labels),
            Event::ProjectBegin { graph, job, spec } => {
                self.project_begin(alloc, &user, graph, job, spec)
            }
            Event::ProjectEnd { job, built } => {
                self.perform(alloc, &user, ListEvent::End { job, built })
            }
            Event::Abandon { job } => self.perform(alloc, &user, ListEvent::Abandon { job }),
            Event::Terminate { job } => self.perform(alloc, &user, ListEvent::Terminate { job }),
            Event::Exists { graph } => self.perform(alloc, &user, ListEvent::Exists { graph }),
            Event::List { graph, of } => self.list(alloc, &user, graph, of),
            Event::Drop { graph, must, of } => self.drop_graph(alloc, &user, graph, must, of),
            Event::GraphRows { graph, key, labels } => {
                self.graph_rows(alloc, &user, graph, key, labels)
            }
            Event::Jobs => self.perform(alloc, &user, ListEvent::Jobs),
        }
    }

    // A change of the store.
    fn change(&mut self, alloc: Global, user: &Tag, import: &Option<Tag>, change: &Change) -> Reply
        requires { IsReady (Event.Change import.now change.now) (part_of (state_of self.old) user.now) }
        ensures step { IsStep user.now (Event.Change import.now change.now) (state_of self.old) (plain_reply result) (state_of self.new) }
        ensures told { IsDeskOf (K.kept self.new.keeper) self.new.graph self.new.users }
        ensures path { K.path self.new.keeper ≡ K.path self.old.keeper }
        ensures fault { IsTrue (is_fault (mark_of (plain_reply result))) → Rose (K.faults self.old.keeper) (K.faults self.new.keeper) }
        ensures calm { is_fault (mark_of (plain_reply result)) ≡ false → K.faults self.new.keeper ≡ K.faults self.old.keeper }
        ensures later { K.faults self.old.keeper ≤ K.faults self.new.keeper }
    {
        let Desk {
            keeper,
            store,
            admin: _,
            users,
        } = self;
        let made = match import {
            Some(id) => import_change(keeper, store, users, alloc, user, id, change),
            None => make_change(keeper, store, alloc, change),
        };
        changed(made)
    }

    // Rows of the store.
    fn store_rows(&self, alloc: Global, key: &Name, labels: &Choice) -> Reply
        ensures step { (user : List ℕ) → IsStep user (Event.StoreRows key.now labels.now) (state_of self.now) (plain_reply result) (state_of self.now) }
        ensures told { IsDeskOf (K.kept self.now.keeper) self.now.graph self.now.users }
    {
        stored(stored_rows(alloc, &self.store, key, labels))
    }

    // An event on the lists of a user, which the caller may name.
    fn perform(&mut self, alloc: Global, user: &Tag, event: ListEvent) -> Reply
        requires { IsReadyOn event (lists_of self.old.users user.now) }
        ensures step { IsEventStep event (lists_of self.old.users user.now) (plain_reply result) (lists_of self.new.users user.now) }
        ensures others { OthersStay user.now self.old.users self.new.users }
        ensures kept { KeepsStore self.old self.new }
        ensures told { IsDeskOf (K.kept self.new.keeper) self.new.graph self.new.users }
    {
        self.users.apply(alloc, user, event)
    }

    // A job begins that makes a graph, with the store's graph as it is now where that is projected.
    fn project_begin(
        &mut self,
        alloc: Global,
        user: &Tag,
        graph: Tag,
        name: Option<Tag>,
        spec: MakeSpec,
    ) -> Reply
        requires { IsGivenName name }
        ensures step { IsStep user.now (Event.ProjectBegin graph name spec) (state_of self.old) (plain_reply result) (state_of self.new) }
        ensures kept { KeepsStore self.old self.new }
        ensures told { IsDeskOf (K.kept self.new.keeper) self.new.graph self.new.users }
    {
        let captured = match capture(alloc, &self.store, &spec) {
            Ok(captured) => captured,
            Err(_mem) => return Reply::Refused(Refusal::Mem),
        };
        let begin = ListEvent::Begin {
            graph,
            job: name,
            captured,
            spec,
        };
        self.perform(alloc, user, begin)
    }

    // Whether a user is the administrator.
    fn is_admin(&self, user: &Tag) -> bool
        ensures yes { result ≡ is_admin user.now self.now.admin }
        ensures told { IsDeskOf (K.kept self.now.keeper) self.now.graph self.now.users }
    {
        match &self.admin {
            Some(admin) => user == admin,
            None => false,
        }
    }

    // Whether a caller may name a user.
    fn may_name(&self, caller: &Tag, user: &Tag) -> bool
        ensures yes { result ≡ true → refused_naming caller.now self.now.admin (Some user.now) ≡ None }
        ensures no { result ≡ false → refused_naming caller.now self.now.admin (Some user.now) ≡ Some (Refusal.NotAdmin user.now) }
        ensures told { IsDeskOf (K.kept self.now.keeper) self.now.graph self.now.users }
    {
        let admin = self.is_admin(caller);
        user == caller || admin
    }

    // The graphs of a named user, else of the caller: all, or the one of a name.
    fn list(&mut self, alloc: Global, caller: &Tag, graph: Option<Tag>, of: Option<Tag>) -> Reply
        ensures step { IsStep caller.now (Event.List graph of) (state_of self.old) (plain_reply result) (state_of self.new) }
        ensures kept { KeepsStore self.old self.new }
        ensures told { IsDeskOf (K.kept self.new.keeper) self.new.graph self.new.users }
    {
        match of {
            Some(user) => {
                if self.may_name(caller, &user) {
                    return self.perform(alloc, &user, ListEvent::List { graph });
                }
                Reply::Refused(Refusal::NotAdmin { username: user })
            }
            None => self.perform(alloc, caller, ListEvent::List { graph }),
        }
    }

    // A graph of a named user, else of the caller, is dropped; it may be asked that there must be one.
    fn drop_graph(
        &mut self,
        alloc: Global,
        caller: &Tag,
        graph: Tag,
        must: bool,
        of: Option<Tag>,
    ) -> Reply
        ensures step { IsStep caller.now (Event.Drop graph must of) (state_of self.old) (plain_reply result) (state_of self.new) }
        ensures kept { KeepsStore self.old self.new }
        ensures told { IsDeskOf (K.kept self.new.keeper) self.new.graph self.new.users }
    {
        match of {
            Some(user) => {
                if self.may_name(caller, &user) {
                    return self.perform(alloc, &user, ListEvent::Drop { graph, must });
                }
                Reply::Refused(Refusal::NotAdmin { username: user })
            }
            None => self.perform(alloc, caller, ListEvent::Drop { graph, must }),
        }
    }

    // Rows of a named graph.
    fn graph_rows(&self, alloc: Global, user: &Tag, graph: Tag, key: Name, labels: Choice) -> Reply
        ensures step { IsStep user.now (Event.GraphRows graph key labels) (state_of self.now) (plain_reply result) (state_of self.now) }
        ensures told { IsDeskOf (K.kept self.now.keeper) self.now.graph self.now.users }
    {
        match self.users.graph(user, &graph) {
            Some(entry) => told(projected_rows(alloc, entry.graph.get(), key, &labels)),
            None => Reply::Refused(Refusal::NoSuchGraph { graph_name: graph }),
        }
    }
}

// A store of the graph, and the lists of users with their answers of imports.
fn opened(alloc: Global, kept: Kept) -> Result<(Store, Users), Mem>
    requires { IsValidKept kept }
    ensures graph { IfOk result (λ made. made.0 ≡ kept.graph) }
    ensures users { IfOk result (λ made. (user : List ℕ) → lists_of made.1 user ≡ loaded_lists kept.imports user) }
{
    let Kept { graph, imports } = kept;
    let users = Users::loaded(alloc, imports.as_slice())?;
    Ok((Store::of(alloc, graph)?, users))
}
