// A desk, and the job on it that was begun last.
ghost use Rattle.std.specs.Prelude.{◌≡◌, IfOk, None};
ghost use Rattle.graph_making.specs.Making.{plain_capture};
ghost use Rattle.desk_model.specs.Step.{IsGivenName};
ghost use Rattle.desk_model.specs.Valid.{IsValidState};
ghost use Rattle.desk_model.specs.Going.{IsGoingJob};
ghost use Rattle.desk_core.specs.Fields.{state_of};
ghost use Rattle.gds_events.specs.Going.{IsSimple};

use crate::event::{every_node, job_name, simple, tag};
use crate::stop::Stop;
use call_codec::{answer_length, answer_write};
use desk_core::{Asked, Built, Captured, Desk, Event, MakeSpec, Reply};
use desk_model::laws::jobs_go_on;
use gds_causes::MemSink;
use graph_builder::Make;
use graph_model::{List, Tag, TryClone};
use std::alloc::Global;
use std::marker::Model;
use store_keeper::{Keeper, MemKeeper};

/// As many bytes as a write takes of an answer.
const PIECE: usize = 64;

/// A job that was begun: its user, its number, what it captured, and what it was asked for.
#[derive(Drop)]
pub(crate) struct Begun {
    user: Tag,
    job: u32,
    from: Captured,
    spec: MakeSpec,
}

// A job that is to begin: what is handed in, and what is kept of it beside.
#[derive(Drop)]
struct Wanted {
    user: Tag,
    same_user: Tag,
    graph: Tag,
    job: Option<Tag>,
    spec: MakeSpec,
    same_spec: MakeSpec,
}

/// A desk, and the job that was begun on it last and hasn't been ended by a row. Every session keeps that this job goes on.
#[derive(Drop)]
pub(crate) struct Session<K: Keeper> {
    desk: Desk<K>,
    last: Option<Begun>,
}

impl<K: Keeper> Model for Session<K> {
    ghost use Rattle.gds_events.specs.Going.{IsGoingOn, SessionFields};

    ghost Value = { SessionFields K };

    ghost view = { λ session. record { desk = session.desk; last = session.last } };

    ghost invariant = { λ session. IsGoingOn session.desk session.last };
}

impl<K: Keeper> Session<K> {
    /// The text of the answer to a row: `begin GRAPH [as JOB]` begins a job, `end` and `abandon` end the one that was begun last,
    /// and all else is an event that ends no job.
    pub(crate) fn answer(
        &mut self,
        alloc: Global,
        user: Tag,
        verb: &str,
        words: &str,
    ) -> Result<List<u8>, Stop> {
        match verb {
            "begin" => self.begin(alloc, user, words),
            "end" => self.end(alloc, user),
            "abandon" => self.abandon(alloc, user),
            _ => {
                let event = simple(alloc, verb, words)?;
                self.ask(alloc, Asked { user, event })
            }
        }
    }

    /// The keeper of the desk, which ends.
    pub(crate) fn keeper(self) -> K {
        let Session { desk, last: _ } = self;
        desk.end()
    }

    // An event that ends no job.
    fn ask(&mut self, alloc: Global, asked: Asked) -> Result<List<u8>, Stop>
        requires { IsSimple asked.event }
    {
        jobs_go_on();
        text_of(alloc, self.desk.apply(alloc, asked))
    }

    // A job begins that makes a graph of every node.
    fn begin(&mut self, alloc: Global, user: Tag, words: &str) -> Result<List<u8>, Stop> {
        match read_wanted(alloc, user, words) {
            Ok(wanted) => self.begin_making(alloc, wanted),
            Err(why) => Err(why),
        }
    }

    fn begin_making(&mut self, alloc: Global, wanted: Wanted) -> Result<List<u8>, Stop>
        requires formed { IsGivenName wanted.job }
        requires user { wanted.same_user ≡ wanted.user }
        requires spec { wanted.same_spec ≡ wanted.spec }
    {
        self.forget();
        let Wanted {
            user,
            same_user,
            graph,
            job,
            spec,
            same_spec,
        } = wanted;
        match begin_job(&mut self.desk, alloc, user, graph, job, spec) {
            Ok((job, from)) => {
                self.last = Some(Begun {
                    user: same_user,
                    job,
                    from,
                    spec: same_spec,
                });
                text_of(alloc, Reply::Ended)
            }
            Err(reply) => text_of(alloc, reply),
        }
    }

    // The job that was begun last is none of the rows to come.
    fn forget(&mut self)
        ensures { self.new.last ≡ None }
    {
        self.last = None;
    }

    // The job that was begun last ends with what is built of its capture.
    fn end(&mut self, alloc: Global, user: Tag) -> Result<List<u8>, Stop> {
        let Some(begun) = self.last.take() else {
            return Err(Stop::Row);
        };
        let Begun {
            user: owner,
            job,
            from,
            spec,
        } = begun;
        if owner != user {
            return Err(Stop::Row);
        }
        let built = Built::make(alloc, &from, &spec, 1)?;
        let event = Event::ProjectEnd { job, built };
        text_of(alloc, self.desk.apply(alloc, Asked { user, event }))
    }

    // The job that was begun last ends for nothing.
    fn abandon(&mut self, alloc: Global, user: Tag) -> Result<List<u8>, Stop> {
        let Some(begun) = self.last.take() else {
            return Err(Stop::Row);
        };
        let Begun {
            user: owner,
            job,
            ..
        } = begun;
        if owner != user {
            return Err(Stop::Row);
        }
        let event = Event::Abandon { job };
        text_of(alloc, self.desk.apply(alloc, Asked { user, event }))
    }
}

// The text of the answer to a reply, written to a sink that has room for as many bytes as it is said to have.
fn text_from(alloc: Global, reply: &Reply) -> Result<List<u8>, Stop> {
    let room = answer_length(reply) as usize;
    let Ok(mut sink) = MemSink::new(alloc, room, PIECE, Vec::new(alloc)) else {
        return Err(Stop::Mem);
    };
    match answer_write(reply, &mut sink) {
        Ok(()) => Ok(List::from_vec(Vec::from_slice(alloc, sink.bytes())?)),
        Err(_) => Err(Stop::Io),
    }
}

// The text of the answer to a reply, which is gone then.
fn text_of(alloc: Global, reply: Reply) -> Result<List<u8>, Stop> {
    let text = text_from(alloc, &reply);
    drop(reply);
    text
}

// The job that `GRAPH [as JOB]` asks for, with the name of its user and what it asks for twice.
fn read_wanted(alloc: Global, user: Tag, words: &str) -> Result<Wanted, Stop>
    ensures formed { IfOk result (λ wanted. IsGivenName wanted.job) }
    ensures user { IfOk result (λ wanted. wanted.same_user ≡ wanted.user) }
    ensures spec { IfOk result (λ wanted. wanted.same_spec ≡ wanted.spec) }
{
    let (graph, job) = match words.split_once(" as ") {
        Some((graph, job)) => (graph, Some(job)),
        None => (words, None),
    };
    let graph = tag(alloc, graph)?;
    let job = job_name(alloc, job)?;
    let same_user = user.try_clone()?;
    let (spec, same_spec) = two_specs(alloc)?;
    Ok(Wanted {
        user,
        same_user,
        graph,
        job,
        spec,
        same_spec,
    })
}

// What is asked for twice: to be handed in, and to be built.
fn two_specs(alloc: Global) -> Result<(MakeSpec, MakeSpec), Stop>
    ensures { IfOk result (λ specs. specs.1 ≡ specs.0) }
{
    let spec = every_node(alloc)?;
    Ok((spec, every_node(alloc)?))
}

// A job of a user begins: its number and what it captured, or what is answered in place of that.
fn begin_job<K: Keeper>(
    desk: &mut Desk<K>,
    alloc: Global,
    user: Tag,
    graph: Tag,
    job: Option<Tag>,
    spec: MakeSpec,
) -> Result<(u32, Captured), Reply>
    requires formed { IsGivenName job }
    requires valid { IsValidState (state_of desk.old) }
    ensures begun { IfOk result (λ begun. IsGoingJob begun.0 (plain_capture begun.1) spec ((state_of desk.new).lists user)) }
    ensures valid { IsValidState (state_of desk.new) }
{
    jobs_go_on();
    let event = Event::ProjectBegin { graph, job, spec };
    match desk.apply(alloc, Asked { user, event }) {
        Reply::Making { job, from, .. } => Ok((job, from)),
        reply => Err(reply),
    }
}

/// A session on a desk over what a keeper keeps, with this administrator or none.
pub(crate) fn start_on(
    alloc: Global,
    keeper: MemKeeper,
    admin: Option<Tag>,
) -> Result<Session<MemKeeper>, Stop> {
    match Desk::start(alloc, keeper, admin) {
        Ok(desk) => Ok(Session { desk, last: None }),
        Err(_) => Err(Stop::Mem),
    }
}
