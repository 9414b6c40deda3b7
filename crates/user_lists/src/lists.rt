// The lists of one user.
ghost use Rattle.std.specs.Prelude.{◌≡◌, ◌+◌, false, position, length, None, Some, Ok, IsSome, IfOk, IfErr, OnOk, OnErr, option_copied};
ghost use Rattle.std.specs.Option.{option_map};
ghost use Rattle.graph_model.specs.Lists.{first_there};
ghost use Rattle.graph_model.specs.Projection.{under};
ghost use Rattle.graph_model.specs.Refusals.{UnlessMem};
ghost use Rattle.csr_columns.specs.Plain.{plain};
ghost use Rattle.user_catalog.specs.Catalog.{name_taken, graphs_spent};
ghost use Rattle.graph_making.specs.Making.{BuiltGraph, plain_capture};
ghost use Rattle.desk_model.specs.declared.asked.Event.TheVariants as event;
ghost use Rattle.desk_model.specs.State.{Make, no_lists};
ghost use Rattle.desk_model.specs.Replies.{plain_reply};
ghost use Rattle.desk_model.specs.History.{is_memory};
ghost use Rattle.desk_model.specs.Jobs.{comes_of, is_asked, is_numbered, job_of, job_taken, jobs_spent, numbers_spent, next_job, with_job};
ghost use Rattle.desk_model.specs.Step.{IsSomeMaking, refused_begin, with_answer};
ghost use Rattle.user_lists.specs.declared.event.ListEvent.TheVariants as list;
ghost use Rattle.user_lists.specs.Imports.{AnswersAscend, lists_without_answer};
ghost use Rattle.user_lists.specs.Lists.{named};
ghost use Rattle.user_lists.specs.Steps.{IsBeginStep, IsEventStep, IsListStep, IsReadyOn};

use crate::event::ListEvent;
use crate::graphs;
use crate::job::{self, Job};
use csr_columns::Projection;
use desk_model::Reply;
use graph_making::{Built, Captured, MakeSpec};
use graph_model::{ChangeReply, Counter, Mem, Refusal, Tag, TryClone};
use std::alloc::Global;
use std::collections::BTreeMap;
use std::marker::Model;
use user_catalog::{Catalog, Entry};

// The most graphs of a user, and the most jobs at one time.
const MOST_GRAPHS: usize = 64;

const MOST_JOBS: usize = 16;

/// What is kept for a user: named graphs, jobs by ascending number, the answers of imports by their ids, and the number of
/// the last job. The last version is the catalog's.
#[derive(Drop)]
pub struct UserLists {
    pub(crate) graphs: Catalog,
    pub(crate) jobs: Vec<Job>,
    imports: BTreeMap<Tag, ChangeReply>,
    pub(crate) last_job: u32,
}

impl Model for UserLists {
    ghost use Rattle.desk_model.specs.State.{UserLists};
    ghost use Rattle.user_lists.specs.Imports.{AnswersAscend};
    ghost use Rattle.user_lists.specs.Lists.{shown};

    ghost Value = { UserLists };

    ghost view = { λ lists. shown lists.graphs lists.jobs.items lists.imports.entries lists.last_job };

    ghost invariant = { λ lists. AnswersAscend lists.imports.entries };
}

impl UserLists {
    /// Nothing is kept. It takes no memory.
    pub fn new(alloc: Global) -> UserLists
        ensures { result ≡ no_lists }
    {
        UserLists {
            graphs: Catalog::new(alloc),
            jobs: Vec::new(alloc),
            imports: BTreeMap::new(alloc),
            last_job: 0,
        }
    }

    /// Answers an event on these lists: exactly the step that the machine's table has.
    pub fn apply(&mut self, alloc: Global, event: ListEvent) -> Reply
        requires { IsReadyOn event self.old }
        ensures { IsEventStep event self.old (plain_reply result) self.new }
    {
        match event {
            ListEvent::Begin {
                graph,
                job,
                captured,
                spec,
            } => self.begin_making(alloc, graph, job, captured, &spec),
            ListEvent::End { job, built } => self.end_making(alloc, job, built),
            ListEvent::Abandon { job } => self.abandon(job),
            ListEvent::Terminate { job } => self.terminate(job),
            ListEvent::Exists { graph } => self.exists(graph),
            ListEvent::List { graph } => self.list(alloc, &graph),
            ListEvent::Drop { graph, must } => self.drop_graph(alloc, graph, must),
            ListEvent::Jobs => self.jobs(alloc),
        }
    }

    /// The graph of a name, `None` exactly where there is none.
    pub fn graph(&self, name: &Tag) -> Option<&Entry>
        ensures { under name.now self.now.graphs ≡ option_map named (option_copied result) }
    {
        self.graphs.get(name)
    }

    /// The answer that is kept under an import id.
    pub fn kept_answer(&self, id: &Tag) -> Option<ChangeReply>
        ensures { result ≡ under id.now self.now.imports }
    {
        self.imports.get(id).copied()
    }

    /// How many answers of imports are kept.
    pub fn import_count(&self) -> usize
        ensures { result ≡ length self.now.imports }
    {
        self.imports.len()
    }

    /// Keeps an answer under an import id.
    ///
    /// # Errors
    /// `Mem` where there is no memory for it. Then the lists are as they were.
    pub fn keep_answer(&mut self, id: &Tag, answer: ChangeReply) -> Result<(), Mem>
        ensures ok { OnOk result (self.new ≡ with_answer (Some id.now) answer self.old) }
        ensures ascend { OnOk result (AnswersAscend self.old.imports) }
        ensures err { OnErr result (self.new ≡ self.old) }
    {
        let id = id.try_clone()?;
        self.imports.insert(id, answer)?;
        Ok(())
    }

    /// Forgets the answer under an import id. It takes no memory.
    pub fn forget_answer(&mut self, id: &Tag)
        ensures { self.new ≡ lists_without_answer id.now self.old }
    {
        self.imports.remove(id);
    }

    // Begins a job that makes a graph of a name: exactly the step that the machine's table has. The number is the next one,
    // and the job's name the one that is given, else `job-` and the number.
    fn begin_making(
        &mut self,
        alloc: Global,
        graph: Tag,
        name: Option<Tag>,
        captured: Captured,
        spec: &MakeSpec,
    ) -> Reply
        ensures { IsBeginStep graph name spec.now (plain_capture captured) self.old (plain_reply result) self.new }
    {
        match self.begin(alloc, graph, name, &captured, spec) {
            Ok((job, name)) => Reply::Making {
                job,
                name,
                from: captured,
            },
            Err(why) => Reply::Refused(why),
        }
    }

    // Begins a job, and answers its number and its name, or why it doesn't begin: the graph's name is there, there are 64
    // graphs, the given name is there, there are 16 jobs, the greatest number was given, or want of memory.
    fn begin(
        &mut self,
        alloc: Global,
        graph: Tag,
        name: Option<Tag>,
        captured: &Captured,
        spec: &MakeSpec,
    ) -> Result<(u32, Tag), Refusal>
        ensures number { IfOk result (λ begun. begun.0 ≡ self.old.last_job + 1) }
        ensures name { IfOk result (λ begun. begun.1 ≡ (next_job name (plain_capture captured.now) (Make graph spec.now) self.old).name) }
        ensures ok { OnOk result (self.new ≡ with_job (next_job name (plain_capture captured.now) (Make graph spec.now) self.old) self.old) }
        ensures allowed { OnOk result (refused_begin graph name self.old ≡ None) }
        ensures refused { IfErr result (λ why. UnlessMem why (refused_begin graph name self.old ≡ Some why)) }
        ensures err { OnErr result (self.new ≡ self.old) }
    {
        let graph = match self.free_graph(graph) {
            Ok(graph) => graph,
            Err(why) => return Err(why),
        };
        let name = match self.free_name(name) {
            Ok(name) => name,
            Err(why) => return Err(why),
        };
        let number = match self.next_number() {
            Ok(number) => number,
            Err(why) => return Err(why),
        };
        match self.add_job(alloc, number, graph, name, captured, spec) {
            Ok(name) => Ok((number, name)),
            Err(_mem) => Err(Refusal::Mem),
        }
    }

    // The name of a graph, where it is free and there is room for a graph.
    fn free_graph(&self, graph: Tag) -> Result<Tag, Refusal>
        ensures ok { IfOk result (λ name. name ≡ graph) }
        ensures free { OnOk result (first_there (name_taken graph (under graph self.now.graphs)) (graphs_spent (length self.now.graphs)) ≡ None) }
        ensures refused { IfErr result (λ why. first_there (name_taken graph (under graph self.now.graphs)) (graphs_spent (length self.now.graphs)) ≡ Some why) }
    {
        if self.graphs.get(&graph).is_some() {
            return Err(Refusal::GraphExists { graph_name: graph });
        }
        if self.graphs.list().len() >= MOST_GRAPHS {
            return Err(Refusal::TooManyGraphs {
                limit: MOST_GRAPHS as u64,
            });
        }
        Ok(graph)
    }

    // The name that is given to a job, where there is no job of it.
    fn free_name(&self, name: Option<Tag>) -> Result<Option<Tag>, Refusal>
        ensures ok { IfOk result (λ free. free ≡ name) }
        ensures free { OnOk result (job_taken name self.now.jobs ≡ None) }
        ensures refused { IfErr result (λ why. job_taken name self.now.jobs ≡ Some why) }
    {
        match name {
            Some(name) => {
                if job::has_named(self.jobs.as_slice(), &name) {
                    return Err(Refusal::JobExists { job_id: name });
                }
                Ok(Some(name))
            }
            None => Ok(None),
        }
    }

    // The number of the next job, where there is room for a job.
    fn next_number(&self) -> Result<u32, Refusal>
        ensures ok { IfOk result (λ number. number ≡ self.now.last_job + 1) }
        ensures allowed { OnOk result (first_there (jobs_spent self.now.jobs) (numbers_spent self.now.last_job) ≡ None) }
        ensures refused { IfErr result (λ why. first_there (jobs_spent self.now.jobs) (numbers_spent self.now.last_job) ≡ Some why) }
    {
        if self.jobs.len() >= MOST_JOBS {
            return Err(Refusal::TooManyJobs {
                limit: MOST_JOBS as u64,
            });
        }
        if self.last_job == u32::MAX {
            return Err(Refusal::CounterSpent {
                counter: Counter::Jobs,
                last: u64::from(u32::MAX),
            });
        }
        Ok(self.last_job + 1)
    }

    // Keeps the next job, and answers its name.
    fn add_job(
        &mut self,
        alloc: Global,
        number: u32,
        graph: Tag,
        name: Option<Tag>,
        captured: &Captured,
        spec: &MakeSpec,
    ) -> Result<Tag, Mem>
        requires { number ≡ self.old.last_job + 1 }
        ensures name { IfOk result (λ given. given ≡ (next_job name (plain_capture captured.now) (Make graph spec.now) self.old).name) }
        ensures ok { OnOk result (self.new ≡ with_job (next_job name (plain_capture captured.now) (Make graph spec.now) self.old) self.old) }
        ensures err { OnErr result (self.new ≡ self.old) }
    {
        let name = job::next_name(alloc, name, number)?;
        let told = name.try_clone()?;
        self.jobs
            .push(Job::new(number, name, graph, captured, spec))?;
        self.last_job = number;
        Ok(told)
    }

    // Ends the job of a number with the graph that was made for it, which is kept under the job's graph name and the next
    // version: exactly the step that the machine's table has. A job that was asked to end takes no memory.
    fn end_making(&mut self, alloc: Global, number: u32, built: Built) -> Reply
        requires { IsSomeMaking built.from built.spec (job_of number self.old) }
        ensures { IsListStep (event.ProjectEnd number built) self.old (plain_reply result) self.new }
    {
        let Some(place) = job::place_of(self.jobs.as_slice(), number) else {
            return Reply::Refused(Refusal::Mem);
        };
        if self.jobs[place].asked {
            self.jobs.remove(place);
            return Reply::Refused(Refusal::Terminated { batches: 0 });
        }
        match built.into_result() {
            Ok(graph) => self.keep_made(alloc, number, place, graph),
            Err(why) => {
                self.jobs.remove(place);
                Reply::Refused(why)
            }
        }
    }

    // Keeps the graph that was made for the job of a number, which stands at this place, and ends the job. What is told of
    // the graph takes memory, so it is written first.
    fn keep_made(&mut self, alloc: Global, number: u32, place: usize, graph: Projection) -> Reply
        requires found { position (is_numbered number) self.old.jobs ≡ Some place }
        requires open { is_asked number self.old ≡ false }
        requires made { option_map comes_of (job_of number self.old) ≡ Some (Ok (plain graph)) }
        ensures { (built : BuiltGraph) → IsListStep (event.ProjectEnd number built) self.old (plain_reply result) self.new }
    {
        let (mut line, name) = match graphs::told_first(alloc, &self.jobs[place], &graph) {
            Ok(told) => told,
            Err(_mem) => return Reply::Refused(Refusal::Mem),
        };
        match self.graphs.insert(alloc, name, graph) {
            Ok(version) => {
                self.jobs.remove(place);
                line.version = version;
                Reply::Made(line)
            }
            Err(why) => {
                if wants_memory(&why) {
                    return Reply::Refused(why);
                }
                self.jobs.remove(place);
                Reply::Refused(why)
            }
        }
    }

    // Ends the job of a number, which came to nothing. It takes no memory.
    fn abandon(&mut self, number: u32) -> Reply
        requires { IsSome (job_of number self.old) }
        ensures { IsListStep (event.Abandon number) self.old (plain_reply result) self.new }
    {
        if let Some(place) = job::place_of(self.jobs.as_slice(), number) {
            self.jobs.remove(place);
        }
        Reply::Ended
    }

    // Asks the job of a name to end, where there is one. It takes no memory.
    fn terminate(&mut self, name: Tag) -> Reply
        ensures { IsListStep (event.Terminate name) self.old (plain_reply result) self.new }
    {
        match job::place_named(self.jobs.as_slice(), &name) {
            Some(place) => {
                self.jobs[place].asked = true;
                Reply::Asked { job: name }
            }
            None => Reply::Refused(Refusal::NoSuchJob { job_id: name }),
        }
    }

    // All jobs, by ascending number.
    fn jobs(&self, alloc: Global) -> Reply
        ensures { IsListStep event.Jobs self.now (plain_reply result) self.now }
    {
        match job::lines_of(alloc, self.jobs.as_slice()) {
            Ok(lines) => Reply::JobLines(lines),
            Err(_mem) => Reply::Refused(Refusal::Mem),
        }
    }

    // Whether there is a graph of a name.
    fn exists(&self, name: Tag) -> Reply
        ensures { IsListStep (event.Exists name) self.now (plain_reply result) self.now }
    {
        let found = self.graphs.get(&name).is_some();
        Reply::There { graph: name, found }
    }

    // All graphs, by ascending name, or the one of a name.
    fn list(&self, alloc: Global, name: &Option<Tag>) -> Reply
        ensures { IsEventStep (list.List name.now) self.now (plain_reply result) self.now }
    {
        match name {
            Some(name) => graphs::told(graphs::found_lines(alloc, name, self.graphs.get(name))),
            None => graphs::told(graphs::lines_of(alloc, self.graphs.list())),
        }
    }

    // Drops the graph of a name; it may be asked that there must be one. What is told of it takes memory, so it is told
    // first.
    fn drop_graph(&mut self, alloc: Global, name: Tag, must: bool) -> Reply
        ensures { IsEventStep (list.Drop name must) self.old (plain_reply result) self.new }
    {
        let found = self.graphs.get(&name);
        if must && found.is_none() {
            return Reply::Refused(Refusal::NoSuchGraph { graph_name: name });
        }
        match graphs::found_lines(alloc, &name, found) {
            Ok(lines) => {
                self.graphs.remove(&name);
                Reply::Graphs(lines)
            }
            Err(_mem) => Reply::Refused(Refusal::Mem),
        }
    }
}

// Whether a refusal is want of memory.
fn wants_memory(why: &Refusal) -> bool
    ensures { result ≡ is_memory why.now }
{
    matches!(why, Refusal::Mem)
}
