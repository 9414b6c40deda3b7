// One job of a user.
ghost use Rattle.std.specs.Prelude.{◌≡◌, map, position, IfOk};
ghost use Rattle.std.specs.List.{list_any};
ghost use Rattle.graph_making.specs.Making.{plain_capture};
ghost use Rattle.desk_model.specs.State.{Make};
ghost use Rattle.desk_model.specs.Jobs.{is_numbered, is_job_named, new_job, next_job_name, job_line};

use desk_model::{JobKind, JobLine};
use graph_making::{Captured, MakeSpec};
use graph_model::{List, Mem, Tag, TryClone};
use std::alloc::Global;
use std::marker::Model;
use std::snapshot::Snapshot;

/// A job that makes a graph. What it captured and what it was asked for are held by who makes the graph; contracts see them
/// here as well.
#[derive(Drop)]
pub struct Job {
    pub(crate) number: u32,
    pub(crate) name: Tag,
    pub(crate) graph: Tag,
    pub(crate) asked: bool,
    captured: Snapshot<Captured>,
    spec: Snapshot<MakeSpec>,
}

impl Model for Job {
    ghost use Rattle.graph_making.specs.Making.{plain_capture};
    ghost use Rattle.desk_model.specs.State.{Job, Make};
    ghost use Rattle.desk_model.specs.Jobs.{new_job};

    ghost Value = { Job };

    ghost view = { λ job. record (new_job job.number job.name (plain_capture job.captured.value) (Make job.graph job.spec.value)) { asked = job.asked } };
}

impl Job {
    /// A job as it begins.
    pub(crate) fn new(
        number: u32,
        name: Tag,
        graph: Tag,
        captured: &Captured,
        spec: &MakeSpec,
    ) -> Job
        ensures { result ≡ new_job number name (plain_capture captured.now) (Make graph spec.now) }
    {
        Job {
            number,
            name,
            graph,
            asked: false,
            captured: Snapshot::of(captured),
            spec: Snapshot::of(spec),
        }
    }

    /// What is told of the job.
    ///
    /// # Errors
    /// `Mem` where there is no memory for it.
    pub(crate) fn line(&self) -> Result<JobLine, Mem>
        ensures { IfOk result (λ line. line ≡ job_line self.now) }
    {
        Ok(JobLine {
            name: self.name.try_clone()?,
            kind: JobKind::Making,
            asked: self.asked,
            batches: 0,
        })
    }
}

/// The place of the job of a number.
pub(crate) fn place_of(jobs: &[Job], number: u32) -> Option<usize>
    ensures { result ≡ position (is_numbered number) jobs.now }
{
    jobs.iter().position(|job| job.number == number)
}

/// The place of the job of a name.
pub(crate) fn place_named(jobs: &[Job], name: &Tag) -> Option<usize>
    ensures { result ≡ position (is_job_named name.now) jobs.now }
{
    jobs.iter().position(|job| job.name == *name)
}

/// Whether there is a job of a name.
pub(crate) fn has_named(jobs: &[Job], name: &Tag) -> bool
    ensures { result ≡ list_any (is_job_named name.now) jobs.now }
{
    jobs.iter().any(|job| job.name == *name)
}

/// The name of a job: the one that is given, else `job-` and its number.
///
/// # Errors
/// `Mem` where there is no memory for it.
pub(crate) fn next_name(alloc: Global, given: Option<Tag>, number: u32) -> Result<Tag, Mem>
    ensures { IfOk result (λ name. name ≡ next_job_name given number) }
{
    match given {
        Some(name) => Ok(name),
        None => numbered_name(alloc, number),
    }
}

// The name that a job gets to which none is given.
fn numbered_name(alloc: Global, number: u32) -> Result<Tag, Mem>
    ensures { IfOk result (λ name. name ≡ next_job_name None number) }
{
    let text = format!(in alloc; "job-{number}")?;
    // The text is a tag, so reading it wants but memory.
    match Tag::read(alloc, text.as_str().as_bytes()) {
        Ok(name) => Ok(name),
        Err(_) => Err(Mem),
    }
}

/// What is told of each job.
///
/// # Errors
/// `Mem` where there is no memory for it.
pub(crate) fn lines_of(alloc: Global, jobs: &[Job]) -> Result<List<JobLine>, Mem>
    ensures { IfOk result (λ lines. lines ≡ map job_line jobs.now) }
{
    let mut lines = List::new(alloc);
    for job in jobs {
        lines.push(job.line()?)?;
    }
    Ok(lines)
}
