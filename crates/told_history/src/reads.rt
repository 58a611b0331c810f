// The files of jobs, each read as its job asks.
ghost use Rattle.std.specs.Prelude.{◌≡◌, All, IfOk};
ghost use Rattle.std.specs.List.{AllZip};
ghost use Rattle.script_text.specs.FilesByLine.{bytes_at};
ghost use Rattle.told_history.specs.Reads.{HasItsFile, IsReadFor, IsReadOf, IsThere};

use crate::jobs::LaidJob;
use crate::records::{RecordRead, read_records};
use htss_defs::{OutOfMemory, Query};
use query_mol::{QueryRefusal, read_query};
use script_text::{Files, Job, Order};
use std::alloc::Global;

/// What the file of a job was read as: records, a query or where it is refused; a withdrawal has no file.
#[derive(Drop)]
pub enum JobRead {
    Records(Vec<RecordRead>),
    Asked(Result<Query, QueryRefusal>),
    Nothing,
}

/// What the files of these jobs are read as, in the order of the jobs.
pub fn read_jobs(
    alloc: Global,
    jobs: &[LaidJob<'_>],
    files: &Files,
) -> Result<Vec<JobRead>, OutOfMemory>
    requires { All (IsThere files.now) jobs.now }
    ensures { IfOk result (λ reads. AllZip (IsReadOf files.now) jobs.now reads.items) }
{
    let mut reads = Vec::with_capacity(alloc, jobs.len())?;
    for laid in jobs {
        reads.push(read_job(alloc, laid.job, files)?)?;
    }
    Ok(reads)
}

// What the file of a job is read as.
fn read_job(alloc: Global, job: &Job, files: &Files) -> Result<JobRead, OutOfMemory>
    requires { HasItsFile files.now job.now.line job.now.order }
    ensures { IfOk result (IsReadFor (bytes_at files.now job.now.line) job.now.order) }
{
    match &job.order {
        Order::Load { .. } => Ok(JobRead::Records(read_records(alloc, files.at(job.line))?)),
        Order::Search { .. } => Ok(JobRead::Asked(read_query(alloc, files.at(job.line))?)),
        Order::Withdraw { .. } => Ok(JobRead::Nothing),
    }
}
