// The files of jobs, read whole.
ghost use Rattle.std.specs.Prelude.{◌≡◌, ℕ, ◌≤◌, List, [], ◌∷◌, ◌++◌, ◌==◌, Some, All, OnOk, IfOk, IfErr};
ghost use Rattle.std.specs.Prelude.{if◌then◌else◌};
ghost use Rattle.outside.specs.Files.{WasRead};
ghost use Rattle.script_text.specs.declared.script.Job.{Job};
ghost use Rattle.script_text.specs.FilesByLine.{bytes_at};
ghost use Rattle.command_ends.specs.RunText.{CanBeRead, file_named, files_named, jobs_of};
ghost use Rattle.command_ends.specs.Outcomes.{stop_why};
ghost use Rattle.command_ends.specs.Ends.{ShelfGoesOn, seen};
ghost use Rattle.command_ends.specs.Stops.{IsStopOfFile};
ghost use Rattle.script_files.specs.JobFiles.{AreRising, HaveFiles, IsAfter, StopsAmong};

use command_ends::{Stop, read_file};
use outside::Shelf;
use script_text::{Files, Group, Job, Order};
use std::alloc::Global;

/// The files of these jobs by their lines, read in the order of the lines.
#[inline(never)]
pub fn read_files<'a, F: Shelf>(
    alloc: Global,
    jobs: &'a [Job],
    shelf: &mut F,
) -> Result<Files, Stop<'a>>
    requires { AreRising jobs.now }
    ensures have { IfOk result (λ files. HaveFiles (F.told shelf.old) files jobs.now) }
    ensures stop { IfErr result (λ stop. StopsAmong
        (seen F.told F.absent F.faults shelf.old) (seen F.told F.absent F.faults shelf.new)
        jobs.now (stop_why stop)) }
    ensures goes_on { ShelfGoesOn
        (seen F.told F.absent F.faults shelf.old) (seen F.told F.absent F.faults shelf.new) }
{
    let mut files = Files::new(alloc);
    add_files(alloc, jobs, shelf, &mut files)?;
    Ok(files)
}

/// The files of the jobs of all groups by their lines, read in the order of the lines.
#[inline(never)]
pub fn read_all_files<'a, F: Shelf>(
    alloc: Global,
    groups: &'a [Group],
    shelf: &mut F,
) -> Result<Files, Stop<'a>>
    requires { AreRising (jobs_of groups.now) }
    ensures have { IfOk result (λ files. HaveFiles (F.told shelf.old) files (jobs_of groups.now)) }
    ensures stop { IfErr result (λ stop. StopsAmong
        (seen F.told F.absent F.faults shelf.old) (seen F.told F.absent F.faults shelf.new)
        (jobs_of groups.now) (stop_why stop)) }
    ensures goes_on { ShelfGoesOn
        (seen F.told F.absent F.faults shelf.old) (seen F.told F.absent F.faults shelf.new) }
{
    let mut files = Files::new(alloc);
    for group in groups {
        add_files(alloc, group.jobs.as_slice(), shelf, &mut files)?;
    }
    Ok(files)
}

// Adds the files of these jobs to those of jobs that stand before them.
#[inline(never)]
fn add_files<'a, F: Shelf>(
    alloc: Global,
    jobs: &'a [Job],
    shelf: &mut F,
    files: &mut Files,
) -> Result<(), Stop<'a>>
    ensures have { OnOk result ((before : List Job) → AreRising (before ++ jobs.now)
        → HaveFiles (F.told shelf.old) files.old before → HaveFiles (F.told shelf.old) files.new (before ++ jobs.now)) }
    ensures read { OnOk result (All (CanBeRead (F.told shelf.old)) (files_named jobs.now)) }
    ensures stop { IfErr result (λ stop. StopsAmong
        (seen F.told F.absent F.faults shelf.old) (seen F.told F.absent F.faults shelf.new)
        jobs.now (stop_why stop)) }
    ensures goes_on { ShelfGoesOn
        (seen F.told F.absent F.faults shelf.old) (seen F.told F.absent F.faults shelf.new) }
{
    for job in jobs {
        read_file_of(alloc, job, shelf, files)?;
    }
    Ok(())
}

// Reads the file of a job, if it has one, and puts it by the job's line.
fn read_file_of<'a, F: Shelf>(
    alloc: Global,
    job: &'a Job,
    shelf: &mut F,
    files: &mut Files,
) -> Result<(), Stop<'a>>
    ensures have { OnOk result ((jobs : List Job) → IsAfter jobs job.now.line
        → HaveFiles (F.told shelf.old) files.old jobs
        → HaveFiles (F.told shelf.old) files.new (jobs ++ job.now ∷ [])) }
    ensures read { OnOk result (All (CanBeRead (F.told shelf.old)) (file_named job.now.order)) }
    ensures stop { IfErr result (λ stop. StopsAmong
        (seen F.told F.absent F.faults shelf.old) (seen F.told F.absent F.faults shelf.new)
        (job.now ∷ []) (stop_why stop)) }
    ensures goes_on { ShelfGoesOn
        (seen F.told F.absent F.faults shelf.old) (seen F.told F.absent F.faults shelf.new) }
{
    match &job.order {
        Order::Load { file } => read_into(alloc, file.text(), job.line, shelf, files),
        Order::Withdraw { .. } => Ok(()),
        Order::Search { file, .. } => read_into(alloc, file.text(), job.line, shelf, files),
    }
}

// Reads a file and puts it by the line.
fn read_into<'a, F: Shelf>(
    alloc: Global,
    name: &'a str,
    line: u32,
    shelf: &mut F,
    files: &mut Files,
) -> Result<(), Stop<'a>>
    ensures put { OnOk result ((bytes : List ℕ) × WasRead (F.told shelf.old) name.now bytes
        × ((asked : ℕ) → bytes_at files.new asked ≡ (if asked == line then Some bytes else bytes_at files.old asked))) }
    ensures stop { IfErr result (λ stop. IsStopOfFile
        (seen F.told F.absent F.faults shelf.old) (seen F.told F.absent F.faults shelf.new)
        name.now (stop_why stop)) }
    ensures goes_on { ShelfGoesOn
        (seen F.told F.absent F.faults shelf.old) (seen F.told F.absent F.faults shelf.new) }
{
    let bytes = read_file(alloc, name, shelf)?;
    files.put(line, bytes)?;
    Ok(())
}
