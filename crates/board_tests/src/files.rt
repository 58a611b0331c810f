// Scripts, and the files that they name.
ghost use Rattle.std.specs.Prelude.{◌≤◌, ℕ, All, length, OnOk, IfOk};
ghost use Rattle.script_text.specs.declared.script.Order.{Order};
ghost use Rattle.board_jobs.specs.Jobs.{IsThere};

use script_text::{Files, Job, Order, Script, read_script};
use std::alloc::Global;
use std::test::Fail;

const C_SDF: &[u8] =
    b"c\n\n\n  1  0  0  0  0  0  0  0  0  0999 V2000\n    0.0000    0.0000    0.0000 C   0  0\nM  END\n$$$$\n";

const BAD_SDF: &[u8] =
    b"c\n\n\n  1  0  0  0  0  0  0  0  0  0999 V3000\n    0.0000    0.0000    0.0000 C   0  0\nM  END\n$$$$\n";

const A_SDF: &[u8] =
    b"ethanol\n\n\n  3  2  0  0  0  0  0  0  0  0999 V2000\n    0.0000    0.0000    0.0000 C   0  0\n    0.0000    0.0000    0.0000 C   0  0\n    0.0000    0.0000    0.0000 O   0  0\n  1  2  1  0\n  2  3  1  0\nM  END\n$$$$\nether\n\n\n  3  2  0  0  0  0  0  0  0  0999 V2000\n    0.0000    0.0000    0.0000 C   0  0\n    0.0000    0.0000    0.0000 O   0  0\n    0.0000    0.0000    0.0000 C   0  0\n  1  2  1  0\n  2  3  1  0\nM  END\n$$$$\n";

const CO_MOL: &[u8] =
    b"co\n\n\n  2  1  0  0  0  0  0  0  0  0999 V2000\n    0.0000    0.0000    0.0000 C   0  0\n    0.0000    0.0000    0.0000 O   0  0\n  1  2  1  0\nM  END\n";

// The names of files, and the parts of each.
const FILES: [(&str, &[&[u8]]); 7] = [
    ("c.sdf", &[C_SDF]),
    ("two.sdf", &[C_SDF, C_SDF]),
    ("six.sdf", &[C_SDF, C_SDF, C_SDF, C_SDF, C_SDF, C_SDF]),
    ("mixed.sdf", &[BAD_SDF, C_SDF, BAD_SDF]),
    ("bad.mol", &[BAD_SDF]),
    ("a.sdf", &[A_SDF]),
    ("co.mol", &[CO_MOL]),
];

fn joined(alloc: Global, parts: &[&[u8]]) -> Result<Vec<u8>, Fail>
    ensures { IfOk result (λ bytes. length bytes.items ≤ 1000000) }
{
    let mut bytes = Vec::new(alloc);
    for part in parts {
        bytes.extend_from_slice(part)?;
    }
    if bytes.len() > 1_000_000 {
        return Err("a file that is too long".into());
    }
    Ok(bytes)
}

fn bytes_of(alloc: Global, name: &str) -> Result<Vec<u8>, Fail>
    ensures { IfOk result (λ bytes. length bytes.items ≤ 1000000) }
{
    for (known, parts) in FILES {
        if known == name {
            return joined(alloc, parts);
        }
    }
    Err("no such file".into())
}

// The job's file, if it has one, is put for its line. What stood there for other jobs stands still.
fn put_file(alloc: Global, files: &mut Files, job: &Job) -> Result<(), Fail>
    ensures there { OnOk result (IsThere files.new job.now.line job.now.order) }
    ensures still { OnOk result
        ((line : ℕ) (order : Order) → IsThere files.old line order → IsThere files.new line order) }
{
    match &job.order {
        Order::Load { file } | Order::Search { file, .. } => {
            let bytes = bytes_of(alloc, file.text())?;
            files.put(job.line, bytes)?;
        }
        Order::Withdraw { .. } => {}
    }
    Ok(())
}

// The files of all jobs.
pub(crate) fn files_of(alloc: Global, jobs: &[Job]) -> Result<Files, Fail>
    ensures { IfOk result (λ files. All (λ job. IsThere files job.line job.order) jobs.now) }
{
    let mut files = Files::new(alloc);
    for job in jobs {
        put_file(alloc, &mut files, job)?;
    }
    Ok(files)
}

pub(crate) fn script_of(alloc: Global, text: &[u8]) -> Result<Script, Fail> {
    if text.len() > 1_000_000 {
        return Err("a script that is too long".into());
    }
    match read_script(alloc, text)? {
        Ok(script) => Ok(script),
        Err(_) => Err("no script".into()),
    }
}
