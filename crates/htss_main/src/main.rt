//! `htss`: a compound registry that is searched by substructure. This program finds the records of an SDfile into which
//! a query molecule embeds, checks the records of an SDfile, tells the codes of the atoms of a molfile, makes SDfiles
//! of generated records, and runs scripts that load, withdraw and search records. All that it does is done by the top
//! call (`htss_top`).
#![tactic(auto)]

use htss_top::exit;
use outside::{DirShelf, OutSink};
use std::process::ExitCode;
use std::{env, io};

fn main(rt: HostRuntime) -> ExitCode {
    let mut shelf = DirShelf::new(rt.alloc(), &rt);
    let mut out = OutSink::new(&rt);
    exit(&rt, rt.alloc(), words_of(&rt), &mut shelf, &mut out)
}

// The words after the program's name.
fn words_of(rt: &HostRuntime) -> io::Result<Vec<String>> {
    let mut words = env::args(rt)?;
    let _name = words.next();
    Ok(words.collect(rt.alloc())?)
}
