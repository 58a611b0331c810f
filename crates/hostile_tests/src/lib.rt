//! Tests of hostile use, of the top call over files and sinks in memory: each read and each write of each command fails
//! in turn, each file is cut after each byte, boards are as small as they may be, drawn records are loaded and searched
//! beside plain ways to do so, and the reports of drawn scripts are audited, whole, cut, and changed in one word.
#![tactic(auto)]

#[cfg(test)]
mod audits;
#[cfg(test)]
mod beside;
#[cfg(test)]
mod changed_reports;
#[cfg(test)]
mod cut_files;
#[cfg(test)]
mod differences;
#[cfg(test)]
mod drawn;
#[cfg(test)]
mod drawn_scripts;
#[cfg(test)]
mod failing_outside;
#[cfg(test)]
mod lines;
#[cfg(test)]
mod made;
#[cfg(test)]
mod pieces;
#[cfg(test)]
mod small_boards;
