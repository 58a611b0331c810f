//! Tests of the commands that never wait: command lines over files in memory, drawn queries, files that are checked,
//! made files, files that are left unread, and a standard output that takes a few bytes at a time.
#![tactic(auto)]

#[cfg(test)]
mod checked_files;
#[cfg(test)]
mod command_lines;
#[cfg(test)]
mod drawn_queries;
#[cfg(test)]
mod made;
#[cfg(test)]
mod made_files;
#[cfg(test)]
mod standard_output;
#[cfg(test)]
mod unread_files;
