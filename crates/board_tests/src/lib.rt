//! Tests of the board and of what stands on it: the words of blocks (block_words), the steps of callers (board), the
//! lock (pub_log), records that are staged (loader), searches (searcher), jobs (board_jobs), and groups of jobs
//! (script_run).
#![tactic(auto)]

#[cfg(test)]
mod blocks;
#[cfg(test)]
mod callers;
#[cfg(test)]
mod files;
#[cfg(test)]
mod groups;
#[cfg(test)]
mod jobs;
#[cfg(test)]
mod locks;
#[cfg(test)]
mod made;
#[cfg(test)]
mod searches;
#[cfg(test)]
mod staging;
