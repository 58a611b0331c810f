//! Tests of the crates of texts: files and sinks, the lines that commands print, scripts, command lines and reports.
#![tactic(auto)]

#[cfg(test)]
mod command_words_tests;
#[cfg(test)]
mod hit_report_tests;
#[cfg(test)]
mod made;
#[cfg(test)]
mod outside_tests;
#[cfg(test)]
mod report_lines_tests;
#[cfg(test)]
mod report_read_tests;
#[cfg(test)]
mod report_text_tests;
#[cfg(test)]
mod script_text_tests;
