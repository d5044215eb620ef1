//! Tests of the crates of a session: the plain answer, the asks of a script, the printed lines, the key's answer and whole
//! sessions, each shown by a worked example over the clinic, and `local` over tables of many pages, by each plan.
#![tactic(auto)]

#[cfg(test)]
mod clinic;
#[cfg(test)]
mod filters;
#[cfg(test)]
mod key_answers;
#[cfg(test)]
mod large_tables;
#[cfg(test)]
mod lines_told;
#[cfg(test)]
mod paces_kept;
#[cfg(test)]
mod plain_answers;
#[cfg(test)]
mod plans_chosen;
#[cfg(test)]
mod printed_lines;
#[cfg(test)]
mod texts_asked;
#[cfg(test)]
mod whole_sessions;

/// Does nothing: there are tests alone here. A program, since no crate stands on it and a library would be built of it.
fn main(_rt: HostRuntime) {}
