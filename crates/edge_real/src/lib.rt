//! The outside as it is: files in the file system, lines on the standard output and connections over TCP.
//!
//! These objects tell nothing of what they hold. What is proved of them is how they count their faults. Others hand on to
//! any depot or device what they are given, and tell on a terminal how the work goes on.
#![tactic(auto)]

pub mod dir_depot;
pub mod file_fault;
pub mod file_flash;
pub mod file_name;
pub mod kept_depot;
pub mod kept_flash;
pub mod lock;
mod places;
pub mod plain_words;
pub mod progress;
pub mod replaced;
pub mod std_sink;
pub mod tcp_link;
pub mod told_depot;
pub mod told_flash;
pub mod told_sink;
mod whole_file;
