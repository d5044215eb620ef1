//! The key's side of the channel as a pump: what it wants to do next, and what each answer leads to; and a session of the key on
//! a link, move by move.
//!
//! A pump is given a catalog and a script. It takes no memory: texts are read as their asks come due, the catalog's bytes
//! are made as they are compared, and received bytes lie in a page of its caller. Its next move is the one that the definitions
//! give for the moves so far and their answers, and nothing else decides it.
//!
//! In a step the pump says what is wanted, the link does it, and the pump is told how it went. So each move is the one that
//! the definitions give for the moves before it and their answers, whatever the link answers.
#![tactic(auto)]

mod asks;
mod exchange;
mod forms;
mod judging;
pub mod laws;
mod missing;
pub mod pump;
mod rows;
pub mod state;
mod turning;
