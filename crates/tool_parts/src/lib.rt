//! What the tools share, over any reader and writers. Each tool gives it the arguments and the streams of its process.
//!
//! `acfind` and `acdraw` take their arguments, their failures and the writing of whole pieces from here, `acgrep` and `acredact`
//! the reading of options and what is told of files. The call of `acfind` is here too, so that tests can run it.
#![tactic(auto)]

pub mod arguments;
pub mod building;
pub mod closed;
pub mod command;
pub mod errors;
pub mod failure;
pub mod options;
pub mod parts;
pub mod patient;
pub mod print;
pub mod reason;
mod replace;
pub mod run;
mod searcher;
pub mod unopened;
