//! The words of the program: the command whose form they have, judged without taking memory, and
//! what they ask for.
#![tactic(auto)]

mod command;
mod command_lines;
mod demo;
mod found;
mod jobs;
mod limits;

pub use command::{Command, command_of};
pub use demo::Demo;
pub use jobs::{CheckJob, Job, RunJob, job_of};
