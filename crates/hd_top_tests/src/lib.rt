//! Tests of the program through its one call, over sources and sinks in memory.
#![tactic(auto)]

#[cfg(test)]
mod faults;
#[cfg(test)]
mod runs;
#[cfg(test)]
mod worked;
