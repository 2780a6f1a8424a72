//! Tests of the public calls of the libraries. They stand in a crate of their own, as a crate with tests is proved twice. It has nothing for
//! callers. This project's own.
#![tactic(auto)]

#[cfg(test)]
mod cues;
#[cfg(test)]
mod cycle_gaps;
#[cfg(test)]
mod daemon;
#[cfg(test)]
mod daemon_upstream;
#[cfg(test)]
mod due_sinks;
#[cfg(test)]
mod hand_offs;
#[cfg(test)]
mod lanes;
#[cfg(test)]
mod numbered;
#[cfg(test)]
mod readings;
#[cfg(test)]
mod segment_threads;
#[cfg(test)]
mod segments;
#[cfg(test)]
mod texts;
#[cfg(test)]
mod workload_text;
