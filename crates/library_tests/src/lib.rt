//! The tests of the libraries: the worked rows, refusals and limits, and streams. Every short text and random ones are compared with the
//! plain program by the program `compare`.
#![tactic(auto)]

#[cfg(test)]
mod asserts;
#[cfg(test)]
mod automata;
#[cfg(test)]
mod building;
#[cfg(test)]
mod calls;
#[cfg(test)]
mod compiling;
#[cfg(test)]
mod covering;
#[cfg(test)]
mod errors;
#[cfg(test)]
mod forms;
#[cfg(test)]
mod hybrid;
#[cfg(test)]
mod iteration;
#[cfg(test)]
mod levels;
#[cfg(test)]
mod lists;
#[cfg(test)]
mod lookups;
pub mod names;
#[cfg(test)]
mod numbers;
#[cfg(test)]
mod one_byte;
#[cfg(test)]
mod options;
#[cfg(test)]
mod overlaps;
#[cfg(test)]
mod prefilter;
#[cfg(test)]
mod read_out;
#[cfg(test)]
mod reading;
#[cfg(test)]
mod relinked;
#[cfg(test)]
mod replacing;
#[cfg(test)]
mod rows;
#[cfg(test)]
mod settings;
pub mod stream;
#[cfg(test)]
mod tables;
#[cfg(test)]
mod worked;
