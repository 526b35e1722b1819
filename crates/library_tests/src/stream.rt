//! A caller that collects a stream's matches, and the tests of streams and of the program: worked rows over each form of an automaton
//! and under every cut, limits, refusals, and devices whose calls go by a list. Random streams are compared with the search in memory by
//! the program `compare`.

#[cfg(test)]
mod adapters;
#[cfg(test)]
mod automata;
pub mod collect;
#[cfg(test)]
mod devices;
#[cfg(test)]
mod failing;
#[cfg(test)]
mod failures;
#[cfg(test)]
mod leftmost_streams;
#[cfg(test)]
mod program;
#[cfg(test)]
mod scripted;
#[cfg(test)]
mod stream_finds;
#[cfg(test)]
mod streams;
