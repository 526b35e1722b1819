//! Devices in memory whose calls go by a list.

pub(crate) use bench::scripted::{ScriptedSink, ScriptedSource, Turn};
