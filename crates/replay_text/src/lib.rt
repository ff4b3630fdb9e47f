// The text of scripts and traces: what the words of a line spell, the output buffer and what is written to it, rooms and lists, digests.
#![tactic(auto)]

mod buffered;
pub mod digest;
pub mod rooms;
pub mod trace;
pub mod words;
