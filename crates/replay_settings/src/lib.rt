// What the lines of a script set of a state.
#![tactic(auto)]

mod send; // the send that a word spells
mod sequence; // the sequence that a word spells
pub mod setting; // the lines
