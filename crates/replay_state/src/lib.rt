// A state as text, as it stands at the end of a trace line.
#![tactic(auto)]

mod send; // the send under way
pub mod sequence; // the sequence under way
pub mod state_text; // the whole state
