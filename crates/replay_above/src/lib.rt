// Lines that call what stands above the terminal: what each writes behind its word, up to the state.
#![tactic(auto)]

pub mod counting; // the counter, and its entry for C
pub mod mending; // a page made one of writable cells
pub mod repainting; // the distant display
pub mod store; // saved set-ups
