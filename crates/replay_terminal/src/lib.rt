// Lines that call the terminal or read its page: what each writes behind its word, up to the state.
#![tactic(auto)]

pub mod calls; // the terminal
pub mod noise; // pages of noise
pub mod reading; // fields, rows and places
