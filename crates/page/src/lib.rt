// The page: what a cell's number says, searches over the guarded cells, changes of cells, the text of a send, and a page at the other width.
// Each function gives what its definition in `rules` gives. The width is a parameter where rows matter.
#![tactic(auto)]

pub mod cell;
pub mod change;
pub mod convert;
pub mod rows;
pub mod search;
pub mod text;
