// What only prints: the page in a frame, the host message and the key labels, attributes, and what is told beside it. What members are sent is not
// made
// here.
pub mod attributes;
pub mod lines;
pub mod out;
pub mod picture;
pub mod report;
