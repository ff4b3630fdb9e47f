// The send under way, as text: `1b`, the command's byte after ESC, `:` and the place, which is a cell, `u` and the cell that a US stands before,
// `cr`, or the number of bytes that went; `-` for none.
use rules::{Place, Sending};
use std::fmt;
use terminal::{short_command, text_command};

#[derive(Clone, Copy)]
pub struct SendingText(pub Sending);

impl fmt::Display for SendingText {
    fn fmt<W: fmt::Write>(&self, f: &mut fmt::Formatter<W>) -> fmt::Result {
        match self.0 {
            Sending::Nothing => write!(f, "-"),
            Sending::Short(r, k) => write!(f, "1b{:02x}:{k}", short_command(r)),
            Sending::Text { all, segment, at } => {
                let command = text_command(all, segment);
                match at {
                    Place::Cell(i) => write!(f, "1b{command:02x}:{i}"),
                    Place::Break(i) => write!(f, "1b{command:02x}:u{i}"),
                    Place::Return => write!(f, "1b{command:02x}:cr"),
                }
            }
        }
    }
}
