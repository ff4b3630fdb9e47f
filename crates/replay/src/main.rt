// Runs a script of calls against the terminal and writes its trace: the script on standard input, the trace on standard output.
#![tactic(auto)]

mod bench; // the terminal, what is kept from line to line, and what a line does
mod calls; // lines that call
mod lists; // what is lent to calls
mod script; // a line as a command
mod source; // the lines of the input

use bench::Bench;
use replay_text::rooms::split;
use replay_text::trace::Trace;
use source::Lines;
use std::io;
use std::io::{Read, Write};

// The longest byte string that a line can have.
const INPUT: usize = 32768;

// A line that fits none of the forms is named on standard error, and the run ends there.
fn tell(said: &impl Print, number: u64, line: &[u8]) -> io::Result<()> {
    said.print(format_args!("replay: line {number} fits none of the forms: "))?;
    let (line, _) = split(line, 200);
    said.write_all(line)?;
    said.write_all(b"\n")
}

// A proved loop has to end, and nothing says that the input does: no script has so many lines.
// Where the input fails, the trace up to there is still written.
fn replay(from: &mut impl Read, to: &mut impl Write, said: &impl Print) -> io::Result<()> {
    let mut bench = Bench::new();
    let mut input = [0; INPUT];
    let mut lines = Lines::new(from);
    for number in 1..u64::MAX {
        let line = match lines.next(said, number) {
            Ok(Some(line)) => line,
            Ok(None) => break,
            Err(e) => {
                to.flush()?;
                return Err(e);
            }
        };
        if bench.obey(to, line, &mut input)?.is_none() {
            let told = tell(said, number, line);
            to.flush()?;
            return told;
        }
    }
    to.flush()
}

fn main(rt: HostRuntime) -> io::Result<()> {
    let mut from = rt.stdin();
    let said = rt.stderr();
    replay(&mut from, &mut Trace::new(&rt), &said)
}
