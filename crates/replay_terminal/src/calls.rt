// Lines that call the terminal. Each answers the state after the call.
use replay_text::digest;
use replay_text::trace::{ByteString, Numbers, Room};
use rules::{Answer, Personality, RunResult, State, StepResult};
use std::io;
use std::io::Write;

fn answered(to: &mut impl Write, a: Answer) -> io::Result<()> {
    write!(to, " answer={}", terminal::answer_number(a))
}

fn answer_of<T>(r: &Result<T, Answer>) -> Answer {
    match r {
        Ok(_) => Answer::Done,
        Err(a) => *a,
    }
}

pub fn on(to: &mut impl Write, m: Personality, page: &mut [u16]) -> io::Result<State> {
    let on = terminal::power_on(page, m);
    answered(to, on.answer)?;
    Ok(on.state)
}

fn plain(list: &[u16]) -> Numbers<'_> {
    Numbers {
        list,
        in_fours: false,
    }
}

fn row_list(to: &mut impl Write, rows: &[u16]) -> io::Result<()> {
    write!(to, " rows={}", plain(rows))
}

// The answer, the reply, and whether the step's own byte was taken.
fn stepped(to: &mut impl Write, r: &StepResult, room: &[u8]) -> io::Result<()> {
    answered(to, r.answer)?;
    let reply = Room {
        bytes: room,
        used: r.replied,
    };
    write!(to, " reply={reply} own={}", r.taken as u8)
}

// With the row list, where it is lent.
pub fn step(
    to: &mut impl Write,
    s: State,
    byte: u8,
    page: &mut [u16],
    rows: Option<&mut [u16]>,
    room: &mut [u8],
) -> io::Result<State> {
    match rows {
        Some(rows) => {
            let r = terminal::step_rows(page, rows, s, byte, room);
            stepped(to, &r, room)?;
            row_list(to, rows)?;
            Ok(r.state)
        }
        None => {
            let r = terminal::step(page, s, byte, room);
            stepped(to, &r, room)?;
            Ok(r.state)
        }
    }
}

// The byte of the command that a reply answers, `-` for none.
fn asked(to: &mut impl Write, command: u8) -> io::Result<()> {
    match command {
        0 => write!(to, " asked=-"),
        _ => write!(to, " asked={command:02x}"),
    }
}

fn counts(to: &mut impl Write, r: &RunResult) -> io::Result<()> {
    answered(to, r.answer)?;
    write!(
        to,
        " taken={} replied={} refused={}",
        r.taken, r.replied, r.refused
    )
}

// The part of the input that a run hands back, and its reply.
fn handed_back(to: &mut impl Write, r: &RunResult, input: &[u8], room: &[u8]) -> io::Result<()> {
    let rest = ByteString(terminal::rest(input, r.taken));
    let reply = Room {
        bytes: room,
        used: r.replied,
    };
    write!(to, " rest={rest} reply={reply}")
}

fn ran(to: &mut impl Write, r: &RunResult, input: &[u8], room: &[u8]) -> io::Result<()> {
    counts(to, r)?;
    handed_back(to, r, input, room)
}

// A run, with the row list where it is lent.
pub fn run(
    to: &mut impl Write,
    s: State,
    input: &[u8],
    page: &mut [u16],
    rows: Option<&mut [u16]>,
    room: &mut [u8],
) -> io::Result<State> {
    match rows {
        Some(rows) => {
            let r = terminal::run_rows(page, rows, s, input, room);
            ran(to, &r, input, room)?;
            row_list(to, rows)?;
            Ok(r.state)
        }
        None => {
            let r = terminal::run(page, s, input, room);
            ran(to, &r, input, room)?;
            Ok(r.state)
        }
    }
}

// A run up to the first reply or refusal, over a row list that may be empty.
fn up_to_first(
    to: &mut impl Write,
    s: State,
    input: &[u8],
    page: &mut [u16],
    rows: &mut [u16],
    room: &mut [u8],
) -> io::Result<State> {
    let r = terminal::next(page, rows, s, input, room);
    counts(to, &r)?;
    asked(
        to,
        terminal::reply_command(s.sending, input, r.taken, r.replied),
    )?;
    handed_back(to, &r, input, room)?;
    Ok(r.state)
}

pub fn next(
    to: &mut impl Write,
    s: State,
    input: &[u8],
    page: &mut [u16],
    rows: Option<&mut [u16]>,
    room: &mut [u8],
) -> io::Result<State> {
    match rows {
        Some(rows) => {
            let next = up_to_first(to, s, input, page, rows, room)?;
            row_list(to, rows)?;
            Ok(next)
        }
        None => up_to_first(to, s, input, page, &mut [], room),
    }
}

pub fn press(
    to: &mut impl Write,
    s: State,
    key: u8,
    page: &[u16],
    room: &mut [u8],
) -> io::Result<()> {
    let r = terminal::press(page, s, key, room);
    answered(to, answer_of(&r))?;
    let reply = Room {
        bytes: room,
        used: r.unwrap_or(0),
    };
    write!(to, " reply={reply}")
}

pub fn rebuild(to: &mut impl Write, s: State, page: &[u16], rows: &mut [u16]) -> io::Result<()> {
    answered(to, answer_of(&terminal::rebuild_rows(page, rows, s)))?;
    row_list(to, rows)
}

// The answer, whether the old page is as it was, and the target's digest. Done, the target is the page from then on, and the state that goes with it
// is answered.
pub fn convert(
    to: &mut impl Write,
    s: State,
    page: &[u16],
    target: &mut [u16],
) -> io::Result<Option<State>> {
    let before = digest::of(page);
    let r = terminal::convert(page, s, target);
    answered(to, answer_of(&r))?;
    let same = digest::of(page) == before;
    write!(to, " old={} target={:016x}", same as u8, digest::of(target))?;
    Ok(r.ok())
}

// All cells; of a page that has none, nothing stands where a row list has `-`.
pub fn show(to: &mut impl Write, page: &[u16]) -> io::Result<()> {
    if page.is_empty() {
        return write!(to, " cells=");
    }
    write!(to, " cells={}", plain(page))
}
