// Plays a host stream to the terminal and shows what came of it: the page, what was refused, what members are sent, and the replies. The
// stream is standard input, or the file that is named; --first and --last choose the pieces that members are sent. The terminal is a WY-50, or with
// -6 a WY-60; its page is narrow, or with -w wide.
#![tactic(auto)]

mod cells;
mod guarded;
mod message;
mod options;
mod print;
mod put;
mod stream;

ghost use Rattle.std.specs.Prelude.{◌≡◌, ℕ, ◌*◌, List, length};
ghost use Rattle.rules.specs.Row.{height, columns as columns_of};
ghost use Rattle.rules.specs.State.{page_length};
ghost use Rattle.alert.specs.Watch.{Came};

use options::Options;
use print::{attributes, out, picture, report};
use rules::State;
use state::screen::cursor_of;
use std::env::FillError;
use std::fmt::InlineText;
use std::io::{ErrorKind, Read};
use std::rt::{Env, Files};
use std::{fs, io, str};
use stream::Played;

// The system's words for an error, without its number.
fn without_number(text: &str) -> &str {
    match text.split_once(" (os error ") {
        Some((words, _)) => words,
        None => text,
    }
}

// What stopped the reading, with the reason.
fn unreadable(rt: &impl Eprint, name: &str, why: io::Error) -> io::Result<()> {
    let text = InlineText::<256>::of(why);
    let reason = without_number(text.as_str());
    eprintln!(rt; "alert: cannot read {name}: {reason}")
}

// Prints what is told of the guarded cells.
fn show_guarded(rt: &impl Print, page: &[u16], drawn: &[u16], state: State) -> io::Result<()>
    requires { (length page.now ≡ page_length state.core.screen)
        × ((length page.now ≡ length drawn.now) × Came page.now drawn.now state) }
{
    let mut room = [0u8; 256];
    let screen = state.core.screen;
    let n = guarded::line(
        &mut room,
        page,
        drawn,
        screen.wide,
        state.core.modes.protect,
    );
    out::text(rt, &room[..n])
}

// Prints what members are sent. Its room is 211 bytes and 17 for each of the longest reply: no message is longer.
fn show_message(rt: &impl Print, page: &mut [u16], state: State, o: Options) -> io::Result<()>
    requires { (drawn : List ℕ) × Came page.old drawn state }
{
    let mut room = [0u8; 54475];
    let n = message::message(&mut room, page, state, o.first, o.last);
    out::text(rt, &room[..n])
}

fn show(
    rt: &impl Print,
    name: &str,
    page: &mut [u16],
    drawn: &[u16],
    p: Played,
    log: &[u8],
    o: Options,
) -> io::Result<()>
    requires { (length page.old ≡ page_length p.state.core.screen)
        × ((length page.old ≡ length drawn.now) × Came page.old drawn.now p.state) }
{
    let state = p.state;
    let core = state.core;
    let setup = state.setup;
    let screen = core.screen;
    let modes = core.modes;
    let protect = modes.protect;
    let wide = screen.wide;
    let pending = core.pending;
    let refusals = p.refusals;
    report::heading(rt, name, p.bytes)?;
    picture::show(rt, page, wide, protect, cursor_of(screen), setup)?;
    report::place(rt, page, protect, screen)?;
    report::modes(rt, modes)?;
    attributes::remembered(rt, core.attribute)?;
    attributes::show(rt, page, wide)?;
    report::wish(rt, wide, setup.wish)?;
    report::sequence(rt, pending)?;
    show_guarded(rt, page, drawn, state)?;
    report::refused(rt, refusals, p.bytes, p.clean)?;
    show_message(rt, page, state, o)?;
    report::replies(rt, p, log)
}

// Plays the stream on these pages, wide or narrow, and shows what came of it.
fn play_on(
    rt: &(impl Print + Eprint),
    host: &mut impl Read,
    name: &str,
    wide: bool,
    page: &mut [u16],
    before: &mut [u16],
    drawn: &mut [u16],
    o: Options,
) -> io::Result<()>
    requires { (length page.old ≡ height * columns_of wide)
        × ((length page.old ≡ length before.old) × (length page.old ≡ length drawn.old)) }
{
    let mut room = [0u8; 64];
    let mut log = [0u8; 4096];
    let played = stream::play(
        host,
        wide,
        o.personality,
        page,
        before,
        drawn,
        &mut room,
        &mut log,
    );
    match played {
        Ok(p) => show(rt, name, page, drawn, p, &log, o),
        Err(why) => unreadable(rt, name, why),
    }
}

// The same on pages of N cells.
fn play_sized<const N: usize>(
    rt: &(impl Print + Eprint),
    host: &mut impl Read,
    name: &str,
    o: Options,
) -> io::Result<()>
    requires { N ≡ height * columns_of o.wide }
{
    let mut page = [0u16; N];
    let mut before = [0u16; N];
    let mut drawn = [0u16; N];
    play_on(
        rt,
        host,
        name,
        o.wide,
        &mut page,
        &mut before,
        &mut drawn,
        o,
    )
}

fn play(
    rt: &(impl Print + Eprint),
    host: &mut impl Read,
    name: &str,
    o: Options,
) -> io::Result<()> {
    if o.wide {
        play_sized::<3168>(rt, host, name, o)
    } else {
        play_sized::<1920>(rt, host, name, o)
    }
}

// Why an argument is not there to be read.
fn unfilled(e: FillError) -> io::Error {
    match e {
        FillError::NotPresent => io::Error::new(ErrorKind::InvalidInput, "Invalid argument"),
        FillError::TooLong => io::Error::new(ErrorKind::InvalidFilename, "File name too long"),
    }
}

// A file is opened by a name in UTF-8.
fn open_and_play<R: Files + Print + Eprint>(rt: &R, path: &[u8], o: Options) -> io::Result<()> {
    let Ok(name) = str::from_utf8(path) else {
        let why = io::Error::new(ErrorKind::InvalidFilename, "its name is not UTF-8");
        return unreadable(rt, "the file that is named", why);
    };
    match fs::open(rt, name) {
        Ok(mut file) => play(rt, &mut file, name, o),
        Err(why) => unreadable(rt, name, why),
    }
}

// The file that argument i names.
fn play_file<R: Env + Files + Print + Eprint>(rt: &R, i: usize, o: Options) -> io::Result<()> {
    let mut path = [0u8; 4096];
    match rt.arg(i, &mut path) {
        Ok(n) => open_and_play(rt, &path[..n], o),
        Err(e) => unreadable(rt, "the file that is named", unfilled(e)),
    }
}

fn main(rt: HostRuntime) -> io::Result<()> {
    let Ok(o) = options::read(&rt) else {
        return eprintln!(rt; "usage: alert [-6] [-w] [--first PIECE] [--last PIECE] [FILE]");
    };
    match o.file {
        Some(i) => play_file(&rt, i, o),
        None => play(&rt, &mut rt.reader(), "standard input", o),
    }
}
