// The bytes of the host, one by one to the terminal, and what came of them. A reply that does not fit the room begins, and goes on before the next
// byte.
ghost use Rattle.std.specs.Prelude.{◌≡◌, ℕ, ◌*◌, true, List, [], length, IfOk, OnErr, unwrap_or};
ghost use Rattle.rules.specs.Cell.{pick};
ghost use Rattle.rules.specs.Row.{height, columns, narrow_cells, wide_cells};
ghost use Rattle.rules.specs.Possible.{power_on, blank};
ghost use Rattle.rules.specs.Step.{step_rule};
ghost use Rattle.rules.specs.Calls.{run_rule};
ghost use Rattle.alert.specs.Watch.{start_on, Took, Ended, goes_on, watch, finished, most_times, watched, FedBy, Fed, Came};

use rules::{Answer, Personality, State};
use state::sending::is_sending;
use std::io;
use std::io::Read;

// No reply is longer: that of a wide page.
const LONGEST: usize = 3192;

// The bytes refused, by answer: 1 to 4 in this order, and the rest.
#[derive(Clone, Copy)]
pub struct Refusals {
    pub high: u64,
    pub unknown: u64,
    pub argument: u64,
    pub barred: u64,
    pub other: u64,
}

#[derive(Clone, Copy)]
pub struct Played {
    pub state: State,
    pub refusals: Refusals,
    pub bytes: u64,
    // reply bytes in all, and those of them that the log holds
    pub replied: u64,
    pub kept: usize,
    // no byte above 7Fh has changed the page
    pub clean: bool,
}

// Power-on, on a narrow page.
fn start_narrow(page: &mut [u16], personality: Personality) -> State
    requires { length page.old ≡ narrow_cells }
    ensures { (result ≡ power_on personality) × (page.new ≡ blank) }
{
    terminal::power_on(page, personality).state
}

// Power-on, and the conversion to the other width. It is never refused: a blank page loses nothing, and nothing is sent.
fn start_wide(page: &mut [u16], personality: Personality) -> State
    requires { length page.old ≡ wide_cells }
    ensures { (result ≡ (start_on true personality).state) × (page.new ≡ (start_on true personality).target) }
{
    let mut narrow = [0u16; 1920];
    let state = start_narrow(&mut narrow, personality);
    terminal::convert(&narrow, state, page).unwrap_or(state)
}

fn start(page: &mut [u16], wide: bool, personality: Personality) -> State
    requires { length page.old ≡ height * columns wide }
    ensures { (result ≡ (start_on wide personality).state) × (page.new ≡ (start_on wide personality).target) }
{
    if wide {
        return start_wide(page, personality);
    }
    start_narrow(page, personality)
}

// No byte has come yet.
fn begun(state: State) -> Played
    ensures { result.state ≡ state }
{
    Played {
        state,
        refusals: Refusals {
            high: 0,
            unknown: 0,
            argument: 0,
            barred: 0,
            other: 0,
        },
        bytes: 0,
        replied: 0,
        kept: 0,
        clean: true,
    }
}

fn counted(r: Refusals, a: Answer, taken: bool) -> Refusals {
    match a {
        Answer::Done if taken => r,
        Answer::HighByte => Refusals {
            high: r.high.wrapping_add(1),
            ..r
        },
        Answer::Unknown => Refusals {
            unknown: r.unknown.wrapping_add(1),
            ..r
        },
        Answer::BadArgument => Refusals {
            argument: r.argument.wrapping_add(1),
            ..r
        },
        Answer::Barred => Refusals {
            barred: r.barred.wrapping_add(1),
            ..r
        },
        Answer::Done | Answer::NoRoom | Answer::BadCall | Answer::Locked => Refusals {
            other: r.other.wrapping_add(1),
            ..r
        },
    }
}

// Bytes more in the log, as far as it has room; answers how many it holds then.
fn keep(log: &mut [u8], at: usize, bytes: &[u8]) -> usize {
    let mut n = at;
    for b in bytes {
        if n < log.len() {
            log[n] = *b;
            n += 1;
        }
    }
    n
}

// One byte to the terminal.
fn step(page: &mut [u16], p: Played, byte: u8, room: &mut [u8], log: &mut [u8]) -> Played
    ensures { Took (step_rule page.old p.state byte (length room.old)) result.state page.new }
{
    let r = terminal::step(page, p.state, byte, room);
    Played {
        state: r.state,
        refusals: counted(p.refusals, r.answer, r.taken),
        bytes: p.bytes.wrapping_add(1),
        replied: p.replied.wrapping_add(r.replied as u64),
        kept: keep(log, p.kept, &room[..r.replied]),
        ..p
    }
}

// The send under way goes on, as far as the room takes it.
fn resume(page: &mut [u16], p: Played, room: &mut [u8], log: &mut [u8]) -> Played
    ensures { Ended (run_rule page.old p.state [] (length room.old)) result.state page.new }
{
    let r = terminal::run(page, p.state, b"", room);
    Played {
        state: r.state,
        replied: p.replied.wrapping_add(r.replied as u64),
        kept: keep(log, p.kept, &room[..r.replied]),
        ..p
    }
}

// It goes on until it is over. Each time it sends a byte at least.
fn finish(page: &mut [u16], p: Played, room: &mut [u8], log: &mut [u8]) -> Played
    ensures { (d : List ℕ)
        → watch page.new d result.state ≡ finished (length room.old) most_times (watch page.old d p.state) }
{
    let mut t = p;
    for i in 0..LONGEST {
        if !is_sending(t.state.sending) {
            return t;
        }
        t = resume(page, t, room, log);
    }
    t
}

// A byte above 7Fh: the page is compared with what it was before.
fn step_high(
    page: &mut [u16],
    before: &mut [u16],
    p: Played,
    byte: u8,
    room: &mut [u8],
    log: &mut [u8],
) -> Played
    requires { length page.old ≡ length before.old }
    ensures { Took (step_rule page.old p.state byte (length room.old)) result.state page.new }
{
    before.copy_from_slice(page);
    let t = step(page, p, byte, room, log);
    Played {
        clean: t.clean && *page == *before,
        ..t
    }
}

fn take(
    page: &mut [u16],
    before: &mut [u16],
    p: Played,
    byte: u8,
    room: &mut [u8],
    log: &mut [u8],
) -> Played
    requires { length page.old ≡ length before.old }
    ensures { Took (step_rule page.old p.state byte (length room.old)) result.state page.new }
{
    if byte < 0x80 {
        step(page, p, byte, room, log)
    } else {
        step_high(page, before, p, byte, room, log)
    }
}

// Where protect mode has just gone on, the page is kept as the host drew it.
fn remember(page: &[u16], drawn: &mut [u16], was: bool, is: bool)
    requires { length page.now ≡ length drawn.old }
    ensures { drawn.new ≡ pick (goes_on was is) page.now drawn.old }
{
    if is && !was {
        drawn.copy_from_slice(page);
    }
}

fn obey(
    page: &mut [u16],
    before: &mut [u16],
    drawn: &mut [u16],
    p: Played,
    byte: u8,
    room: &mut [u8],
    log: &mut [u8],
) -> Played
    requires { (length page.old ≡ length before.old) × (length page.old ≡ length drawn.old) }
    ensures { watch page.new drawn.new result.state
        ≡ watched (length room.old) (watch page.old drawn.old p.state) byte }
{
    let t = take(page, before, p, byte, room, log);
    remember(
        page,
        drawn,
        p.state.core.modes.protect,
        t.state.core.modes.protect,
    );
    finish(page, t, room, log)
}

fn feed(
    page: &mut [u16],
    before: &mut [u16],
    drawn: &mut [u16],
    p: Played,
    input: &[u8],
    room: &mut [u8],
    log: &mut [u8],
) -> Played
    requires { (length page.old ≡ length before.old) × (length page.old ≡ length drawn.old) }
    ensures { FedBy input.now (length room.old) (watch page.old drawn.old p.state)
        (watch page.new drawn.new result.state) }
{
    let mut t = p;
    for b in input {
        t = obey(page, before, drawn, t, *b, room, log);
    }
    t
}

// One piece of the stream, of any size; none at its end. Where reading fails nothing is played.
fn piece(
    host: &mut impl Read,
    page: &mut [u16],
    before: &mut [u16],
    drawn: &mut [u16],
    p: Played,
    room: &mut [u8],
    log: &mut [u8],
) -> io::Result<Option<Played>>
    requires { (length page.old ≡ length before.old) × (length page.old ≡ length drawn.old) }
    ensures fed { IfOk result (λ r. Fed (length room.old) (watch page.old drawn.old p.state)
        (watch page.new drawn.new (unwrap_or r p).state)) }
    ensures err { OnErr result ((page.new ≡ page.old) × (drawn.new ≡ drawn.old)) }
{
    let mut input = [0u8; 4096];
    let n = host.read(&mut input)?;
    if n == 0 {
        return Ok(None);
    }
    Ok(Some(feed(page, before, drawn, p, &input[..n], room, log)))
}

// All pieces. A proved loop has to end, and nothing says that a stream does: it counts to a number that no stream uses up.
// Where reading fails, the pages are as the pieces before left them.
fn pieces(
    host: &mut impl Read,
    page: &mut [u16],
    before: &mut [u16],
    drawn: &mut [u16],
    start: Played,
    room: &mut [u8],
    log: &mut [u8],
) -> io::Result<Played>
    requires { (length page.old ≡ length before.old) × (length page.old ≡ length drawn.old) }
    ensures fed { IfOk result (λ r. Fed (length room.old) (watch page.old drawn.old start.state)
        (watch page.new drawn.new r.state)) }
    ensures err { OnErr result ((s : State) × Fed (length room.old) (watch page.old drawn.old start.state)
        (watch page.new drawn.new s)) }
{
    let mut p = start;
    for i in 0..u64::MAX {
        let next = piece(host, page, before, drawn, p, room, log)?;
        let Some(t) = next else {
            break;
        };
        p = t;
    }
    Ok(p)
}

// The whole stream, from the power-on of a personality, on a wide page or a narrow one. `before` is for the comparison of pages, and `drawn` comes
// back as the page was when protect mode last went on; the log comes back with the first bytes of the replies. Where reading fails, the pages are
// as the bytes before left them.
pub fn play(
    host: &mut impl Read,
    wide: bool,
    personality: Personality,
    page: &mut [u16],
    before: &mut [u16],
    drawn: &mut [u16],
    room: &mut [u8],
    log: &mut [u8],
) -> io::Result<Played>
    requires { (length page.old ≡ height * columns wide)
        × ((length page.old ≡ length before.old) × (length page.old ≡ length drawn.old)) }
    ensures came { IfOk result (λ r. Came page.new drawn.new r.state) }
    ensures err { OnErr result ((s : State) × Came page.new drawn.new s) }
{
    let state = start(page, wide, personality);
    let p = begun(state);
    pieces(host, page, before, drawn, p, room, log)
}
