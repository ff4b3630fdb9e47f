// What members are sent: the pieces of the terminal's own reply to ESC 5, and what they come to.
ghost use Rattle.std.specs.Prelude.{◌≡◌, ◌≤◌, length, is_none, unwrap_or};
ghost use Rattle.counter.specs.declared.Refusal.{Refusal};
ghost use Rattle.counter.specs.Pieces.{pieces};
ghost use Rattle.alert.specs.Room.{Puts};
ghost use Rattle.alert.specs.Message.{mode_note, is_shown, piece_line, piece_lines, count_line, told_line, sent as sent_of, last_of};
ghost use Rattle.alert.specs.Message.{message as message_of};

use crate::put;
use counter::{NoReply, Refusal, Size, count_alert, piece, pieces_in};
use rules::State;

// With protect mode off it is said so.
fn mode_note(room: &mut [u8], n: usize, protect: bool) -> usize
    ensures { Puts (mode_note protect) n room.old result room.new }
{
    if protect {
        return n;
    }
    put::bytes(
        room,
        n,
        b"  Protect mode is off; cells marked protected are left out all the same.\n",
    )
}

// Whether a piece is one of those wanted and has text.
fn is_shown(first: usize, last: usize, number: usize, text: &[u8]) -> bool
    ensures { result ≡ is_shown first last number text.now }
{
    first <= number && number <= last && !text.is_empty()
}

// The line of a piece.
fn line(room: &mut [u8], n: usize, first: usize, last: usize, number: usize, text: &[u8]) -> usize
    ensures { Puts (piece_line first last number text.now) n room.old result room.new }
{
    if !is_shown(first, last, number, text) {
        return n;
    }
    let a = put::bytes(room, n, b"  piece ");
    let b = put::decimal(room, a, number as u64);
    let c = put::bytes(room, b, b": \"");
    let d = put::bytes(room, c, text);
    put::bytes(room, d, b"\"\n")
}

// A line for each piece that is shown.
fn lines(room: &mut [u8], start: usize, reply: &[u8], first: usize, last: usize) -> usize
    ensures { Puts (piece_lines first last 1 (pieces reply.now)) start room.old result room.new }
{
    let count = pieces_in(reply);
    let mut n = start;
    for i in 0..count {
        let number = i + 1;
        n = line(room, n, first, last, number, piece(reply, number));
    }
    n
}

fn size(room: &mut [u8], n: usize, s: Size) -> usize
    ensures { Puts (count_line (Ok s)) n room.old result room.new }
{
    let a = put::bytes(room, n, b"  ");
    let b = put::count(room, a, s.units, b"unit");
    let c = put::bytes(room, b, b" without trailing spaces, ");
    let d = put::count(room, c, s.parts, b"text part");
    put::bytes(room, d, b"\n")
}

fn bad_byte(room: &mut [u8], n: usize, place: usize) -> usize
    ensures { Puts (count_line (Err (Refusal.BadByte place))) n room.old result room.new }
{
    let a = put::bytes(room, n, b"  Not counted: the character at place ");
    let b = put::decimal(room, a, place as u64);
    put::bytes(
        room,
        b,
        b" of the whole, from 0, is outside the alphabet.\n",
    )
}

#[tactic(auto, unfolding(crate::specs::Message::count_line))]
fn count(room: &mut [u8], n: usize, c: Result<Size, Refusal>) -> usize
    ensures { Puts (count_line c) n room.old result room.new }
{
    match c {
        Ok(s) => size(room, n, s),
        Err(Refusal::NoReturn) => put::bytes(
            room,
            n,
            b"  Not counted: the reply has no final CR.\n",
        ),
        Err(Refusal::BadFirst) => put::bytes(
            room,
            n,
            b"  Not counted: the first piece is 0 or above the last.\n",
        ),
        Err(Refusal::BadLast) => put::bytes(
            room,
            n,
            b"  Not counted: the last piece is beyond those of the reply.\n",
        ),
        Err(Refusal::BadByte(place)) => bad_byte(room, n, place),
    }
}

#[tactic(auto, unfolding(crate::specs::Message::told_line))]
fn told(room: &mut [u8], n: usize, t: Result<Result<Size, Refusal>, NoReply>) -> usize
    ensures { Puts (told_line t) n room.old result room.new }
{
    match t {
        Ok(c) => count(room, n, c),
        Err(NoReply::BadPage) => put::bytes(
            room,
            n,
            b"  Not asked: the page has a wrong length.\n",
        ),
        Err(NoReply::BadState) => put::bytes(room, n, b"  Not asked: the state is not possible.\n"),
        Err(NoReply::UnderWay) => put::bytes(
            room,
            n,
            b"  Not asked: the stream ends within a sequence.\n",
        ),
        Err(NoReply::NoRoom) => put::bytes(
            room,
            n,
            b"  Not asked: the reply is longer than its room.\n",
        ),
    }
}

fn sent(
    room: &mut [u8],
    protect: bool,
    t: Result<Result<Size, Refusal>, NoReply>,
    reply: &[u8],
    first: usize,
    last: usize,
) -> usize
    ensures { Puts (sent_of protect t reply.now first last) 0 room.old result room.new }
{
    let a = put::bytes(
        room,
        0,
        b"\nWhat members are sent, from the reply to ESC 5\n",
    );
    let b = mode_note(room, a, protect);
    let c = lines(room, b, reply, first, last);
    told(room, c, t)
}

// The number of the last piece that is wanted: that of the last there is, where no other is named.
#[tactic(auto, unfolding(crate::specs::Message::last_of))]
fn last_of(last: Option<usize>, reply: &[u8]) -> usize
    ensures { result ≡ last_of (is_none last) (unwrap_or last 0) reply.now }
{
    match last {
        Some(n) => n,
        None => pieces_in(reply),
    }
}

// Asks the terminal, twice: how many pieces there are, and what those wanted come to. Asking changes nothing.
pub fn message(
    room: &mut [u8],
    page: &mut [u16],
    state: State,
    first: usize,
    last: Option<usize>,
) -> usize
    ensures { (page.new ≡ page.old)
        × Puts (message_of page.old state first (is_none last) (unwrap_or last 0)) 0 room.old result room.new }
{
    let mut reply = [0u8; 3192];
    let a = count_alert(page, state, 1, 1, &mut reply);
    let end = last_of(last, &reply[..a.replied]);
    let b = count_alert(page, state, first, end, &mut reply);
    let protect = state.core.modes.protect;
    sent(room, protect, b.told, &reply[..b.replied], first, end)
}
