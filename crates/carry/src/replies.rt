// What is sent of a reply from the place where it stands, as much as the room takes.
ghost use Rattle.std.specs.Prelude.{◌≡◌, ◌+◌, ◌<◌, ◌≤◌, true, [], ◌∷◌, length, drop};
ghost use Rattle.rules.specs.State.{Inside, page_length, cursor_row, cursor_column};
ghost use Rattle.rules.specs.Possible.{screen_ok, short_length};
ghost use Rattle.rules.specs.Theorems.Good.{GoodSend};
ghost use Rattle.rules.specs.Send.{model, digit as digit_of, decimal, each, places};
ghost use Rattle.page.specs.Room.{stands, gone};
ghost use Rattle.carry.specs.Went.{Went};

use page::text::{Sent, send_bytes, send_cell, send_text};
use rules::{Core, Personality, Screen, Sending, Short};
use state::screen;
use state::screen::{cursor_of, segment_top};

// The cursor's row from the segment's top, and its column, from 0.
fn cursor_row(x: Screen) -> u8
    requires { Inside x }
    ensures { result ≡ cursor_row x }
{
    (screen::cursor_row(x) - segment_top(x)) as u8
}

fn cursor_column(x: Screen) -> u8
    ensures { result ≡ cursor_column x }
{
    screen::cursor_column(x) as u8
}

// The last decimal digit of a number.
fn digit(n: u8) -> u8
    ensures { result ≡ digit_of n }
{
    0x30 + n % 10
}

// ESC SPACE: the model's number and CR, a fixed byte string for each personality.
fn send_identity(room: &mut [u8], m: Personality, from: u8) -> Sent
    requires { from ≤ 3 }
    ensures { stands room.new result.replied result.left
        ≡ gone (each Short.Identity from (drop from (model m ∷ 0x30 ∷ 0x0d ∷ []))) 0 room.old }
{
    match m {
        Personality::Wy50 => send_bytes(room, b"50\r", Short::Identity, from),
        Personality::Wy60 => send_bytes(room, b"60\r", Short::Identity, from),
    }
}

// ESC b: two digits, R, three digits, C.
fn send_decimal(room: &mut [u8], r: u8, c: u8, from: u8) -> Sent
    requires { from ≤ 7 }
    ensures { stands room.new result.replied result.left
        ≡ gone (each Short.DecimalCursor from (drop from (decimal r c))) 0 room.old }
{
    let bytes = [
        digit(r / 10),
        digit(r),
        b'R',
        digit(c / 100),
        digit(c / 10),
        digit(c),
        b'C',
    ];
    send_bytes(room, &bytes, Short::DecimalCursor, from)
}

fn send_short(page: &[u16], core: Core, reply: Short, from: u8, room: &mut [u8]) -> Sent
    requires { (length page.now ≡ page_length core.screen)
        × ((screen_ok core.screen ≡ true) × ((from < short_length reply) × (0 < length room.old))) }
    ensures { stands room.new result.replied result.left
        ≡ gone (places page.now core (Sending.Short reply from)) 0 room.old }
{
    let x = core.screen;
    let row = cursor_row(x);
    let column = cursor_column(x);
    match reply {
        Short::Acknowledge => send_bytes(room, b"\x06", Short::Acknowledge, from),
        Short::Cell => send_cell(room, page, core.modes.protect, cursor_of(x) as usize),
        Short::Identity => {
            let m = core.personality;
            send_identity(room, m, from)
        }
        Short::Cursor => send_bytes(
            room,
            &[0x20 + row, 0x20 + column, 0x0d],
            Short::Cursor,
            from,
        ),
        Short::SegmentCursor => send_bytes(
            room,
            &[0x30 + x.active, 0x20 + row, 0x20 + column, 0x0d],
            Short::SegmentCursor,
            from,
        ),
        Short::DecimalCursor => send_decimal(room, row + 1, column + 1, from),
    }
}

// A text's extent is read from the core at each call.
pub fn send(page: &[u16], core: Core, sending: Sending, room: &mut [u8]) -> Sent
    requires { (length page.now ≡ page_length core.screen)
        × ((screen_ok core.screen ≡ true) × (GoodSend core.screen sending × (0 < length room.old))) }
    ensures { Went page.now core sending room.old result.replied result.left room.new }
{
    match sending {
        Sending::Nothing => Sent {
            replied: 0,
            left: Sending::Nothing,
        },
        Sending::Short(reply, n) => send_short(page, core, reply, n, room),
        Sending::Text { all, segment, at } => {
            let x = core.screen;
            let to = cursor_of(x) as usize + 1;
            send_text(room, page, x.wide, to, all, segment, at)
        }
    }
}
