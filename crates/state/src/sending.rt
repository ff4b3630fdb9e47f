// The send under way.
ghost use Rattle.std.specs.Prelude.{◌≡◌};
ghost use Rattle.rules.specs.State.{sends, sending_after};
ghost use Rattle.rules.specs.Send.{short_command, text_command, command_of};
ghost use Rattle.rules.specs.Possible.{short_length, narrow_only, replies_on, in_text, place_ok, sending_ok};

use crate::core_parts::is_idle;
use crate::screen::{cursor_of, text_start};
use crate::width::column_of;
use rules::{Change, Pending, Place, Screen, Sending, Short};

pub fn is_sending(sending: Sending) -> bool
    ensures { result ≡ sends sending }
{
    !matches!(sending, Sending::Nothing)
}

// The send under way after a byte's change.
#[tactic(auto, unfolding(rules::specs::State::sending_after))]
pub fn sending_after(x: Change, sending: Sending) -> Sending
    ensures { result ≡ sending_after x sending }
{
    if let Change::Send(left) = x {
        left
    } else {
        sending
    }
}

// How many bytes a short reply has.
pub fn short_length(r: Short) -> u8
    ensures { result ≡ short_length r }
{
    match r {
        Short::Acknowledge => 1,
        Short::Cell => 1,
        Short::Identity => 3,
        Short::Cursor => 3,
        Short::SegmentCursor => 4,
        Short::DecimalCursor => 7,
    }
}

// The command that a send answers: 05h, or the byte after ESC.
pub fn short_command(r: Short) -> u8
    ensures { result ≡ short_command r }
{
    match r {
        Short::Acknowledge => 0x05,
        Short::Cell => 0x4d,
        Short::Identity => 0x20,
        Short::Cursor => 0x3f,
        Short::SegmentCursor => 0x2f,
        Short::DecimalCursor => 0x62,
    }
}

pub fn text_command(all: bool, segment: bool) -> u8
    ensures { result ≡ text_command all segment }
{
    match (all, segment) {
        (false, false) => 0x34,
        (false, true) => 0x35,
        (true, false) => 0x36,
        (true, true) => 0x37,
    }
}

pub fn command_of(sending: Sending) -> u8
    ensures { result ≡ command_of sending }
{
    match sending {
        Sending::Nothing => 0,
        Sending::Short(r, _) => short_command(r),
        Sending::Text { all, segment, .. } => text_command(all, segment),
    }
}

// ESC ? and ESC / reply nothing on a wide page.
fn narrow_only(r: Short) -> bool
    ensures { result ≡ narrow_only r }
{
    matches!(r, Short::Cursor | Short::SegmentCursor)
}

fn replies_on(x: Screen, r: Short) -> bool
    ensures { result ≡ replies_on x r }
{
    !(narrow_only(r) && x.wide)
}

// Cell i is in the text that is sent, and not its first.
fn in_text(x: Screen, segment: bool, i: u16) -> bool
    ensures { result ≡ in_text x segment i }
{
    text_start(x, segment) < i && i <= cursor_of(x)
}

// A place of a text but its first: a US stands before a row's first cell.
#[tactic(auto, unfolding(rules::specs::Possible::place_ok))]
fn place_ok(x: Screen, segment: bool, at: Place) -> bool
    ensures { result ≡ place_ok x segment at }
{
    match at {
        Place::Cell(i) => in_text(x, segment, i),
        Place::Break(i) => column_of(x.wide, i) == 0 && in_text(x, segment, i),
        Place::Return => true,
    }
}

// No sequence is under way, and the send stands at any place of its reply but the first.
#[tactic(auto, unfolding(rules::specs::Possible::sending_ok))]
pub fn sending_ok(x: Screen, q: Pending, sending: Sending) -> bool
    ensures { result ≡ sending_ok x q sending }
{
    match sending {
        Sending::Nothing => true,
        Sending::Short(r, n) => { is_idle(q) && replies_on(x, r) && 1 <= n && n < short_length(r) }
        Sending::Text { segment, at, .. } => is_idle(q) && place_ok(x, segment, at),
    }
}
