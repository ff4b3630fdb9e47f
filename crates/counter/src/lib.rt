// The alert counter: the units and text parts of the wanted pieces of an ESC 5 reply. No call asks anything of its caller.
#![tactic(auto)]

mod asking; // what is asked, and what is told
mod pieces; // where the pieces of a reply stand
mod text; // the count of a text

ghost use Rattle.std.specs.Prelude.{◌≡◌, length};
ghost use Rattle.counter.specs.Pieces.{pieces, piece_of};
ghost use Rattle.counter.specs.Count.{numbers, text_count, count_rule};
ghost use Rattle.counter.specs.Ask.{Asks};

use asking::{ask, has_length, is_cut, is_ready, tell};
use pieces::{before_return, in_order, marks_in, part};
use rules::State;
use text::count_remaining;

// What a text comes to.
#[derive(Clone, Copy)]
pub struct Size {
    pub units: u64,
    pub parts: u64,
}

// Why a text is not counted: the reply has no final CR, the first number is 0 or above the last, the last is beyond the pieces, or a byte is
// outside the alphabet, with its place in the whole, from 0.
#[derive(Clone, Copy)]
pub enum Refusal {
    NoReturn,
    BadFirst,
    BadLast,
    BadByte(usize),
}

// Why a caller who asks the terminal has no reply counted: a page of the wrong length, an impossible state, a sequence or a send under way, or a
// reply that does not fit the room.
#[derive(Clone, Copy)]
pub enum NoReply {
    BadPage,
    BadState,
    UnderWay,
    NoRoom,
}

#[derive(Clone, Copy)]
pub struct Asked {
    pub told: Result<Result<Size, Refusal>, NoReply>,
    pub replied: usize,
}

// How many pieces a reply has: none without its final CR.
pub fn pieces_in(reply: &[u8]) -> usize
    ensures { result ≡ length (pieces reply.now) }
{
    match before_return(reply) {
        Some(text) => marks_in(text) + 1,
        None => 0,
    }
}

// The piece of a number, from 1; empty where no piece has it.
pub fn piece(reply: &[u8], number: usize) -> &[u8]
    ensures { result.now ≡ piece_of reply.now number }
{
    let Some(text) = before_return(reply) else {
        return &[];
    };
    if number < 1 || marks_in(text) + 1 < number {
        return &[];
    }
    part(text, number, number)
}

// Counts the pieces from number `first` to number `last` of a reply.
pub fn count(reply: &[u8], first: usize, last: usize) -> Result<Size, Refusal>
    ensures { numbers result ≡ numbers (count_rule reply.now first last) }
{
    let Some(text) = before_return(reply) else {
        return Err(Refusal::NoReturn);
    };
    if !in_order(first, last) {
        return Err(Refusal::BadFirst);
    }
    if marks_in(text) + 1 < last {
        return Err(Refusal::BadLast);
    }
    count_remaining(part(text, first, last), true)
}

// Counts a text by itself: it has no CR and is not cut.
pub fn count_text(text: &[u8]) -> Result<Size, Refusal>
    ensures { numbers result ≡ numbers (text_count text.now) }
{
    count_remaining(text, false)
}

// Asks the terminal with ESC 5 and counts its reply, which comes back in the room. The terminal is as it was; inside a sequence or a send nothing is
// asked. A reply that does not end in the room is not counted.
pub fn count_alert(
    page: &mut [u16],
    state: State,
    first: usize,
    last: usize,
    room: &mut [u8],
) -> Asked
    ensures { Asks page.old state first last result page.new room.old room.new }
{
    let full = has_length(page, state.core.screen.wide);
    let ready = is_ready(state);
    let t = ask(page, state, ready, room);
    let replied = t.replied;
    let c = count(&room[..replied], first, last);
    let cut = is_cut(t.answer, t.state.sending);
    let told = tell(t.answer, full, ready, cut, c);
    Asked { told, replied }
}
