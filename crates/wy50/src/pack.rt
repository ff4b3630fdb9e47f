// The numbers of a state.
ghost use Rattle.std.specs.Prelude.{◌≡◌, ◌*◌, ◌/◌, map};
ghost use Rattle.rules.specs.Cell.{pick};
ghost use Rattle.wy50.specs.Raw.{flag, personality_number, gathered_in, blanked, laid_over, kind_of, text_sequence, spoilt_sequence, sequence_of};
ghost use Rattle.wy50.specs.Raw.{text_sending, raw_sending, raw_modes, raw_key, raw_message, numbers, packed};
ghost use Rattle.wy50.specs.Promise.{fresh_numbers};

use crate::raw::{RawKey, RawMessage, RawModes, RawScreen, RawSending, RawSequence, RawState};
use rules::{Argument, Modes, Pending, Personality, Place, Sending, Setup, Slot, State, Text};
use state::sending::{short_command, text_command};

fn sequence(kind: u16, first: u8, second: u8, third: u16) -> RawSequence
    ensures { result ≡ record { kind = kind; first = first; second = second; third = third } }
{
    RawSequence {
        kind,
        first,
        second,
        third,
    }
}

fn kind_of(a: Argument) -> u16
    ensures { result ≡ kind_of a }
{
    match a {
        Argument::Address => 2,
        Argument::Segment => 4,
        Argument::Split => 9,
        Argument::SplitRow => 10,
        Argument::Attribute => 11,
        Argument::Graphic => 12,
        Argument::FillAttribute => 13,
        Argument::FillCode => 14,
        Argument::Feature => 15,
        Argument::FieldAttribute => 16,
        Argument::Slot => 18,
    }
}

fn text_sequence(x: Slot, n: u8) -> RawSequence
    ensures { result ≡ text_sequence x n }
{
    match x {
        Slot::Key(v) => sequence(19, v, n, 0),
        Slot::Label(v) => sequence(21, v, n, 0),
        Slot::Message => sequence(23, 0, n, 0),
    }
}

fn spoilt_sequence(x: Slot) -> RawSequence
    ensures { result ≡ spoilt_sequence x }
{
    match x {
        Slot::Key(v) => sequence(20, v, 0, 0),
        Slot::Label(v) => sequence(22, v, 0, 0),
        Slot::Message => sequence(24, 0, 0, 0),
    }
}

pub(crate) fn sequence_of(p: Pending) -> RawSequence
    ensures { result ≡ sequence_of p }
{
    match p {
        Pending::Idle => sequence(0, 0, 0, 0),
        Pending::Escape => sequence(1, 0, 0, 0),
        Pending::Awaits(a) => sequence(kind_of(a), 0, 0, 0),
        Pending::AddressRow(r) => sequence(3, r, 0, 0),
        Pending::SegmentNumber(n) => sequence(5, n, 0, 0),
        Pending::SegmentRow(n, r) => sequence(6, n, r, 0),
        Pending::DecimalRow(n, row) => sequence(7, n, row, 0),
        Pending::DecimalColumn(row, n, column) => sequence(8, row, n, column),
        Pending::FieldNumber(n) => sequence(17, n, 0, 0),
        Pending::Text(x, n) => text_sequence(x, n),
        Pending::Spoilt(x) => spoilt_sequence(x),
    }
}

fn send(command: u8, kind: u8, place: u16) -> RawSending
    ensures { result ≡ record { command = command; kind = kind; place = place } }
{
    RawSending {
        command,
        kind,
        place,
    }
}

fn text_sending(command: u8, at: Place) -> RawSending
    ensures { result ≡ text_sending command at }
{
    match at {
        Place::Cell(i) => send(command, 1, i),
        Place::Break(i) => send(command, 2, i),
        Place::Return => send(command, 3, 0),
    }
}

pub(crate) fn raw_sending(x: Sending) -> RawSending
    ensures { result ≡ raw_sending x }
{
    match x {
        Sending::Nothing => send(0, 0, 0),
        Sending::Short(r, n) => send(short_command(r), 0, n as u16),
        Sending::Text { all, segment, at } => text_sending(text_command(all, segment), at),
    }
}

pub(crate) fn flag(b: bool) -> u8
    ensures { result ≡ flag b }
{
    b as u8
}

fn personality_number(m: Personality) -> u8
    ensures { result ≡ personality_number m }
{
    m as u8
}

fn raw_modes(m: Modes) -> RawModes
    ensures { result ≡ raw_modes m }
{
    RawModes {
        protect: flag(m.protect),
        writeprotect: flag(m.writeprotect),
        insert: flag(m.insert),
        autoscroll: flag(m.autoscroll),
        locked: flag(m.locked),
        local: flag(m.local),
    }
}

// Byte by byte, and below eight texts a turn, as `key_of` does back.
fn raw_key(k: Text<8>) -> RawKey
    ensures { result ≡ raw_key k }
{
    RawKey {
        len: k.len,
        bytes: [
            k.bytes[0], k.bytes[1], k.bytes[2], k.bytes[3], k.bytes[4], k.bytes[5], k.bytes[6],
            k.bytes[7],
        ],
    }
}

fn raw_tabs(tabs: [bool; 132]) -> [u8; 132]
    ensures { result ≡ map flag tabs }
{
    let mut t = [0u8; 132];
    for (i, on) in tabs.iter().enumerate() {
        t[i] = flag(*on);
    }
    t
}

// `keys_of` the other way: one function for both would have the contract of a closure in place of `map raw_key`.
#[inline(always)]
fn raw_keys<const N: usize>(keys: [Text<8>; N]) -> [RawKey; N]
    requires { 8 * (N / 8) ≡ N }
    ensures { result ≡ map raw_key keys.entry }
{
    let none = RawKey {
        len: 0,
        bytes: [0; 8],
    };
    let mut t = [none; N];
    for i in 0..N / 8 {
        for j in 0..8 {
            t[8 * i + j] = raw_key(keys[8 * i + j]);
        }
    }
    t
}

// How many bytes of a text are gathered: the second number of a text's sequence.
fn gathered_in(q: RawSequence) -> u8
    ensures { result ≡ gathered_in q }
{
    if q.kind == 19 || q.kind == 21 || q.kind == 23 {
        q.second
    } else {
        0
    }
}

// One byte gathered, as it goes back: counted now, no longer counted, or as it came.
fn byte_back(new: u8, counted: bool, old: u8, was: bool) -> u8
    ensures { result ≡ pick counted new (pick was 0 old) }
{
    match (counted, was) {
        (true, _) => new,
        (false, true) => 0,
        (false, false) => old,
    }
}

// The first n bytes, which are counted now, before those that came, of which m were counted. Mostly no text is under way, before or after.
fn bytes_back(n: u8, new: [u8; 46], m: u8, old: [u8; 46]) -> [u8; 46]
    ensures { result ≡ laid_over n new (blanked m old) }
{
    if n == 0 && m == 0 {
        return old;
    }
    let mut t = [0u8; 46];
    for i in 0..46 {
        t[i] = byte_back(new[i], i < n as usize, old[i], i < m as usize);
    }
    t
}

fn raw_message(m: Text<46>) -> RawMessage
    ensures { result ≡ raw_message m }
{
    let Text { len, bytes } = m;
    RawMessage { len, bytes }
}

// The numbers of a state that a call leaves, which was handed x.
pub(crate) fn pack(x: RawState, s: State) -> RawState
    ensures { result ≡ packed x s }
{
    let n = gathered_in(sequence_of(s.core.pending));
    let m = gathered_in(x.sequence);
    let old = x.gathered;
    let new = s.gathered;
    pack_with(bytes_back(n, new, m, old), s)
}

// The numbers of a power-on state.
pub(crate) fn fresh(s: State) -> RawState
    ensures { result ≡ fresh_numbers s }
{
    let gathered = s.gathered;
    pack_with(gathered, s)
}

// The numbers of a state, with these bytes for those gathered.
#[tactic(auto, unfolding(crate::specs::Raw::numbers))]
fn pack_with(gathered: [u8; 46], s: State) -> RawState
    ensures { result ≡ numbers gathered s }
{
    let core = s.core;
    let screen = core.screen;
    let sending = s.sending;
    let Setup {
        tabs,
        attributes,
        features,
        keys,
        labels,
        message,
        shifted,
        wish,
    } = s.setup;
    RawState {
        screen: RawScreen {
            wide: flag(screen.wide) as u16,
            active: screen.active,
            split: screen.split,
            cursor0: screen.cursor0,
            cursor1: screen.cursor1,
        },
        modes: raw_modes(core.modes),
        bells: core.bells as u16,
        personality: personality_number(core.personality),
        remembered: core.attribute,
        sequence: sequence_of(core.pending),
        sending: raw_sending(sending),
        gathered,
        tabs: raw_tabs(tabs),
        attributes,
        features,
        keys: raw_keys(keys),
        labels: raw_keys(labels),
        message: raw_message(message),
        shifted: flag(shifted) as u16,
        wish: flag(wish) as u16,
    }
}
