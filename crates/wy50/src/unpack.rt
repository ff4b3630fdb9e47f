// The state that numbers name, and nothing where they name none.
ghost use Rattle.std.specs.Prelude.{◌≡◌, ◌*◌, ◌/◌, map, ltb};
ghost use Rattle.std.specs.Bool.{then_some};
ghost use Rattle.wy50.specs.Raw.{all_below, is_on, is_personality, personality_at, pending_of, is_sequence, small, place_at, sending_of};
ghost use Rattle.wy50.specs.Raw.{is_sending, are_flags, modes_of, key_of, message_of, named, unpacked};

use crate::pack::{raw_sending, sequence_of};
use crate::raw::{RawKey, RawMessage, RawModes, RawSending, RawSequence, RawState};
use rules::{
    Argument, Core, Modes, Pending, Personality, Place, Screen, Sending, Setup, Short, Slot, State,
    Text,
};
use state::texts::no_text;

// The sequence of a kind, with its numbers; no other kind has one.
#[tactic(auto, unfolding(crate::specs::Raw::find))]
fn pending_of(q: RawSequence) -> Pending
    ensures { result ≡ pending_of q }
{
    match q.kind {
        1 => Pending::Escape,
        2 => Pending::Awaits(Argument::Address),
        3 => Pending::AddressRow(q.first),
        4 => Pending::Awaits(Argument::Segment),
        5 => Pending::SegmentNumber(q.first),
        6 => Pending::SegmentRow(q.first, q.second),
        7 => Pending::DecimalRow(q.first, q.second),
        8 => Pending::DecimalColumn(q.first, q.second, q.third),
        9 => Pending::Awaits(Argument::Split),
        10 => Pending::Awaits(Argument::SplitRow),
        11 => Pending::Awaits(Argument::Attribute),
        12 => Pending::Awaits(Argument::Graphic),
        13 => Pending::Awaits(Argument::FillAttribute),
        14 => Pending::Awaits(Argument::FillCode),
        15 => Pending::Awaits(Argument::Feature),
        16 => Pending::Awaits(Argument::FieldAttribute),
        17 => Pending::FieldNumber(q.first),
        18 => Pending::Awaits(Argument::Slot),
        19 => Pending::Text(Slot::Key(q.first), q.second),
        20 => Pending::Spoilt(Slot::Key(q.first)),
        21 => Pending::Text(Slot::Label(q.first), q.second),
        22 => Pending::Spoilt(Slot::Label(q.first)),
        23 => Pending::Text(Slot::Message, q.second),
        24 => Pending::Spoilt(Slot::Message),
        _ => Pending::Idle,
    }
}

// The sequence of the numbers, if they are those of one: it gives them back.
fn sequence_at(q: RawSequence) -> Option<Pending>
    ensures { result ≡ then_some (is_sequence q) (pending_of q) }
{
    let p = pending_of(q);
    (sequence_of(p) == q).then_some(p)
}

fn small(n: u16) -> u8
    ensures { result ≡ small n }
{
    if n < 256 { n as u8 } else { 0 }
}

fn place_at(kind: u8, n: u16) -> Place
    ensures { result ≡ place_at kind n }
{
    match kind {
        1 => Place::Cell(n),
        2 => Place::Break(n),
        _ => Place::Return,
    }
}

// The send of a command, at its place; no other command has one.
#[tactic(auto, unfolding(crate::specs::Raw::find))]
fn sending_of(x: RawSending) -> Sending
    ensures { result ≡ sending_of x }
{
    let n = small(x.place);
    let at = place_at(x.kind, x.place);
    match x.command {
        0x05 => Sending::Short(Short::Acknowledge, n),
        0x20 => Sending::Short(Short::Identity, n),
        0x2f => Sending::Short(Short::SegmentCursor, n),
        0x34 => Sending::Text {
            all: false,
            segment: false,
            at,
        },
        0x35 => Sending::Text {
            all: false,
            segment: true,
            at,
        },
        0x36 => Sending::Text {
            all: true,
            segment: false,
            at,
        },
        0x37 => Sending::Text {
            all: true,
            segment: true,
            at,
        },
        0x3f => Sending::Short(Short::Cursor, n),
        0x4d => Sending::Short(Short::Cell, n),
        0x62 => Sending::Short(Short::DecimalCursor, n),
        _ => Sending::Nothing,
    }
}

// The send of the numbers, if they are those of one: it gives them back.
fn sending_at(x: RawSending) -> Option<Sending>
    ensures { result ≡ then_some (is_sending x) (sending_of x) }
{
    let y = sending_of(x);
    (raw_sending(y) == x).then_some(y)
}

// No `TryFrom` here, nor for a flag: neither `Personality` nor `bool` is of this crate.
pub(crate) fn personality_at(v: u8) -> Option<Personality>
    ensures { result ≡ then_some (is_personality v) (personality_at v) }
{
    match v {
        50 => Some(Personality::Wy50),
        60 => Some(Personality::Wy60),
        _ => None,
    }
}

fn flag_at(v: u16) -> Option<bool>
    ensures { result ≡ then_some (ltb v 2) (is_on v) }
{
    match v {
        0 => Some(false),
        1 => Some(true),
        _ => None,
    }
}

fn modes_at(m: RawModes) -> Option<Modes>
    ensures { result ≡ then_some (are_flags m) (modes_of m) }
{
    Some(Modes {
        protect: flag_at(m.protect as u16)?,
        writeprotect: flag_at(m.writeprotect as u16)?,
        insert: flag_at(m.insert as u16)?,
        autoscroll: flag_at(m.autoscroll as u16)?,
        locked: flag_at(m.locked as u16)?,
        local: flag_at(m.local as u16)?,
    })
}

fn tabs_at(tabs: [u8; 132]) -> Option<[bool; 132]>
    ensures { result ≡ then_some (all_below 2 tabs) (map is_on tabs) }
{
    let mut on = [false; 132];
    let mut all = true;
    for (i, tab) in tabs.iter().enumerate() {
        on[i] = *tab == 1;
        all &= *tab < 2;
    }
    all.then_some(on)
}

// Byte by byte, and below eight texts a turn: so the machine copies sixteen bytes at a time. With texts copied whole, or one a turn, a step from C
// misses its bar.
fn key_of(k: RawKey) -> Text<8>
    ensures { result ≡ key_of k }
{
    Text {
        len: k.len,
        bytes: [
            k.bytes[0], k.bytes[1], k.bytes[2], k.bytes[3], k.bytes[4], k.bytes[5], k.bytes[6],
            k.bytes[7],
        ],
    }
}

#[inline(always)]
fn keys_of<const N: usize>(keys: [RawKey; N]) -> [Text<8>; N]
    requires { 8 * (N / 8) ≡ N }
    ensures { result ≡ map key_of keys.entry }
{
    let mut t = [no_text(); N];
    for i in 0..N / 8 {
        for j in 0..8 {
            t[8 * i + j] = key_of(keys[8 * i + j]);
        }
    }
    t
}

fn message_of(m: RawMessage) -> Text<46>
    ensures { result ≡ message_of m }
{
    let RawMessage { len, bytes } = m;
    Text { len, bytes }
}

// The state that the numbers name. The tab stops come behind the sequence and the send, so that the machine need not put them aside.
#[tactic(auto, using(crate::proofs::Options::tests), unfolding(crate::specs::Raw::named, crate::specs::Raw::unpacked))]
pub(crate) fn state_of(x: RawState) -> Option<State>
    ensures { result ≡ then_some (named x) (unpacked x) }
{
    let RawState {
        screen,
        modes,
        bells,
        personality,
        remembered,
        sequence,
        sending,
        gathered,
        tabs,
        attributes,
        features,
        keys,
        labels,
        message,
        shifted,
        wish,
    } = x;
    let modes = modes_at(modes)?;
    if bells >= 256 {
        return None;
    }
    let pending = sequence_at(sequence)?;
    let sending = sending_at(sending)?;
    let tabs = tabs_at(tabs)?;
    let shifted = flag_at(shifted)?;
    let wish = flag_at(wish)?;
    let wide = flag_at(screen.wide)?;
    let personality = personality_at(personality)?;
    Some(State {
        core: Core {
            screen: Screen {
                wide,
                active: screen.active,
                split: screen.split,
                cursor0: screen.cursor0,
                cursor1: screen.cursor1,
            },
            modes,
            bells: bells as u8,
            pending,
            personality,
            attribute: remembered,
        },
        sending,
        gathered,
        setup: Setup {
            tabs,
            attributes,
            features,
            keys: keys_of(keys),
            labels: keys_of(labels),
            message: message_of(message),
            shifted,
            wish,
        },
    })
}
