// Which states are possible.
ghost use Rattle.std.specs.Prelude.{◌≡◌, ◌^◌, ◌≤◌, true, length, take, nat_le, nat_lt};
ghost use Rattle.rules.specs.Cell.{both};
ghost use Rattle.rules.specs.Possible.{unsplit_ok, split_ok, screen_ok, attributes_ok, features_ok};
ghost use Rattle.rules.specs.Possible.{pending_ok, remembered_ok, tabs_ok, core_ok, setup_ok};
ghost use Rattle.rules.specs.Possible.{possible};
ghost use Rattle.rules.specs.Arguments.{is_attribute, feature_place};
ghost use Rattle.rules.specs.Slot.{slot_most, slot_low, all_text, text_ok, texts_ok};

use crate::sending::sending_ok;
use crate::texts::{is_text, slot_low, slot_most, slot_ok};
use crate::width::{cells, columns};
use rules::{Core, Pending, Personality, Screen, Setup, Slot, State, Text};

#[tactic(auto, unfolding(rules::specs::Possible::unsplit_ok))]
fn unsplit_ok(x: Screen) -> bool
    ensures { result ≡ unsplit_ok x }
{
    let n = cells(x.wide, 24);
    x.active == 0 && x.cursor0 < n && x.cursor1 < n
}

// Split row 2 to 24, each cursor within its segment.
#[tactic(auto, unfolding(rules::specs::Possible::split_ok))]
fn split_ok(x: Screen) -> bool
    requires { 1 ≤ x.split }
    ensures { result ≡ split_ok x }
{
    let at = cells(x.wide, u16::from(x.split - 1));
    let n = cells(x.wide, 24);
    2 <= x.split
        && x.split <= 24
        && x.active <= 1
        && x.cursor0 < at
        && at <= x.cursor1
        && x.cursor1 < n
}

#[tactic(auto, unfolding(rules::specs::Possible::screen_ok))]
pub fn screen_ok(x: Screen) -> bool
    ensures { result ≡ screen_ok x }
{
    if x.split == 0 {
        unsplit_ok(x)
    } else {
        split_ok(x)
    }
}

// The tests of texts go by index, over arrays taken by value, for speed: with `iter()` or slices the set-up is copied first. And `short_ok`,
// `message_ok` and `gathered_ok` are not one function of the length, nor `keys_ok` and `labels_ok` one of the count: with these, `possible` took two
// and a half times as long.

// Whether each of the first n bytes is from `low` to 7Eh.
fn all_text(bytes: &[u8], n: u8, low: u8) -> bool
    requires { n ≤ length bytes.now }
    ensures { result ≡ all_text low (take n bytes.now) }
{
    for i in 0..n as usize {
        if !is_text(low, bytes[i]) {
            return false;
        }
    }
    true
}

fn short_ok(t: Text<8>, low: u8) -> bool
    ensures { result ≡ text_ok low 8 t.len t.bytes }
{
    let bytes = t.bytes;
    if 8 < t.len {
        return false;
    }
    all_text(&bytes, t.len, low)
}

fn message_ok(t: Text<46>) -> bool
    ensures { result ≡ text_ok 0x20 46 t.len t.bytes }
{
    let bytes = t.bytes;
    if 46 < t.len {
        return false;
    }
    all_text(&bytes, t.len, 0x20)
}

// A call, and not `&&`: see `are_plain`.
fn and(a: bool, b: bool) -> bool
    ensures { result ≡ both a b }
{
    a && b
}

// Whether a key's text is plain, and those before it: at most eight bytes, and all eight of them at most 7Eh, those behind its end too.
fn is_plain(k: Text<8>, before: bool) -> bool
    ensures { result ≡ true → (before ≡ true) × (text_ok 0 8 k.len k.bytes ≡ true) }
{
    let a = and(before, k.len < 9);
    let b = and(a, k.bytes[0] < 0x7f);
    let c = and(b, k.bytes[1] < 0x7f);
    let d = and(c, k.bytes[2] < 0x7f);
    let e = and(d, k.bytes[3] < 0x7f);
    let f = and(e, k.bytes[4] < 0x7f);
    let g = and(f, k.bytes[5] < 0x7f);
    let h = and(g, k.bytes[6] < 0x7f);
    and(h, k.bytes[7] < 0x7f)
}

// Whether every key is plain. Bytes in their order in one chain of `and`, eight keys a turn: so the machine tests sixteen bytes at a time.
// `all` over the keys and their bytes tests them one by one: slower.
fn are_plain(keys: [Text<8>; 32]) -> bool
    ensures { result ≡ true → texts_ok 0 keys ≡ true }
{
    let mut plain = true;
    for i in 0..4 {
        for j in 0..8 {
            plain = is_plain(keys[8 * i + j], plain);
        }
    }
    plain
}

// Keys as the terminal keeps them are plain; else each is looked at.
fn keys_ok(keys: [Text<8>; 32]) -> bool
    ensures { result ≡ texts_ok 0 keys }
{
    if are_plain(keys) {
        return true;
    }
    for i in 0..32 {
        if !short_ok(keys[i], 0) {
            return false;
        }
    }
    true
}

fn labels_ok(labels: [Text<8>; 16]) -> bool
    ensures { result ≡ texts_ok 0x20 labels }
{
    for i in 0..16 {
        if !short_ok(labels[i], 0x20) {
            return false;
        }
    }
    true
}

// attr of ESC G: 20h, 30h to 3Fh or 70h to 7Eh.
#[tactic(auto, unfolding(rules::specs::Arguments::is_attribute))]
pub fn is_attribute(a: u8) -> bool
    ensures { result ≡ is_attribute a }
{
    matches!(a, 0x20 | 0x30..=0x3f | 0x70..=0x7e)
}

fn attributes_ok(a: [u8; 4]) -> bool
    ensures { result ≡ attributes_ok a }
{
    let second = and(is_attribute(a[2]), is_attribute(a[3]));
    and(is_attribute(a[0]), and(is_attribute(a[1]), second))
}

// Which feature a code of ESC ` sets; 5 for any other code. It is no Option: the definition of the plan hands the 5 on, and `changed` does nothing
// with it.
#[tactic(auto, unfolding(rules::specs::Arguments::feature_place))]
pub fn feature_place(f: u8) -> u8
    ensures { result ≡ feature_place f }
{
    match f {
        0x30..=0x31 => 0,
        0x32..=0x35 => 1,
        0x36..=0x37 | 0x41 => 2,
        0x38..=0x39 => 3,
        0x3c..=0x40 => 4,
        _ => 5,
    }
}

// Each feature from its own list.
#[tactic(auto, unfolding(rules::specs::Possible::features_ok))]
fn features_ok(f: [u8; 5]) -> bool
    ensures { result ≡ features_ok 0 f }
{
    feature_place(f[0]) == 0
        && feature_place(f[1]) == 1
        && feature_place(f[2]) == 2
        && feature_place(f[3]) == 3
        && feature_place(f[4]) == 4
}

fn power_of_ten(n: u8) -> u16
    requires { n ≤ 3 }
    ensures { result ≡ 10 ^ n }
{
    match n {
        0 => 1,
        1 => 10,
        2 => 100,
        _ => 1000,
    }
}

// At most `most` digits, and a number that they can make.
fn digits_ok(most: u8, n: u8, number: u16) -> bool
    requires { most ≤ 3 }
    ensures { result ≡ both (nat_le n most) (nat_lt number (10 ^ n)) }
{
    n <= most && number < power_of_ten(n)
}

// At most as many bytes of a text as its slot takes, and these of its kind.
fn gathered_ok(x: Slot, n: u8, gathered: [u8; 46]) -> bool
    ensures { result ≡ text_ok (slot_low x) (slot_most x) n gathered }
{
    if slot_most(x) < n {
        return false;
    }
    all_text(&gathered, n, slot_low(x))
}

// A sequence that some bytes fed from power-on leave under way.
#[tactic(auto, unfolding(rules::specs::Possible::pending_ok))]
pub fn pending_ok(p: Pending, gathered: [u8; 46]) -> bool
    ensures { result ≡ pending_ok p gathered }
{
    match p {
        Pending::Idle | Pending::Escape | Pending::Awaits(_) => true,
        Pending::AddressRow(r) => r < 128,
        Pending::SegmentNumber(n) | Pending::FieldNumber(n) => n < 128,
        Pending::SegmentRow(n, r) => n < 128 && r < 128,
        Pending::DecimalRow(n, row) => digits_ok(2, n, u16::from(row)),
        Pending::DecimalColumn(row, n, column) => row < 100 && digits_ok(3, n, column),
        Pending::Text(x, n) => slot_ok(x) && gathered_ok(x, n, gathered),
        Pending::Spoilt(x) => slot_ok(x),
    }
}

// The attribute remembered: in WY-50 only normal.
#[tactic(auto, unfolding(rules::specs::Possible::remembered_ok))]
pub fn remembered_ok(m: Personality, a: u8) -> bool
    ensures { result ≡ remembered_ok m a }
{
    match m {
        Personality::Wy50 => a == 0,
        Personality::Wy60 => a < 31,
    }
}

// No tab stop beyond the columns of the page. Every place is looked at, by its index: so the machine tests sixteen at a time. `all` ends early, and
// tests them one by one: slower.
fn tabs_ok(tabs: [bool; 132], width: u16) -> bool
    ensures { result ≡ tabs_ok width tabs }
{
    let mut none = true;
    for i in usize::from(width)..132 {
        none &= !tabs[i];
    }
    none
}

#[tactic(auto, unfolding(rules::specs::Possible::core_ok))]
pub fn core_ok(core: Core, gathered: [u8; 46]) -> bool
    ensures { result ≡ core_ok core gathered }
{
    screen_ok(core.screen)
        && remembered_ok(core.personality, core.attribute)
        && pending_ok(core.pending, gathered)
}

// All parts are tested, with `and`, and the arrays are handed on by value, for speed: a chain of `&&` that ends early took half as long again.
#[tactic(auto, unfolding(rules::specs::Possible::setup_ok))]
pub fn setup_ok(setup: Setup, width: u16) -> bool
    ensures { result ≡ setup_ok width setup }
{
    let keys = setup.keys;
    let labels = setup.labels;
    let message = setup.message;
    let attributes = setup.attributes;
    let features = setup.features;
    let tabs = setup.tabs;
    let stops = tabs_ok(tabs, width);
    let lists = and(attributes_ok(attributes), and(features_ok(features), stops));
    let texts = and(labels_ok(labels), and(message_ok(message), lists));
    and(keys_ok(keys), texts)
}

#[tactic(auto, unfolding(rules::specs::Possible::possible))]
pub fn possible(s: State) -> bool
    ensures { result ≡ possible s }
{
    let core = s.core;
    let pending = core.pending;
    let sending = s.sending;
    let gathered = s.gathered;
    let setup = s.setup;
    let send = sending_ok(core.screen, pending, sending);
    let rest = and(send, setup_ok(setup, columns(core.screen.wide)));
    and(core_ok(core, gathered), rest)
}
