// Texts: the slots that they go into, the bytes gathered, and the texts kept.
ghost use Rattle.std.specs.Prelude.{◌≡◌, take};
ghost use Rattle.rules.specs.State.{text_of, empty};
ghost use Rattle.rules.specs.Arguments.{is_key, is_label};
ghost use Rattle.rules.specs.Slot.{slot_ok, slot_end, slot_most, slot_low, is_text};

use rules::{Slot, Text};

pub fn no_text<const N: usize>() -> Text<N>
    ensures { result ≡ empty N }
{
    Text {
        len: 0,
        bytes: [0; N],
    }
}

// Value of ESC z: a key is 40h to 4Fh or 60h to 6Fh, a label 30h to 37h or 50h to 57h.
#[tactic(auto, unfolding(rules::specs::Arguments::is_key))]
pub fn is_key(v: u8) -> bool
    ensures { result ≡ is_key v }
{
    matches!(v, 0x40..=0x4f | 0x60..=0x6f)
}

#[tactic(auto, unfolding(rules::specs::Arguments::is_label))]
pub fn is_label(v: u8) -> bool
    ensures { result ≡ is_label v }
{
    matches!(v, 0x30..=0x37 | 0x50..=0x57)
}

#[tactic(auto, unfolding(rules::specs::Slot::slot_ok))]
pub fn slot_ok(x: Slot) -> bool
    ensures { result ≡ slot_ok x }
{
    match x {
        Slot::Key(v) => is_key(v),
        Slot::Label(v) => is_label(v),
        Slot::Message => true,
    }
}

// The byte that ends a text, how many bytes it has at most, and the lowest of them.
#[tactic(auto, unfolding(rules::specs::Slot::slot_end))]
pub fn slot_end(x: Slot) -> u8
    ensures { result ≡ slot_end x }
{
    match x {
        Slot::Key(_) => 0x7f,
        Slot::Label(_) | Slot::Message => 0x0d,
    }
}

#[tactic(auto, unfolding(rules::specs::Slot::slot_most))]
pub fn slot_most(x: Slot) -> u8
    ensures { result ≡ slot_most x }
{
    match x {
        Slot::Key(_) | Slot::Label(_) => 8,
        Slot::Message => 46,
    }
}

#[tactic(auto, unfolding(rules::specs::Slot::slot_low))]
pub fn slot_low(x: Slot) -> u8
    ensures { result ≡ slot_low x }
{
    match x {
        Slot::Key(_) => 0,
        Slot::Label(_) | Slot::Message => 0x20,
    }
}

// A byte from `low` to 7Eh.
#[tactic(auto, unfolding(rules::specs::Slot::is_text))]
pub fn is_text(low: u8, b: u8) -> bool
    ensures { result ≡ is_text low b }
{
    (low..0x7f).contains(&b)
}

// The text of the first n bytes gathered, zeros behind them.
pub fn text_of<const N: usize>(gathered: [u8; 46], n: u8) -> Text<N>
    ensures { result ≡ text_of N (take n gathered) }
{
    let len = n.min(46);
    let kept = usize::from(len).min(N);
    let mut bytes = [0; N];
    bytes[..kept].copy_from_slice(&gathered[..kept]);
    Text { len, bytes }
}
