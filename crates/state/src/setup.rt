// The changes of the set-up and of the gathered bytes.
ghost use Rattle.std.specs.Prelude.{◌≡◌, take, slice_set};
ghost use Rattle.rules.specs.State.{changed, stored, gathered_after, setup_after};

use crate::keys::{key_place, label_place};
use crate::texts::text_of;
use rules::{Change, Setup, SetupChange, Slot};

// The list with v at a place; a place past its end changes nothing.
pub fn put<T: Copy, const N: usize>(list: [T; N], at: usize, v: T) -> [T; N]
    ensures { result ≡ slice_set list at v }
{
    let mut t = list;
    if at < N {
        t[at] = v;
    }
    t
}

// The set-up after a command's change.
#[tactic(auto, unfolding(rules::specs::State::changed))]
pub fn changed(x: SetupChange, u: Setup) -> Setup
    ensures { result ≡ changed x u }
{
    let mut t = u;
    match x {
        SetupChange::Nothing => {}
        SetupChange::Tab(n, b) => t.tabs = put(u.tabs, usize::from(n), b),
        SetupChange::ClearTabs => t.tabs = [false; 132],
        SetupChange::Attribute(n, a) => t.attributes = put(u.attributes, usize::from(n), a),
        SetupChange::Feature(n, f) => t.features = put(u.features, usize::from(n), f),
        SetupChange::HideLine => t.shifted = false,
        SetupChange::Wish(b) => t.wish = b,
    }
    t
}

// A slot takes the first n bytes gathered. A label of 50h to 57h that is set, not cleared, turns the shifted line on.
#[tactic(auto, unfolding(rules::specs::State::stored))]
pub fn stored(x: Slot, gathered: [u8; 46], n: u8, u: Setup) -> Setup
    ensures { result ≡ stored x (take n gathered) u }
{
    let mut t = u;
    match x {
        Slot::Key(v) => t.keys = put(u.keys, usize::from(key_place(v)), text_of(gathered, n)),
        Slot::Label(v) => {
            let k = text_of(gathered, n);
            t.labels = put(u.labels, usize::from(label_place(v)), k);
            t.shifted = (0x50 <= v && 0 < k.len) || u.shifted;
        }
        Slot::Message => t.message = text_of(gathered, n),
    }
    t
}

// The gathered bytes and the set-up after a byte's change.
#[tactic(auto, unfolding(rules::specs::State::gathered_after))]
pub fn gathered_after(x: Change, gathered: [u8; 46]) -> [u8; 46]
    ensures { result ≡ gathered_after x gathered }
{
    if let Change::Gather(n, b) = x {
        put(gathered, usize::from(n), b)
    } else {
        gathered
    }
}

#[tactic(auto, unfolding(rules::specs::State::setup_after))]
pub fn setup_after(x: Change, gathered: [u8; 46], u: Setup) -> Setup
    ensures { result ≡ setup_after x gathered u }
{
    match x {
        Change::Gather(_, _) | Change::Send(_) => u,
        Change::Take(slot, n) => stored(slot, gathered, n, u),
        Change::Set(d) => changed(d, u),
    }
}
