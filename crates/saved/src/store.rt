// The store: the number saved last, and eight places.
ghost use Rattle.std.specs.Prelude.{◌≡◌, ◌++◌, true, ◌+◌, ◌<◌, ◌≤◌, length, drop};
ghost use Rattle.rules.specs.Cell.{pick};
ghost use Rattle.rules.specs.Slot.{texts_ok};
ghost use Rattle.saved.specs.SetupBytes.{setup_bytes};
ghost use Rattle.saved.specs.Store.{two_bytes, two_at, places, place_of, place, last_number, setup_in, setup_of, after_save, all_zero, is_place};
ghost use Rattle.saved.specs.Store.{is_store};
ghost use Rattle.saved.specs.Settings.{fed, with_settings};
ghost use Rattle.saved.specs.Calls.{restorable, restored};

use crate::bytes::{encode, put};
use crate::feeding::{is_setup, with_settings};
use rules::{Personality, Setup, State};

// The number in two bytes, low first.
fn two_at(l: &[u8], i: usize) -> u16
    requires { i + 1 < length l.now }
    ensures { result ≡ two_at l.now i }
{
    u16::from_le_bytes([l[i], l[i + 1]])
}

fn write_two(l: &mut [u8], n: u16)
    requires { 2 ≤ length l.old }
    ensures { l.new ≡ two_bytes n ++ drop 2 l.old }
{
    l[..2].copy_from_slice(&n.to_le_bytes());
}

fn all_zero(l: &[u8]) -> bool
    ensures { result ≡ all_zero l.now }
{
    l.iter().all(|b| *b == 0)
}

// Whether a place holds a length, a set-up and zeros.
fn is_place(p: &[u8]) -> bool
    requires { length p.now ≡ 1089 }
    ensures { result ≡ is_place p.now }
{
    let n = two_at(p, 0) as usize;
    let end = 2 + n;
    n <= 1087 && all_zero(&p[end..]) && is_setup(&p[2..end])
}

fn is_used(p: &[u8], used: bool) -> bool
    requires { length p.now ≡ 1089 }
    ensures { result ≡ pick used (is_place p.now) (all_zero p.now) }
{
    if used { is_place(p) } else { all_zero(p) }
}

// Whether saves could leave the store.
pub(crate) fn is_store(store: &[u8]) -> bool
    ensures { result ≡ is_store store.now }
{
    if store.len() != 8714 {
        return false;
    }
    let n = two_at(store, 0) as usize;
    for (k, place) in store[2..].chunks(1089).enumerate() {
        if !is_used(place, k < n) {
            return false;
        }
    }
    true
}

pub(crate) fn last_number(store: &[u8]) -> u16
    requires { is_store store.now ≡ true }
    ensures { result ≡ last_number store.now }
{
    two_at(store, 0)
}

// Whether a number is one of the last eight.
pub(crate) fn is_restorable(last: u16, n: u16) -> bool
    ensures { result ≡ restorable last n }
{
    1 <= n && n <= last && last - n < 8
}

// A place with a set-up of so many bytes, zeros behind it.
fn write_place(p: &mut [u8], len: u16, bytes: &[u8])
    requires { (length p.old ≡ 1089) × (length bytes.now ≡ 1087) }
    ensures { p.new ≡ two_bytes len ++ bytes.now }
{
    write_two(p, len);
    put(p, 2, bytes);
}

// The set-up under the next number, n.
pub(crate) fn save_as(u: Setup, store: &mut [u8], n: u16)
    requires { ((texts_ok 0 u.keys ≡ true) × (texts_ok 0x20 u.labels ≡ true))
        × ((length store.old ≡ 8714) × (n ≡ last_number store.old + 1)) }
    ensures { store.new ≡ after_save (setup_bytes u) store.old }
{
    let mut bytes = [0; 1087];
    let len = encode(u, &mut bytes) as u16;
    let at = 2 + 1089 * ((n - 1) % 8) as usize;
    let end = at + 1089;
    write_place(&mut store[at..end], len, &bytes);
    write_two(store, n);
}

// The settings of the set-up in a place.
fn restore_place(p: &[u8], m: Personality, u: Setup) -> Setup
    requires { (length p.now ≡ 1089) × (two_at p.now 0 ≤ 1087) }
    ensures { result ≡ with_settings (fed m (setup_in p.now)) u }
{
    let end = 2 + two_at(p, 0) as usize;
    with_settings(m, &p[2..end], u)
}

// The state with the settings saved under a number.
pub(crate) fn restore_from(state: State, store: &[u8], n: u16) -> State
    requires { (is_store store.now ≡ true) × (restorable (last_number store.now) n ≡ true) }
    ensures { result ≡ restored (setup_of store.now n) state }
{
    let at = 2 + 1089 * ((n - 1) % 8) as usize;
    let end = at + 1089;
    let setup = restore_place(&store[at..end], state.core.personality, state.setup);
    State { setup, ..state }
}
