// Bytes fed to a power-on terminal over a scratch page: the terminal is the only parser of a set-up.
ghost use Rattle.std.specs.Prelude.{◌≡◌, true, ◌++◌, take, drop};
ghost use Rattle.rules.specs.Cell.{same};
ghost use Rattle.rules.specs.Slot.{texts_ok};
ghost use Rattle.saved.specs.SetupBytes.{setup_bytes};
ghost use Rattle.saved.specs.Settings.{fed, with_settings};
ghost use Rattle.saved.specs.Store.{is_setup};

use crate::bytes::encode;
use rules::{Personality, Setup};
use state::power_on_state;
use terminal::run;

// Whether a set-up has these bytes.
fn has_bytes(u: Setup, bytes: &[u8]) -> bool
    requires { (texts_ok 0 u.keys ≡ true) × (texts_ok 0x20 u.labels ≡ true) }
    ensures { result ≡ same bytes.now (setup_bytes u) }
{
    let mut out = [0; 1087];
    let n = encode(u, &mut out);
    bytes == &out[..n]
}

// The set-up after the bytes. Ruled out: one that reads them by itself.
fn setup_after(m: Personality, bytes: &[u8]) -> Setup
    ensures { (result ≡ fed m bytes.now) × ((texts_ok 0 result.keys ≡ true) × (texts_ok 0x20 result.labels ≡ true)) }
{
    let mut page: [u16; 1920] = [0; 1920];
    let mut room: [u8; 0] = [0; 0];
    run(&mut page, power_on_state(m), bytes, &mut room)
        .state
        .setup
}

// Whether bytes are those of a possible set-up.
pub(crate) fn is_setup(bytes: &[u8]) -> bool
    ensures { result ≡ is_setup bytes.now }
{
    let u = setup_after(Personality::Wy50, bytes);
    has_bytes(u, bytes)
}

// The stops of columns 1 to 80 from one set-up, those beyond from another.
fn join_stops(from: [bool; 132], beyond: [bool; 132]) -> [bool; 132]
    ensures { result ≡ take 80 from ++ drop 80 beyond }
{
    let mut t = beyond;
    t[..80].copy_from_slice(&from[..80]);
    t
}

fn with_settings_of(v: Setup, u: Setup) -> Setup
    ensures { result ≡ with_settings v u }
{
    let tabs = join_stops(v.tabs, u.tabs);
    let attributes = v.attributes;
    let features = v.features;
    let keys = v.keys;
    let labels = v.labels;
    Setup {
        tabs,
        attributes,
        features,
        keys,
        labels,
        ..u
    }
}

// A set-up with the settings that the bytes give a terminal of a personality.
pub(crate) fn with_settings(m: Personality, bytes: &[u8], u: Setup) -> Setup
    ensures { result ≡ with_settings (fed m bytes.now) u }
{
    let v = setup_after(m, bytes);
    with_settings_of(v, u)
}
