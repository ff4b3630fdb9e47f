// A set-up as the terminal's own command bytes, put into a lent slice.
ghost use Rattle.std.specs.Prelude.{◌≡◌, ℕ, true, [], ◌∷◌, ◌+◌, ◌*◌, ◌<◌, ◌≤◌, length, take};
ghost use Rattle.rules.specs.Slot.{texts_ok};
ghost use Rattle.saved.specs.SetupBytes.{stop_bytes, by_code, feature_bytes, attribute_bytes, text_bytes, texts_bytes, value_in, setup_bytes};
ghost use Rattle.saved.specs.Put.{Put};

use rules::{Setup, Text};

// Bytes from the place `start` on; the place behind them.
pub(crate) fn put(out: &mut [u8], start: usize, bytes: &[u8]) -> usize
    requires { start + length bytes.now ≤ length out.old }
    ensures { Put start bytes.now out.old result out.new }
{
    let end = start + bytes.len();
    out[start..end].copy_from_slice(bytes);
    end
}

// ESC = 20h c ESC 1, if there is a stop in the column.
fn put_stop(out: &mut [u8], n: usize, stop: bool, column: u8) -> usize
    requires { (column < 80) × (n + length (stop_bytes column (stop ∷ [])) ≤ length out.old) }
    ensures { Put n (stop_bytes column (stop ∷ [])) out.old result out.new }
{
    if stop {
        return put(out, n, &[0x1b, b'=', 0x20, 0x20 + column, 0x1b, b'1']);
    }
    n
}

// The stops of columns 1 to 80.
fn put_stops(out: &mut [u8], start: usize, tabs: [bool; 132]) -> usize
    requires { start + length (stop_bytes 0 (take 80 tabs)) ≤ length out.old }
    ensures { Put start (stop_bytes 0 (take 80 tabs)) out.old result out.new }
{
    let mut n = start;
    for (i, stop) in tabs[..80].iter().enumerate() {
        n = put_stop(out, n, *stop, i as u8);
    }
    n
}

// ESC ` for each of three features.
fn put_three(out: &mut [u8], n: usize, a: u8, b: u8, c: u8) -> usize
    requires { n + 9 ≤ length out.old }
    ensures { Put n (feature_bytes (a ∷ b ∷ c ∷ [])) out.old result out.new }
{
    put(out, n, &[0x1b, b'`', a, 0x1b, b'`', b, 0x1b, b'`', c])
}

// The features by code: the protected look 41h comes behind the scrolling code.
fn put_features(out: &mut [u8], n: usize, f: [u8; 5]) -> usize
    requires { n + 15 ≤ length out.old }
    ensures { Put n (feature_bytes (by_code f)) out.old result out.new }
{
    let m = put(out, n, &[0x1b, b'`', f[0], 0x1b, b'`', f[1]]);
    if f[2] < 0x41 {
        return put_three(out, m, f[2], f[3], f[4]);
    }
    put_three(out, m, f[3], f[4], f[2])
}

// ESC A for each field.
fn put_attributes(out: &mut [u8], n: usize, a: [u8; 4]) -> usize
    requires { n + 16 ≤ length out.old }
    ensures { Put n (attribute_bytes 0x30 a) out.old result out.new }
{
    let m = put(out, n, &[0x1b, b'A', 0x30, a[0], 0x1b, b'A', 0x31, a[1]]);
    put(out, m, &[0x1b, b'A', 0x32, a[2], 0x1b, b'A', 0x33, a[3]])
}

// The texts of the keys or of the labels: the byte that ends each, and the values of their places, those from `half` on apart.
#[derive(Clone, Copy)]
struct Texts {
    end: u8,
    half: u8,
    first: u8,
    second: u8,
}

const KEYS: Texts = Texts {
    end: 0x7f,
    half: 16,
    first: 0x40,
    second: 0x50,
};

const LABELS: Texts = Texts {
    end: 0x0d,
    half: 8,
    first: 0x30,
    second: 0x48,
};

// The value of a place.
fn value_of(x: Texts, n: u8) -> u8
    requires { (x.first + n < 256) × (x.second + n < 256) }
    ensures { result ≡ value_in x.half x.first x.second n }
{
    if n < x.half {
        x.first + n
    } else {
        x.second + n
    }
}

// ESC z value text, and the byte that ends it.
fn put_text(out: &mut [u8], n: usize, end: u8, value: u8, t: Text<8>) -> usize
    requires { (t.len ≤ 8) × (n + length (text_bytes end value t) ≤ length out.old) }
    ensures { Put n (text_bytes end value t) out.old result out.new }
{
    let len = t.len as usize;
    let bytes = t.bytes;
    let a = put(out, n, &[0x1b, b'z', value]);
    let b = put(out, a, &bytes[0..len]);
    put(out, b, &[end])
}

// Each of some texts.
fn put_texts(out: &mut [u8], start: usize, x: Texts, texts: &[Text<8>]) -> usize
    requires { ((low : ℕ) × (texts_ok low texts.now ≡ true)) × ((start + 12 * length texts.now ≤ length out.old)
        × ((x.first + length texts.now ≤ 256) × (x.second + length texts.now ≤ 256))) }
    ensures { Put start (texts_bytes x.end (value_in x.half x.first x.second) 0 texts.now) out.old result out.new
        × (result ≤ start + 12 * length texts.now) }
{
    let mut n = start;
    for (i, t) in texts.iter().enumerate() {
        n = put_text(out, n, x.end, value_of(x, i as u8), *t);
    }
    n
}

// The bytes of a set-up at the front of a slice; how many there are.
pub(crate) fn encode(u: Setup, out: &mut [u8]) -> usize
    requires { ((texts_ok 0 u.keys ≡ true) × (texts_ok 0x20 u.labels ≡ true)) × (1087 ≤ length out.old) }
    ensures { Put 0 (setup_bytes u) out.old result out.new × (result ≤ 1087) }
{
    let a = put_stops(out, 0, u.tabs);
    let b = put_features(out, a, u.features);
    let c = put_attributes(out, b, u.attributes);
    let d = put_texts(out, c, KEYS, &u.keys);
    put_texts(out, d, LABELS, &u.labels)
}
