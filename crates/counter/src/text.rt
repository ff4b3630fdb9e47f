// The count of a text. `cut` says whether marks are cut out of it.
ghost use Rattle.std.specs.Prelude.{◌≡◌, ◌+◌, ◌<◌, ◌≤◌, length, take};
ghost use Rattle.counter.specs.Alphabet.{in_alphabet, cost};
ghost use Rattle.counter.specs.Count.{text_count};
ghost use Rattle.counter.specs.Walk.{no_tally, tallied, tally_parts, Within, cuts, remaining, walked, drops};
ghost use Rattle.counter.specs.Walk.{stripped as stripped_of};

use crate::pieces::is_mark;
use crate::{Refusal, Size};

// What is counted: characters, units, parts opened, and the units in the last of these.
#[derive(Clone, Copy)]
pub struct Tally {
    pub place: usize,
    pub units: u64,
    pub parts: u64,
    pub held: u8,
}

impl Tally {
    // Nothing is counted yet, and no part is open: the next character opens one.
    fn new() -> Tally
        ensures { result ≡ no_tally }
    {
        Tally {
            place: 0,
            units: 0,
            parts: 0,
            held: 153,
        }
    }

    // A character of n units more. Units are counted up to the largest number.
    #[tactic(auto, using(crate::proofs::Tests::tests), unfolding(crate::specs::Walk::tallied, crate::specs::Count::capped))]
    fn add(self, n: u8) -> Tally
        requires { (n ≤ 2) × Within self 18446744073709551614 }
        ensures { result ≡ tallied self n }
    {
        let place = self.place + 1;
        let units = self.units.saturating_add(u64::from(n));
        let held = self.held + n;
        if held <= 153 {
            Tally {
                place,
                units,
                held,
                ..self
            }
        } else {
            Tally {
                place,
                units,
                parts: self.parts + 1,
                held: n,
            }
        }
    }

    // The parts of all that is counted.
    #[tactic(auto, using(crate::proofs::Tests::tests), unfolding(crate::specs::Walk::tally_parts))]
    fn parts(self) -> u64
        ensures { result ≡ tally_parts self }
    {
        match self.units {
            0 => 0,
            1..=160 => 1,
            _ => self.parts,
        }
    }
}

#[tactic(auto, using(crate::proofs::Tests::tests), unfolding(crate::specs::Alphabet::in_alphabet))]
fn in_alphabet(b: u8) -> bool
    ensures { result ≡ in_alphabet b }
{
    b' ' <= b && b <= b'~' && b != b'`'
}

// An arm for each character: with one arm for all eight a text takes an eighth longer to count.
#[tactic(auto, using(crate::proofs::Tests::tests), unfolding(crate::specs::Alphabet::cost))]
fn cost_of(b: u8) -> u8
    ensures { result ≡ cost b }
{
    match b {
        b'^' => 2,
        b'{' => 2,
        b'}' => 2,
        b'\\' => 2,
        b'[' => 2,
        b'~' => 2,
        b']' => 2,
        b'|' => 2,
        _ => 1,
    }
}

#[tactic(auto, using(crate::proofs::Tests::tests), unfolding(crate::specs::Walk::cuts))]
fn is_cut(cut: bool, b: u8) -> bool
    ensures { result ≡ cuts cut b }
{
    cut && is_mark(b)
}

// Counts all of a text, trailing spaces too.
#[tactic(auto, using(crate::proofs::Tallies::walk_steps))]
fn walk(text: &[u8], cut: bool) -> Result<Size, Refusal>
    ensures { result ≡ walked cut no_tally text.now }
{
    let mut t = Tally::new();
    for b in text {
        if is_cut(cut, *b) {
            continue;
        }
        if !in_alphabet(*b) {
            return Err(Refusal::BadByte(t.place));
        }
        t = t.add(cost_of(*b));
    }
    Ok(Size {
        units: t.units,
        parts: t.parts(),
    })
}

// Of the bytes at a text's end: spaces, and marks that are cut out.
#[tactic(auto, using(crate::proofs::Tests::tests), unfolding(crate::specs::Walk::drops))]
fn is_dropped(cut: bool, b: u8) -> bool
    ensures { result ≡ drops cut b }
{
    b == b' ' || is_cut(cut, b)
}

// A text without the bytes that are dropped at its end.
#[tactic(auto, using(crate::proofs::Texts::strip_steps))]
fn stripped(text: &[u8], cut: bool) -> &[u8]
    ensures { result.now ≡ stripped_of cut text.now }
{
    match text.iter().rposition(|b| !is_dropped(cut, *b)) {
        Some(i) => &text[..i + 1],
        None => &[],
    }
}

pub(crate) fn count_remaining(text: &[u8], cut: bool) -> Result<Size, Refusal>
    ensures { result ≡ text_count (remaining cut text.now) }
{
    walk(stripped(text, cut), cut)
}
