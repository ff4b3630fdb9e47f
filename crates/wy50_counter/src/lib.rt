// The alert counter for C and Rust. A slice crosses as a pointer and a count, and a count comes back as numbers.
#![tactic(auto)]

ghost use Rattle.std.specs.Prelude.{◌≡◌, ◌+◌, ◌*◌};
ghost use Rattle.counter.specs.Count.{numbers, text_count, count_rule};
ghost use Rattle.wy50_counter.specs.Raw.{raw as raw_of, billed as billed_of};

use counter::{Refusal, Size, count, count_text};

// The version of this library as one number: a million times the major number, a thousand times the minor one and the patch. tools/version writes
// it here and in the contract.
const VERSION: u32 = 13000;

pub fn wy50_counter_version() -> u32
    ensures { result ≡ 1000000 * 0 + 1000 * 13 + 0 }
{
    VERSION
}

// The units and parts of a text that is counted; else why it is not: 1 no final CR, 2 a bad first number, 3 a bad last one, 4 a byte outside
// the alphabet, at `place`. What does not apply is 0.
#[repr(C)]
#[derive(Clone, Copy)]
pub struct RawCount {
    pub units: u64,
    pub parts: u64,
    pub place: u64,
    pub refusal: u8,
}

const NONE: RawCount = RawCount {
    units: 0,
    parts: 0,
    place: 0,
    refusal: 0,
};

impl From<Result<Size, Refusal>> for RawCount {
    ghost from_gives = { λ c r. r ≡ raw_of (numbers c) };

    fn from(c: Result<Size, Refusal>) -> RawCount {
        match c {
            Ok(Size { units, parts }) => RawCount {
                units,
                parts,
                ..NONE
            },
            Err(Refusal::NoReturn) => RawCount { refusal: 1, ..NONE },
            Err(Refusal::BadFirst) => RawCount { refusal: 2, ..NONE },
            Err(Refusal::BadLast) => RawCount { refusal: 3, ..NONE },
            Err(Refusal::BadByte(place)) => RawCount {
                place: place as u64,
                refusal: 4,
                ..NONE
            },
        }
    }
}

fn billed(c: Result<Size, Refusal>) -> u64
    ensures { result ≡ billed_of (numbers c) }
{
    match c {
        Ok(size) => size.parts,
        Err(_) => u64::MAX,
    }
}

// The billing job's count of its own bytes: their parts, or the largest number for a byte outside the alphabet.
pub fn wy50_count_parts(text: &[u8]) -> u64
    ensures { result ≡ billed_of (numbers (text_count text.now)) }
{
    billed(count_text(text))
}

// The same count, with its units and the place of a refused byte.
pub fn wy50_count_text(text: &[u8]) -> RawCount
    ensures { result ≡ raw_of (numbers (text_count text.now)) }
{
    RawCount::from(count_text(text))
}

// The pieces of a reply to ESC 5, from number `first` to number `last`.
pub fn wy50_count_reply(reply: &[u8], first: usize, last: usize) -> RawCount
    ensures { result ≡ raw_of (numbers (count_rule reply.now first last)) }
{
    RawCount::from(count(reply, first, last))
}
