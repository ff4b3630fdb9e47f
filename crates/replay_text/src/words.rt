// A line's words, and the numbers and byte strings that they spell. Words are parted by one space.
ghost use Rattle.std.specs.Prelude.{◌≡◌, ◌≤◌, ◌==◌, position, IfSome, IfNone, IsSomeAnd, Ok, Err};
ghost use Rattle.replay_text.specs.Text.{first_word, later_words, word_count, number_of, decimal_digit, hex_digit, hex_byte, below};
ghost use Rattle.replay_text.specs.Text.{byte_of, is_hex, hex_bytes, is_string, Put, at_most, flag_of, personality_of};

use rules::Personality;

// A number of a script lies below LIMIT.
const LIMIT: usize = 0x1000_0000_0000_0000;

// How many words a line has.
pub fn word_count(line: &[u8]) -> usize
    ensures { result ≡ word_count line.now }
{
    line.iter().filter(|c| **c == b' ').count() + 1
}

// Where the first word ends, if others follow.
fn first_end(line: &[u8]) -> Option<usize>
    ensures { result ≡ position (λ c. c == 0x20) line.now }
{
    line.iter().position(|c| *c == b' ')
}

// The first word of a line.
pub fn first(line: &[u8]) -> &[u8]
    ensures { result.now ≡ first_word line.now }
{
    match first_end(line) {
        Some(end) => &line[..end],
        None => line,
    }
}

// The words after the first; empty where there are none.
pub fn later(line: &[u8]) -> &[u8]
    ensures { result.now ≡ later_words line.now }
{
    match first_end(line) {
        Some(end) => &line[end + 1..],
        None => &[],
    }
}

// The value of a decimal digit.
fn decimal_digit(c: u8) -> Option<usize>
    ensures { result ≡ below 10 (decimal_digit c) }
{
    match c {
        b'0'..=b'9' => Some((c - b'0') as usize),
        _ => None,
    }
}

// The number that a word spells in decimal digits.
pub fn number(word: &[u8]) -> Option<usize>
    ensures { result ≡ number_of word.now }
{
    if word.is_empty() {
        return None;
    }
    let mut n = 0;
    for c in word {
        n = n * 10 + decimal_digit(*c)?;
        if LIMIT <= n {
            return None;
        }
    }
    Some(n)
}

// The value of a hexadecimal digit in lower case.
fn hex_digit(c: u8) -> Option<u8>
    ensures { result ≡ below 16 (hex_digit c) }
{
    match c {
        b'0'..=b'9' => Some(c - b'0'),
        b'a'..=b'f' => Some(c - b'a' + 10),
        _ => None,
    }
}

// The byte that two hexadecimal digits spell.
pub fn hex_byte(high: u8, low: u8) -> Option<u8>
    ensures { result ≡ below 256 (hex_byte high low) }
{
    let h = hex_digit(high)?;
    let l = hex_digit(low)?;
    Some(h * 16 + l)
}

// The byte that a word of two digits spells.
pub fn byte(word: &[u8]) -> Option<u8>
    ensures { result ≡ byte_of word.now }
{
    match word {
        [high, low] => hex_byte(*high, *low),
        _ => None,
    }
}

// Puts the bytes that hexadecimal digits spell at the front of the room, and answers how many there are; nothing where they spell none, or more
// than the room holds.
pub fn hex_bytes(digits: &[u8], room: &mut [u8]) -> Option<usize>
    ensures { Put (is_hex digits.now) (hex_bytes digits.now) result room.old room.new }
{
    let most = digits.len() / 2;
    if digits.len() % 2 == 1 || room.len() < most {
        return None;
    }
    // by index: of an adapter over `iter_mut` a proof learns nothing of what is written
    for n in 0..most {
        room[n] = hex_byte(digits[2 * n], digits[2 * n + 1])?;
    }
    Some(most)
}

// The same of a word, where `-` spells no bytes and an empty word is none.
pub fn byte_string(word: &[u8], room: &mut [u8]) -> Option<usize>
    ensures { Put (is_string word.now) (hex_bytes word.now) result room.old room.new }
{
    match word {
        [] => None,
        b"-" => Some(0),
        _ => hex_bytes(word, room),
    }
}

// A number that fits a type.
pub fn number_as<T: TryFrom<usize>>(word: &[u8]) -> Option<T>
where
    T::Error: Drop,
    ensures spelled { IfSome result (λ v. IsSomeAnd (number_of word.now) (λ n. T.try_from_gives n (Ok v))) }
    ensures none { IfNone result (IfSome (number_of word.now) (λ n. (e : T.Error) × T.try_from_gives n (Err e))) }
{
    T::try_from(number(word)?).ok()
}

// A number up to `most`, a flag, a personality.
pub fn at_most(most: usize, word: &[u8]) -> Option<usize>
    ensures fits { IfSome result (λ n. n ≤ most) }
    ensures number { result ≡ at_most most word.now }
{
    let n = number(word)?;
    if n <= most { Some(n) } else { None }
}

pub fn flag(word: &[u8]) -> Option<bool>
    ensures { result ≡ flag_of word.now }
{
    match number(word)? {
        0 => Some(false),
        1 => Some(true),
        _ => None,
    }
}

pub fn personality(word: &[u8]) -> Option<Personality>
    ensures { result ≡ personality_of word.now }
{
    match number(word)? {
        50 => Some(Personality::Wy50),
        60 => Some(Personality::Wy60),
        _ => None,
    }
}
