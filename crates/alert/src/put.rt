// Text into a lent room: each function puts its bytes from a place on and answers the place after them. No format writes these lines: Puts of
// specs/Room says where in the room each byte stands, and that what does not fit is left out.
ghost use Rattle.std.specs.Prelude.{◌≡◌, ◌*◌, ◌<◌, [], ◌∷◌};
ghost use Rattle.rules.specs.Cell.{pick};
ghost use Rattle.rules.specs.Row.{columns};
ghost use Rattle.rules.specs.Send.{digit as digit_of};
ghost use Rattle.alert.specs.Room.{Puts, decimal_of, count_of, place_of};

use page::search::{column_of, row_of};

pub fn byte(room: &mut [u8], n: usize, b: u8) -> usize
    ensures { Puts (b ∷ []) n room.old result room.new }
{
    if n < room.len() {
        room[n] = b;
        return n + 1;
    }
    n
}

pub fn bytes(room: &mut [u8], start: usize, text: &[u8]) -> usize
    ensures { Puts text.now start room.old result room.new }
{
    let mut n = start;
    for b in text {
        n = byte(room, n, *b);
    }
    n
}

// The last decimal digit of a number.
fn digit(v: u64) -> u8
    ensures { result ≡ digit_of v }
{
    0x30 + (v % 10) as u8
}

// A byte where it is wanted.
fn wanted(room: &mut [u8], n: usize, is: bool, b: u8) -> usize
    ensures { Puts (pick is (b ∷ []) []) n room.old result room.new }
{
    if is { byte(room, n, b) } else { n }
}

pub fn decimal(room: &mut [u8], n: usize, v: u64) -> usize
    ensures { Puts (decimal_of v) n room.old result room.new }
{
    let a = wanted(room, n, 1000 <= v, digit(v / 1000));
    let b = wanted(room, a, 100 <= v, digit(v / 100));
    let c = wanted(room, b, 10 <= v, digit(v / 10));
    byte(room, c, digit(v))
}

// A number of things.
pub fn count(room: &mut [u8], n: usize, v: u64, word: &[u8]) -> usize
    ensures { Puts (count_of v word.now) n room.old result room.new }
{
    let a = decimal(room, n, v);
    let b = byte(room, a, b' ');
    let c = bytes(room, b, word);
    if v == 1 {
        return c;
    }
    byte(room, c, b's')
}

// A cell of the page, by its row and column.
pub fn place(room: &mut [u8], n: usize, wide: bool, at: usize) -> usize
    requires { at < 24 * columns wide }
    ensures { Puts (place_of (columns wide) at) n room.old result room.new }
{
    let a = bytes(room, n, b"row ");
    let b = decimal(room, a, row_of(wide, at) as u64 + 1);
    let c = bytes(room, b, b", column ");
    decimal(room, c, column_of(wide, at) as u64 + 1)
}
