// Text that the fast path stores, or in insert mode inserts, from the cursor on.
ghost use Rattle.std.specs.Prelude.{◌≡◌, ℕ, ◌+◌, ◌<◌, ◌≤◌, true, false, length};
ghost use Rattle.terminal.specs.FastPath.{Fits, Stored, Passes};

use crate::fast::{Ground, Reached};
use page::cell::is_guarded;
use page::change::shift_edit_run;
use page::search::is_guarded_at;

// Whether the byte is text, and the cell and the next one are open.
fn is_stored(page: &[u16], ground: Ground, at: usize, b: u8) -> bool
    requires { Fits ground page.now × (at + 1 < ground.end) }
    ensures { result ≡ true → Stored ground page.now at b }
{
    0x20 <= b
        && b <= 0x7e
        && !is_guarded_at(page, ground.protect, at)
        && !is_guarded_at(page, ground.protect, at + 1)
}

// The number of a text cell.
fn text_cell(base: u16, b: u8) -> u16
    requires { base < 32768 }
    ensures { result ≡ base + b }
{
    base + b as u16
}

// The byte before which text stops at the latest: it leaves the segment's last cell.
fn stop(first: usize, end: usize, from: usize, len: usize) -> usize
    requires { (first < end) × (from ≤ len) }
    ensures { (n : ℕ) → from + n < result → (first + n + 1 < end) × (from + n < len) }
{
    let cells = end - first - 1;
    if cells < len - from {
        return from + cells;
    }
    len
}

// Text is stored from the cursor `first` on. Here and below a place and a byte move along together, and both are given back: a `for` would count
// one of them, and the other would still be counted by hand. It stands by itself, for speed: as a part of the run its loop fetches the place of the
// input from the stack at each byte, and text takes half as long again.
#[inline(never)]
fn store(page: &mut [u16], ground: Ground, first: usize, input: &[u8], from: usize) -> Reached
    requires { Fits ground page.old × ((first < ground.end) × ((from ≤ length input.now) × (ground.insert ≡ false))) }
    ensures { Passes ground input.now first from page.old result.at result.taken page.new 0 }
{
    let last = stop(first, ground.end, from, input.len());
    let mut at = first;
    let mut i = from;
    while i < last {
        let b = input[i];
        if !is_stored(page, ground, at, b) {
            return Reached { at, taken: i };
        }
        page[at] = text_cell(ground.base, b);
        at += 1;
        i += 1;
    }
    Reached { at, taken: i }
}

// Text is inserted from there on; not where that would guard a cell.
fn insert(page: &mut [u16], ground: Ground, first: usize, input: &[u8], from: usize) -> Reached
    requires { Fits ground page.old × ((first < ground.end) × ((from ≤ length input.now) × (ground.insert ≡ true))) }
    ensures { Passes ground input.now first from page.old result.at result.taken page.new 0 }
{
    let last = stop(first, ground.end, from, input.len());
    let mut at = first;
    let mut i = from;
    while i < last {
        let b = input[i];
        if !is_stored(page, ground, at, b) {
            return Reached { at, taken: i };
        }
        let v = text_cell(ground.base, b);
        if is_guarded(ground.protect, v) {
            return Reached { at, taken: i };
        }
        shift_edit_run(page, ground.wide, ground.protect, true, at, v);
        at += 1;
        i += 1;
    }
    Reached { at, taken: i }
}

pub(crate) fn put(
    page: &mut [u16],
    ground: Ground,
    first: usize,
    input: &[u8],
    from: usize,
) -> Reached
    requires { Fits ground page.old × ((first < ground.end) × (from ≤ length input.now)) }
    ensures { Passes ground input.now first from page.old result.at result.taken page.new 0 }
{
    if ground.insert {
        return insert(page, ground, first, input, from);
    }
    store(page, ground, first, input, from)
}
