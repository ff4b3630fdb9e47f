// Mending a damaged saved page: each cell becomes one that the terminal could have written under a named personality.
#![tactic(auto)]

ghost use Rattle.std.specs.Prelude.{◌≡◌, [], ◌∷◌, ◌+◌, ◌*◌, ◌<◌, ◌≤◌, leb, ltb, length, get_or};
ghost use Rattle.std.proofs.lemmas.List.Edits.{sets};
ghost use Rattle.rules.specs.Cell.{both};
ghost use Rattle.rules.specs.Row.{columns, wide_cells};
ghost use Rattle.rules.specs.Room.{over};
ghost use Rattle.rules.specs.Arguments.{is_flags};
ghost use Rattle.rules.specs.Writable.{is_stored, is_attribute_cell, writable};
ghost use Rattle.mend.specs.Mend.{mended, damaged, numbers, entries, mend_rule, CellMended, mend_given, Gives};

use page::cell::NULL;
use page::search::{column_of, is_wide, row_of};
use rules::Personality;
use state::possible::remembered_ok;

// Why nothing is mended: no page has so many cells; a list that is too short for the entries that are needed.
#[derive(Clone, Copy, PartialEq, Eq, Debug)]
pub enum Refusal {
    BadCall,
    NoRoom { needed: u16 },
}

// As C holds it: the answer, and how many entries the list needs.
#[repr(C)]
#[derive(Clone, Copy)]
pub struct MendResult {
    pub answer: u8,
    pub needed: u16,
}

#[tactic(auto, unfolding(crate::specs::Mend::mend_given))]
pub fn mend_given(r: Result<u16, Refusal>) -> MendResult
    ensures { result ≡ mend_given r }
{
    let (answer, needed) = match r {
        Ok(needed) => (0, needed),
        Err(Refusal::NoRoom { needed }) => (6, needed),
        Err(Refusal::BadCall) => (7, 0),
    };
    MendResult { answer, needed }
}

// A number from `low` up to, not including, `high`.
fn is_between(v: u16, low: u16, high: u16) -> bool
    ensures { result ≡ both (leb low v) (ltb v high) }
{
    low <= v && v < high
}

// A code of flags: 30h to 3Fh or 70h to 7Eh.
fn is_flags(code: u16) -> bool
    ensures { result ≡ is_flags code }
{
    is_between(code, 0x30, 0x40) || is_between(code, 0x70, 0x7f)
}

// Text or a graphic.
fn is_stored(personality: Personality, v: u16) -> bool
    ensures { result ≡ is_stored personality v }
{
    if 32768 <= v || !remembered_ok(personality, (v / 1024 % 32) as u8) {
        return false;
    }
    match v / 256 % 4 {
        0 => is_between(v % 128, 0x20, 0x7f),
        2 => is_between(v % 128, 0x30, 0x40),
        _ => false,
    }
}

fn is_attribute_cell(personality: Personality, v: u16) -> bool
    ensures { result ≡ is_attribute_cell personality v }
{
    is_flags(v % 128)
        && match personality {
            Personality::Wy50 => v / 256 == 1,
            Personality::Wy60 => v / 128 == 2,
        }
}

// A number that the personality writes. Ruled out: one that takes a protected null, or 7Fh for text.
pub fn is_writable(personality: Personality, v: u16) -> bool
    ensures { result ≡ writable personality v }
{
    v == NULL || is_stored(personality, v) || is_attribute_cell(personality, v)
}

// How many cells are not writable. Added up, for speed: `filter` and `count` branch at each cell, and a mend took a third more instructions.
fn damaged_count(page: &[u16], personality: Personality) -> u16
    requires { length page.now ≤ wide_cells }
    ensures { result ≡ length (damaged personality 0 page.now) }
{
    let mut n = 0;
    for v in page {
        n += !is_writable(personality, *v) as u16;
    }
    n
}

// The four numbers of an entry, from place `at` of the list on.
fn put_entry(list: &mut [u16], at: usize, row: u16, column: u16, old: u16)
    requires { (at < 4 * wide_cells) × (at + 4 ≤ length list.old) }
    ensures { list.new ≡ sets list.old at (numbers row column old) }
{
    list[at] = row;
    list[at + 1] = column;
    list[at + 2] = old;
    list[at + 3] = NULL;
}

// Cell `at`, `n` entries being in the list: where it is not writable, its entry is the next one and it becomes a null. How many there are then.
fn mend_cell(
    page: &mut [u16],
    list: &mut [u16],
    personality: Personality,
    wide: bool,
    at: usize,
    n: usize,
) -> usize
    requires { (at < length page.old)
        × ((length page.old ≤ wide_cells)
        × ((n < wide_cells)
        × (4 * n + length (entries (columns wide) (damaged personality at (get_or page.old at 0 ∷ []))) ≤ length list.old))) }
    ensures { CellMended personality (columns wide) at n page.old list.old result page.new list.new }
{
    let old = page[at];
    if is_writable(personality, old) {
        return n;
    }
    page[at] = NULL;
    put_entry(
        list,
        4 * n,
        row_of(wide, at) as u16 + 1,
        column_of(wide, at) as u16 + 1,
        old,
    );
    n + 1
}

fn mend_cells(page: &mut [u16], list: &mut [u16], personality: Personality, wide: bool)
    requires { (length page.old ≤ wide_cells) × (4 * length (damaged personality 0 page.old) ≤ length list.old) }
    ensures cells { page.new ≡ mended personality page.old }
    ensures listed { list.new ≡ over (entries (columns wide) (damaged personality 0 page.old)) list.old }
{
    let mut n = 0;
    // By index: a proof knows nothing of the values that `iter_mut().enumerate()` leaves.
    for at in 0..page.len() {
        n = mend_cell(page, list, personality, wide, at, n);
    }
}

// Unwritable cells, and no others, become unprotected nulls, and the list has an entry of four numbers for each: row, column, old number, new
// number. How many entries there are. Ruled out: a page changed where the list is too short, and an entry for a cell that stays.
pub fn mend(page: &mut [u16], personality: Personality, list: &mut [u16]) -> Result<u16, Refusal>
    ensures { Gives (mend_rule personality page.old list.old) (mend_given result) page.new list.new }
{
    let Some(wide) = is_wide(page.len()) else {
        return Err(Refusal::BadCall);
    };
    let needed = damaged_count(page, personality);
    if list.len() / 4 < needed as usize {
        return Err(Refusal::NoRoom { needed });
    }
    mend_cells(page, list, personality, wide);
    Ok(needed)
}
