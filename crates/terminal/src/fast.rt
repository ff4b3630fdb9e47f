// The fast path: host bytes that are carried out without a plan for each. It goes on in one segment while nothing is under way: text, ESC =, the
// moves of one byte and the scrolls of 0Ah and 1Fh, edits and clears, as long as the cursor lands on open cells. docs/CHANGING.md says what may go
// here.
mod edits; // what it edits and clears
mod moves; // where it moves the cursor
mod text; // text that it stores

ghost use Rattle.std.specs.Prelude.{◌≡◌, ◌<◌, ◌≤◌, true, length, slice_index};
ghost use Rattle.rules.specs.Cell.{pick};
ghost use Rattle.rules.specs.Row.{wide_cells};
ghost use Rattle.rules.specs.Possible.{screen_ok};
ghost use Rattle.rules.specs.Plan.{scrolls as scrolls_of};
ghost use Rattle.rules.specs.State.{page_length, cursor_of};
ghost use Rattle.terminal.specs.FastPath.{Fits, Passes, FastPath, ground_of, core_at};

use crate::fast::edits::edit;
use crate::fast::moves::{address, is_outside, open_goal, roll};
use crate::fast::text::put;
use carry::writes::write;
use page::cell::written_cell;
use page::change::shift_rows;
use rules::{Contents, Core, Modes, Pending};
use state::core_parts::{idle, with_screen};
use state::screen::{
    cursor_of, segment_bottom, segment_end, segment_start, segment_top, with_cursor,
};

// What the fast path goes by and does not change: the modes, the width, what the number of a text cell has beside its code, and the segment's cells
// and rows.
#[derive(Clone, Copy)]
pub struct Ground {
    pub protect: bool,
    pub insert: bool,
    pub rolls: bool,
    pub wide: bool,
    pub base: u16,
    pub home: usize,
    pub end: usize,
    pub top: usize,
    pub bottom: usize,
}

// Where text or a move ends: the cursor, and the first byte that it did not take.
#[derive(Clone, Copy)]
pub struct Reached {
    pub at: usize,
    pub taken: usize,
}

// The same of the whole path, and how many bytes it refused.
#[derive(Clone, Copy)]
pub struct Passed {
    pub at: usize,
    pub taken: usize,
    pub refused: usize,
}

// ESC =, refused outside the segment unless that is to stop the path, or an edit; no byte is taken where it is neither.
fn escape(page: &mut [u16], ground: Ground, at: usize, input: &[u8], i: usize, stop: bool) -> Passed
    requires { Fits ground page.old × ((at < ground.end) × ((i < length input.now) × (slice_index input.now i ≡ 0x1b))) }
    ensures { Passes ground input.now at i page.old result.at result.taken page.new result.refused
        × (stop ≡ true → result.refused ≡ 0) }
{
    if let Some(k) = address(page, ground, input, i) {
        return Passed {
            at: k,
            taken: i + 4,
            refused: 0,
        };
    }
    if is_outside(ground, input, i, stop) {
        return Passed {
            at,
            taken: i + 4,
            refused: 1,
        };
    }
    if input.len() <= i + 1 {
        return Passed {
            at,
            taken: i,
            refused: 0,
        };
    }
    let Some(act) = edit(page, ground, at, input[i + 1]) else {
        return Passed {
            at,
            taken: i,
            refused: 0,
        };
    };
    write(page, ground.wide, ground.protect, act.write);
    Passed {
        at: act.at,
        taken: i + 2,
        refused: 0,
    }
}

// A move of one byte, or a scroll.
fn go(page: &mut [u16], ground: Ground, at: usize, input: &[u8], i: usize) -> Reached
    requires { Fits ground page.old × ((at < ground.end) × (i < length input.now)) }
    ensures { Passes ground input.now at i page.old result.at result.taken page.new 0 }
{
    let b = input[i];
    if let Some(k) = open_goal(page, ground, at, b) {
        return Reached {
            at: k,
            taken: i + 1,
        };
    }
    let Some(k) = roll(ground, at, b) else {
        return Reached { at, taken: i };
    };
    shift_rows(page, ground.wide, false, ground.top, ground.bottom);
    Reached {
        at: k,
        taken: i + 1,
    }
}

fn turn(page: &mut [u16], ground: Ground, at: usize, input: &[u8], i: usize, stop: bool) -> Passed
    requires { Fits ground page.old × ((at < ground.end) × (i < length input.now)) }
    ensures { Passes ground input.now at i page.old result.at result.taken page.new result.refused
        × (stop ≡ true → result.refused ≡ 0) }
{
    if input[i] == 0x1b {
        return escape(page, ground, at, input, i, stop);
    }
    let reached = go(page, ground, at, input, i);
    Passed {
        at: reached.at,
        taken: reached.taken,
        refused: 0,
    }
}

fn pass(
    page: &mut [u16],
    ground: Ground,
    first: usize,
    input: &[u8],
    from: usize,
    stop: bool,
) -> Passed
    requires { Fits ground page.old × ((first < ground.end) × (from ≤ length input.now)) }
    ensures { Passes ground input.now first from page.old result.at result.taken page.new result.refused
        × (stop ≡ true → result.refused ≡ 0) }
{
    let mut at = first;
    let mut i = from;
    let mut refused = 0;
    // `i` moves by what text, a move or an edit took: no `for`
    while i < input.len() {
        let text = put(page, ground, at, input, i);
        at = text.at;
        i = text.taken;
        if input.len() <= i {
            return Passed {
                at,
                taken: i,
                refused,
            };
        }
        let next = turn(page, ground, at, input, i, stop);
        refused += next.refused;
        if next.taken <= i {
            return Passed {
                at: next.at,
                taken: next.taken,
                refused,
            };
        }
        at = next.at;
        i = next.taken;
    }
    Passed {
        at,
        taken: i,
        refused,
    }
}

fn still(core: Core, from: usize) -> Passed
    ensures { result ≡ record { at = cursor_of core.screen; taken = from; refused = 0 } }
{
    Passed {
        at: cursor_of(core.screen) as usize,
        taken: from,
        refused: 0,
    }
}

// The twin of plan's, whose moves no other crate calls.
fn scrolls(m: Modes) -> bool
    ensures { result ≡ scrolls_of m }
{
    m.autoscroll && !m.protect
}

fn ground_of(core: Core) -> Ground
    requires { core.attribute < 32 }
    ensures { result ≡ ground_of core }
{
    let x = core.screen;
    Ground {
        protect: core.modes.protect,
        insert: core.modes.insert,
        rolls: scrolls(core.modes),
        wide: x.wide,
        base: written_cell(Contents::Text(0), core.modes.writeprotect, core.attribute),
        home: segment_start(x) as usize,
        end: segment_end(x) as usize,
        top: segment_top(x) as usize,
        bottom: segment_bottom(x) as usize,
    }
}

// From the byte `from` on; if it is to stop at a refusal, it leaves it.
pub(crate) fn fast_path(
    page: &mut [u16],
    core: Core,
    input: &[u8],
    from: usize,
    stop: bool,
) -> Passed
    requires { (length page.old ≡ page_length core.screen)
        × ((screen_ok core.screen ≡ true) × ((from < length input.now) × (core.attribute < 32))) }
    ensures { FastPath core input.now from page.old result.at result.taken page.new result.refused
        × (stop ≡ true → result.refused ≡ 0) }
{
    let q = core.pending;
    match q {
        Pending::Idle => pass(
            page,
            ground_of(core),
            cursor_of(core.screen) as usize,
            input,
            from,
            stop,
        ),
        _ => still(core, from),
    }
}

// The core after a path that ended at a cursor; the same one where it took nothing.
pub(crate) fn moved(core: Core, at: usize, same: bool) -> Core
    requires { at < wide_cells }
    ensures { result ≡ pick same core (core_at core at) }
{
    if same {
        return core;
    }
    with_screen(idle(core), with_cursor(core.screen, at as u16))
}
