// Stores, edits and clears.
ghost use Rattle.std.specs.Prelude.{◌≡◌, ◌<◌, false, length, slice_index_or};
ghost use Rattle.rules.specs.Row.{wide_cells};
ghost use Rattle.rules.specs.Search.{guarded_at};
ghost use Rattle.rules.specs.Cell.{normal, written, space};
ghost use Rattle.rules.specs.Arguments.{attribute_of};
ghost use Rattle.rules.specs.State.{Inside, page_length, cursor_of};
ghost use Rattle.rules.specs.Plan.{unless_guarded, writing as writing_of, storing as storing_of, advancing as advancing_of, store_plan, takes_cell};
ghost use Rattle.rules.specs.Plan.{attribute_plan, row_edit_plan, edit_plan, clear_plan};

use super::forms::{plain, refusing, writing, writing_two};
use super::moves::{scroll, scrolls};
use page::cell::{NORMAL, PROTECTED_SPACE, SPACE, written_cell};
use page::search::is_guarded_at;
use rules::{Answer, Clear, Contents, Core, Edit, Land, Personality, Plan, Write};
use state::core_parts::with_attribute;
use state::decode::attribute_contents;
use state::screen::{
    cursor_column, cursor_of, cursor_row, row_start, segment_bottom, segment_end, segment_start,
    segment_top, width_of,
};

// Whether the cell is guarded.
pub fn guarded_at(page: &[u16], on: bool, at: u16) -> bool
    requires { at < length page.now }
    ensures { result ≡ slice_index_or (guarded_at on page.now) at false }
{
    is_guarded_at(page, on, at as usize)
}

fn storing(insert: bool, at: u16, v: u16) -> Write
    requires { at < wide_cells }
    ensures { result ≡ storing_of insert at v }
{
    if insert {
        Write::Edit {
            right: true,
            at,
            value: v,
        }
    } else {
        Write::Fill {
            from: at,
            to: at + 1,
            value: v,
        }
    }
}

// The write of a store, and where the cursor goes after it.
fn advancing(core: Core, w: Write) -> Plan
    requires { Inside core.screen }
    ensures { result ≡ advancing_of core w }
{
    let x = core.screen;
    let m = core.modes;
    let at = cursor_of(x);
    let end = segment_end(x);
    if at + 1 < end {
        return writing(core, w, Land::Settle(at + 1));
    }
    if scrolls(m) {
        return writing_two(core, w, scroll(x, false), Land::Settle(end - width_of(x)));
    }
    writing(core, w, Land::Settle(segment_start(x)))
}

pub fn plan_store(page: &[u16], core: Core, k: Contents, attribute: u8) -> Plan
    requires { (length page.now ≡ page_length core.screen) × (Inside core.screen × (attribute < 32)) }
    ensures { result ≡ store_plan (guarded_at core.modes.protect page.now) core k attribute }
{
    let x = core.screen;
    let at = cursor_of(x);
    if guarded_at(page, core.modes.protect, at) {
        return refusing(core, Answer::Barred);
    }
    let v = written_cell(k, core.modes.writeprotect, attribute);
    advancing(core, storing(core.modes.insert, at, v))
}

// Whether a code of ESC G takes a cell.
fn takes_cell(m: Personality, a: u8) -> bool
    ensures { result ≡ takes_cell m a }
{
    match m {
        Personality::Wy50 => true,
        Personality::Wy60 => a == 0x20,
    }
}

// The attribute of a code.
fn attribute_of(a: u8) -> u8
    ensures { result ≡ attribute_of a }
{
    if a < 0x70 { a % 16 } else { a % 16 + 16 }
}

// ESC G.
pub fn plan_attribute(page: &[u16], core: Core, a: u8) -> Plan
    requires { (length page.now ≡ page_length core.screen) × Inside core.screen }
    ensures { result ≡ attribute_plan (guarded_at core.modes.protect page.now) core a }
{
    let m = core.personality;
    if takes_cell(m, a) {
        return plan_store(page, core, attribute_contents(a), NORMAL);
    }
    plain(with_attribute(core, attribute_of(a)))
}

// ESC Q and ESC W: the edit run moves by one cell and a space comes in.
fn edit_cells(page: &[u16], core: Core, right: bool) -> Plan
    requires { (length page.now ≡ page_length core.screen) × Inside core.screen }
    ensures { result ≡ unless_guarded (guarded_at core.modes.protect page.now) core
        (writing_of core (Write.Edit right (cursor_of core.screen) space) Land.Stay) }
{
    let x = core.screen;
    let at = cursor_of(x);
    if guarded_at(page, core.modes.protect, at) {
        return refusing(core, Answer::Barred);
    }
    let w = Write::Edit {
        right,
        at,
        value: SPACE,
    };
    writing(core, w, Land::Stay)
}

// ESC E and ESC R: the rows from the cursor's on move by one row.
fn edit_rows(core: Core, down: bool) -> Plan
    requires { Inside core.screen }
    ensures { result ≡ row_edit_plan core down }
{
    let x = core.screen;
    if core.modes.protect {
        return refusing(core, Answer::Barred);
    }
    let w = Write::Rows {
        down,
        top: cursor_row(x),
        bottom: segment_bottom(x),
    };
    writing(core, w, Land::Settle(row_start(x)))
}

pub fn plan_edit(page: &[u16], core: Core, e: Edit) -> Plan
    requires { (length page.now ≡ page_length core.screen) × Inside core.screen }
    ensures { result ≡ edit_plan (guarded_at core.modes.protect page.now) core e }
{
    match e {
        Edit::InsertCell => edit_cells(page, core, true),
        Edit::DeleteCell => edit_cells(page, core, false),
        Edit::InsertRow => edit_rows(core, true),
        Edit::DeleteRow => edit_rows(core, false),
    }
}

// The open cells from `from` up to `to` are cleared.
fn clearing(core: Core, k: Contents, from: u16, to: u16, land: Land) -> Plan
    ensures { result ≡ writing_of core (Write.Fill from to (written k false normal)) land }
{
    let w = Write::Fill {
        from,
        to,
        value: written_cell(k, false, NORMAL),
    };
    writing(core, w, land)
}

pub fn plan_clear(core: Core, x: Clear) -> Plan
    requires { Inside core.screen }
    ensures { result ≡ clear_plan core x }
{
    let s = core.screen;
    let at = cursor_of(s);
    let start = segment_start(s);
    let end = segment_end(s);
    let first = row_start(s);
    let row = first + width_of(s);
    match x {
        Clear::Row(k) => clearing(core, k, at, row, Land::Stay),
        Clear::Rest(k) => clearing(core, k, at, end, Land::Stay),
        Clear::Segment(k) => clearing(core, k, start, end, Land::Settle(start)),
        Clear::Column => {
            let w = Write::Column {
                top: segment_top(s),
                bottom: segment_bottom(s),
                column: cursor_column(s),
                value: PROTECTED_SPACE,
            };
            writing(core, w, Land::Settle(at))
        }
    }
}
