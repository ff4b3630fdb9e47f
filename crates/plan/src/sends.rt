// Settings, replies, and the six commands that demand 3 leaves out.
ghost use Rattle.std.specs.Prelude.{◌≡◌, true, length};
ghost use Rattle.rules.specs.Search.{guarded_at};
ghost use Rattle.rules.specs.State.{page_length};
ghost use Rattle.rules.specs.Possible.{screen_ok};
ghost use Rattle.rules.specs.Plan.{setting_plan, short as short_of, text as text_of, unless_wide, send_plan, clear_all as clear_all_of};
ghost use Rattle.rules.specs.Plan.{protect_off as protect_off_of, excluded_plan};

use super::forms::{changing, plain, refusing, replying, writing};
use super::writes::guarded_at;
use page::cell::{NULL, PROTECTED_SPACE, SPACE};
use rules::{
    Answer, Core, Excluded, Land, Place, Plan, Send, Sending, Setting, SetupChange, Short, Write,
};
use state::core_parts::{with_modes, with_protect};
use state::possible::feature_place;
use state::screen::{cursor_column, cursor_of, segment_end, segment_start, text_start};

pub fn plan_setting(core: Core, s: Setting) -> Plan
    ensures { result ≡ setting_plan core s }
{
    match s {
        Setting::Tab(b) => changing(core, SetupChange::Tab(cursor_column(core.screen), b)),
        Setting::ClearTabs => changing(core, SetupChange::ClearTabs),
        Setting::Attribute(n, a) => changing(core, SetupChange::Attribute(n, a)),
        Setting::Feature(f) => changing(core, SetupChange::Feature(feature_place(f), f)),
        Setting::HideLine => changing(core, SetupChange::HideLine),
        Setting::Wish(b) => changing(core, SetupChange::Wish(b)),
    }
}

// A short reply, and a text, from their first place.
fn short(core: Core, x: Short) -> Plan
    ensures { result ≡ short_of core x }
{
    replying(core, Sending::Short(x, 0))
}

// ESC ? and ESC / answer 3 on a wide page.
fn narrowly(core: Core, x: Short) -> Plan
    ensures { result ≡ unless_wide core (short_of core x) }
{
    if core.screen.wide {
        return refusing(core, Answer::BadArgument);
    }
    short(core, x)
}

fn text(core: Core, all: bool, segment: bool) -> Plan
    ensures { result ≡ text_of core all segment }
{
    let x = Sending::Text {
        all,
        segment,
        at: Place::Cell(text_start(core.screen, segment)),
    };
    replying(core, x)
}

pub fn plan_send(page: &[u16], core: Core, s: Send) -> Plan
    requires { (length page.now ≡ page_length core.screen) × (screen_ok core.screen ≡ true) }
    ensures { result ≡ send_plan (guarded_at core.modes.protect page.now) core s }
{
    match s {
        Send::Acknowledge => short(core, Short::Acknowledge),
        Send::Identity => short(core, Short::Identity),
        Send::Cursor => narrowly(core, Short::Cursor),
        Send::SegmentCursor => narrowly(core, Short::SegmentCursor),
        Send::DecimalCursor => short(core, Short::DecimalCursor),
        Send::Cell => {
            if guarded_at(page, core.modes.protect, cursor_of(core.screen)) {
                return refusing(core, Answer::Barred);
            }
            short(core, Short::Cell)
        }
        Send::OpenRow => text(core, false, false),
        Send::OpenSegment => text(core, false, true),
    }
}

// All cells of the segment become v, and the cursor goes home.
fn clear_all(c: Core, v: u16) -> Plan
    ensures { result ≡ clear_all_of c v }
{
    let x = c.screen;
    let start = segment_start(x);
    let all = Write::FillAll {
        from: start,
        to: segment_end(x),
        value: v,
    };
    writing(c, all, Land::Settle(start))
}

pub fn plan_excluded(core: Core, e: Excluded) -> Plan
    ensures { result ≡ excluded_plan core e }
{
    let off = with_modes(core, with_protect(core.modes, false));
    match e {
        Excluded::ProtectOff => plain(off),
        Excluded::ClearNulls => clear_all(core, NULL),
        Excluded::ClearSpaces => clear_all(core, SPACE),
        Excluded::ClearProtected => clear_all(off, PROTECTED_SPACE),
        Excluded::SendRow => text(core, true, false),
        Excluded::SendSegment => text(core, true, true),
    }
}
