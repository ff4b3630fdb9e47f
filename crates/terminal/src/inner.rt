// One byte on a good page and state. The gathered bytes and the set-up are not handed through: the inner step sees the tab stops and gives the
// change.
ghost use Rattle.std.specs.Prelude.{◌≡◌, ℕ, ◌<◌, true, List, [], length};
ghost use Rattle.rules.specs.State.{number, width_of, page_length, idle as idle_of};
ghost use Rattle.rules.specs.RowList.{Beside};
ghost use Rattle.rules.specs.Search.{guarded_at};
ghost use Rattle.rules.specs.Possible.{screen_ok, pending_ok};
ghost use Rattle.rules.specs.Decode.{decode_rule};
ghost use Rattle.rules.specs.Plan.{plan_rule};
ghost use Rattle.rules.specs.Carry.{effect, carried};
ghost use Rattle.rules.specs.Step.{inner_rule};
ghost use Rattle.carry.specs.Carried.{Carried};
ghost use Rattle.carry.specs.Rows.{BesideAfter};

use carry::carry_out;
use plan::plan_for;
use rules::{Answer, Change, Command, Core, CoreResult, Decoded, Pending, SetupChange};
use state::core_parts::{awaiting, idle};

// A byte that writes nothing and replies nothing.
fn quiet(answer: Answer, core: Core, change: Change) -> CoreResult
    ensures { (p w : List ℕ) → Carried (effect (number answer) core change p []) result p w w }
{
    CoreResult {
        answer,
        replied: 0,
        core,
        change,
    }
}

// A command: planned from the core with its sequence cleared, and carried out.
fn obey(
    page: &mut [u16],
    rows: &mut [u16],
    tabs: [bool; 132],
    core: Core,
    d: Command,
    room: &mut [u8],
) -> CoreResult
    requires { (length page.old ≡ page_length core.screen)
        × ((screen_ok core.screen ≡ true)
        × ((core.attribute < 32) × Beside (width_of core.screen) (guarded_at core.modes.protect page.old) rows.old)) }
    ensures { Carried
        (carried page.old core (plan_rule (guarded_at core.modes.protect page.old) tabs (idle_of core) d)
        (length room.old)) result page.new room.old room.new
        × BesideAfter (width_of core.screen)
        (carried page.old core (plan_rule (guarded_at core.modes.protect page.old) tabs (idle_of core) d)
        (length room.old)) rows.new }
{
    let next = idle(core);
    let plan = plan_for(page, tabs, next, d);
    carry_out(page, rows, core, plan, room)
}

// A byte b that comes to d, if it is below 80h.
pub(crate) fn inner(
    page: &mut [u16],
    rows: &mut [u16],
    tabs: [bool; 132],
    core: Core,
    b: u8,
    d: Decoded,
    room: &mut [u8],
) -> CoreResult
    requires { (length page.old ≡ page_length core.screen)
        × ((screen_ok core.screen ≡ true)
        × (((g : List ℕ) × (pending_ok core.pending g ≡ true))
        × ((core.attribute < 32)
        × (Beside (width_of core.screen) (guarded_at core.modes.protect page.old) rows.old
        × (b < 128 → d ≡ decode_rule core.pending b))))) }
    ensures { Carried (inner_rule page.old core tabs b (length room.old)) result page.new room.old
        room.new × BesideAfter (width_of core.screen) (inner_rule page.old core tabs b (length room.old))
        rows.new }
{
    if 128 <= b {
        return quiet(Answer::HighByte, core, Change::Set(SetupChange::Nothing));
    }
    match d {
        Decoded::Wait(next) => {
            quiet(
                Answer::Done,
                awaiting(core, next),
                Change::Set(SetupChange::Nothing),
            )
        }
        Decoded::Gather(x, n, y) => {
            quiet(
                Answer::Done,
                awaiting(core, Pending::Text(x, n + 1)),
                Change::Gather(n, y),
            )
        }
        Decoded::Take(x, n) => quiet(Answer::Done, idle(core), Change::Take(x, n)),
        Decoded::Reject(a) => quiet(a, idle(core), Change::Set(SetupChange::Nothing)),
        Decoded::Do(x) => obey(page, rows, tabs, core, x, room),
    }
}
