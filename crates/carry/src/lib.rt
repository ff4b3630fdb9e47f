// A plan carried out. A command that is planned reads and writes cells' contents here alone; what hosts send most goes without a plan, by
// `terminal::fast`.
#![tactic(auto)]

ghost use Rattle.std.specs.Prelude.{◌≡◌, true, length};
ghost use Rattle.rules.specs.State.{page_length, sends};
ghost use Rattle.rules.specs.Theorems.Good.{GoodPlan};
ghost use Rattle.rules.specs.Search.{guarded_at};
ghost use Rattle.rules.specs.RowList.{Beside};
ghost use Rattle.rules.specs.Carry.{plan_width, carried};
ghost use Rattle.carry.specs.Carried.{Carried};
ghost use Rattle.carry.specs.Rows.{BesideAfter};

mod landing; // where the cursor goes
pub mod replies; // what is sent of a reply
pub mod writes; // what is written

use landing::land;
use replies::send;
use rules::{Answer, Change, Core, CoreResult, Plan, SetupChange};
use state::sending::is_sending;
use writes::{keep_list, write_both};

// A reply begins, as much of it as fits. No room answers 6, and nothing has changed.
fn begin(page: &[u16], rows: &mut [u16], core: Core, plan: Plan, room: &mut [u8]) -> CoreResult
    requires { (length page.now ≡ page_length plan.next.screen)
        × (GoodPlan plan × (Beside (plan_width plan) (guarded_at core.modes.protect page.now) rows.old × (sends plan.reply ≡ true))) }
    ensures { Carried (carried page.now core plan (length room.old)) result page.now room.old
        room.new × BesideAfter (plan_width plan) (carried page.now core plan (length room.old)) rows.new }
{
    let next = plan.next;
    if room.is_empty() {
        return CoreResult {
            answer: Answer::NoRoom,
            replied: 0,
            core: next,
            change: Change::Set(SetupChange::Nothing),
        };
    }
    keep_list(
        rows,
        page,
        next.screen.wide,
        core.modes.protect,
        next.modes.protect,
    );
    let sent = send(page, next, plan.reply, room);
    CoreResult {
        answer: plan.answer,
        replied: sent.replied,
        core: next,
        change: Change::Send(sent.left),
    }
}

// A row list beside the page follows it.
pub fn carry_out(
    page: &mut [u16],
    rows: &mut [u16],
    core: Core,
    plan: Plan,
    room: &mut [u8],
) -> CoreResult
    requires { (length page.old ≡ page_length plan.next.screen)
        × (GoodPlan plan × Beside (plan_width plan) (guarded_at core.modes.protect page.old) rows.old) }
    ensures { Carried (carried page.old core plan (length room.old)) result page.new room.old
        room.new × BesideAfter (plan_width plan) (carried page.old core plan (length room.old)) rows.new }
{
    if is_sending(plan.reply) {
        return begin(page, rows, core, plan, room);
    }
    let next = plan.next;
    write_both(
        page,
        rows,
        next.screen.wide,
        core.modes.protect,
        next.modes.protect,
        plan.first,
        plan.second,
    );
    CoreResult {
        answer: plan.answer,
        replied: 0,
        core: land(page, rows, next, plan.land),
        change: Change::Set(plan.change),
    }
}
