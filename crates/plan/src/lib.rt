// The plan of each command: what is written, changed and replied, and where the cursor goes, as data.
#![tactic(auto)]

ghost use Rattle.std.specs.Prelude.{◌≡◌, ◌<◌, true, length};
ghost use Rattle.rules.specs.Search.{guarded_at};
ghost use Rattle.rules.specs.State.{page_length};
ghost use Rattle.rules.specs.Possible.{screen_ok};
ghost use Rattle.rules.specs.Plan.{plan_rule};

mod forms;
mod moves;
mod sends;
mod windows;
mod writes;

use forms::{plain, settling};
use moves::plan_move;
use rules::{Command, Core, Plan};
use sends::{plan_excluded, plan_send, plan_setting};
use state::core_parts::{next_bell, with_bells, with_mode, with_modes, with_protect};
use state::screen::cursor_of;
use windows::plan_window;
use writes::{plan_attribute, plan_clear, plan_edit, plan_store};

pub fn plan_for(page: &[u16], tabs: [bool; 132], core: Core, d: Command) -> Plan
    requires { (length page.now ≡ page_length core.screen) × ((screen_ok core.screen ≡ true) × (core.attribute < 32)) }
    ensures { result ≡ plan_rule (guarded_at core.modes.protect page.now) tabs core d }
{
    match d {
        Command::Nothing => plain(core),
        Command::Go(m) => plan_move(page, tabs, core, m),
        Command::Window(w) => plan_window(core, w),
        Command::Store(k) => plan_store(page, core, k, core.attribute),
        Command::Attribute(a) => plan_attribute(page, core, a),
        Command::Edit(e) => plan_edit(page, core, e),
        Command::Clear(x) => plan_clear(core, x),
        Command::Turn(m, b) => plain(with_modes(core, with_mode(core.modes, m, b))),
        Command::ProtectOn => settling(
            with_modes(core, with_protect(core.modes, true)),
            cursor_of(core.screen),
        ),
        Command::Bell => plain(with_bells(core, next_bell(core.bells))),
        Command::Set(s) => plan_setting(core, s),
        Command::Send(s) => plan_send(page, core, s),
        Command::Excluded(e) => plan_excluded(core, e),
    }
}
