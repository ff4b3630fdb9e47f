// Splits and activation.
ghost use Rattle.std.specs.Prelude.{◌≡◌, ◌≤◌, true};
ghost use Rattle.rules.specs.Possible.{screen_ok};
ghost use Rattle.rules.specs.Plan.{unsplit_screen, split_screen, activate as activate_of, is_segment, window_plan};

use super::forms::{plain, refusing, settling};
use super::moves::address_plan;
use rules::{Answer, Core, Plan, Screen, Window};
use state::core_parts::with_screen;
use state::screen::{activated, cursor_of};
use state::width::{ADDRESSED, cells};

fn unsplit_screen(wide: bool) -> Screen
    ensures { result ≡ unsplit_screen wide }
{
    Screen {
        wide,
        active: 0,
        split: 0,
        cursor0: 0,
        cursor1: 0,
    }
}

// Split at row s, which is 2 to 24.
fn split_screen(wide: bool, s: u8) -> Screen
    requires { (1 ≤ s) × (s ≤ 24) }
    ensures { result ≡ split_screen wide s }
{
    Screen {
        wide,
        active: 0,
        split: s,
        cursor0: 0,
        cursor1: cells(wide, (s - 1) as u16),
    }
}

fn activate(core: Core, n: u8) -> Plan
    ensures { result ≡ activate_of core n }
{
    let x = activated(core.screen, n);
    settling(with_screen(core, x), cursor_of(x))
}

fn is_segment(x: Screen, n: u8) -> bool
    ensures { result ≡ is_segment x n }
{
    n == 0x30 || n == 0x31 && x.split != 0
}

// ESC - n r c: a place in segment n, which becomes active.
fn place(core: Core, n: u8, r: u8, k: u8) -> Plan
    requires { screen_ok core.screen ≡ true }
    ensures { result ≡ window_plan core (Window.Place n r k) }
{
    let x = core.screen;
    if is_segment(x, n) {
        return address_plan(
            core,
            activated(x, n - 0x30),
            0x20,
            ADDRESSED,
            r as u16,
            k as u16,
        );
    }
    refusing(core, Answer::BadArgument)
}

fn split(core: Core, r: u8) -> Plan
    ensures { result ≡ window_plan core (Window.Split r) }
{
    match r {
        0x21..=0x37 => settling(
            with_screen(core, split_screen(core.screen.wide, r - 0x1f)),
            0,
        ),
        _ => refusing(core, Answer::BadArgument),
    }
}

fn other(core: Core) -> Plan
    requires { screen_ok core.screen ≡ true }
    ensures { result ≡ window_plan core Window.Other }
{
    let x = core.screen;
    if x.split == 0 {
        return plain(core);
    }
    activate(core, 1 - x.active)
}

fn second(core: Core) -> Plan
    ensures { result ≡ window_plan core Window.Second }
{
    let x = core.screen;
    if x.split == 0 {
        return refusing(core, Answer::BadArgument);
    }
    activate(core, 1)
}

pub fn plan_window(core: Core, w: Window) -> Plan
    requires { screen_ok core.screen ≡ true }
    ensures { result ≡ window_plan core w }
{
    match w {
        Window::Unsplit => settling(with_screen(core, unsplit_screen(core.screen.wide)), 0),
        Window::Split(r) => split(core, r),
        Window::Other => other(core),
        Window::First => activate(core, 0),
        Window::Second => second(core),
        Window::Place(n, r, k) => place(core, n, r, k),
    }
}
