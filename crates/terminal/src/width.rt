// The conversion to the other width.
ghost use Rattle.std.specs.Prelude.{◌≡◌, ◌*◌, length};
ghost use Rattle.rules.specs.Row.{columns as columns_of};
ghost use Rattle.rules.specs.Search.{guarded_at, settled};
ghost use Rattle.rules.specs.Convert.{other_width, stops_within, state_on};

use page::search::settle;
use rules::{Screen, State};
use state::core_parts::with_screen;
use state::width::{cells, columns};

// No tab stops beyond the width.
fn stops_within(tabs: [bool; 132], wide: bool) -> [bool; 132]
    ensures { result ≡ stops_within (columns_of wide) tabs }
{
    let mut t = tabs;
    t[columns(wide) as usize..].fill(false);
    t
}

// The screen unsplit, its cursor settled on the page.
fn home(page: &[u16], protect: bool, wide: bool) -> Screen
    requires { length page.now ≡ 24 * columns_of wide }
    ensures { result ≡ record {
      wide = wide;
      active = 0;
      split = 0;
      cursor0 = settled (guarded_at protect page.now) 0
          (24 * columns_of wide) 0;
      cursor1 = 0;
    } }
{
    let end = cells(wide, 24) as usize;
    let n = settle(page, protect, 0, end, 0);
    Screen {
        wide,
        active: 0,
        split: 0,
        cursor0: n as u16,
        cursor1: 0,
    }
}

// The state at the other width, on its page there.
pub(crate) fn state_on(page: &[u16], state: State) -> State
    requires { length page.now ≡ 24 * other_width state.core.screen.wide }
    ensures { result ≡ state_on page.now state }
{
    let wide = !state.core.screen.wide;
    let x = home(page, state.core.modes.protect, wide);
    let mut setup = state.setup;
    let tabs = stops_within(setup.tabs, wide);
    setup.tabs = tabs;
    State {
        core: with_screen(state.core, x),
        setup,
        ..state
    }
}
