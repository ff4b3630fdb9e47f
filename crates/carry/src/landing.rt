// Where a plan's cursor goes.
ghost use Rattle.std.specs.Prelude.{◌≡◌, true, length};
ghost use Rattle.rules.specs.Search.{guarded_at, settled};
ghost use Rattle.rules.specs.RowList.{Beside};
ghost use Rattle.rules.specs.State.{page_length, width_of, segment_start, segment_end};
ghost use Rattle.rules.specs.Possible.{screen_ok};
ghost use Rattle.rules.specs.Theorems.Good.{GoodLand};
ghost use Rattle.rules.specs.Carry.{landed};

use page::rows::settle_rows;
use page::search::settle;
use rules::{Core, Land, Screen};
use state::core_parts::with_screen;
use state::screen::{segment_end, segment_start, with_cursor};

// Settle from a cell of the active segment: by the row list, or by the cells where there is none.
fn settle_in(page: &[u16], rows: &[u16], x: Screen, protect: bool, from: u16) -> usize
    requires { (length page.now ≡ page_length x)
        × ((screen_ok x ≡ true) × (GoodLand x (Land.Settle from) × Beside (width_of x) (guarded_at protect page.now) rows.now)) }
    ensures { result ≡ settled (guarded_at protect page.now) (segment_start x) (segment_end x) from }
{
    let first = segment_start(x) as usize;
    let end = segment_end(x) as usize;
    if rows.is_empty() {
        return settle(page, protect, first, end, from as usize);
    }
    settle_rows(page, rows, x.wide, protect, first, end, from as usize)
}

pub fn land(page: &[u16], rows: &[u16], core: Core, l: Land) -> Core
    requires { (length page.now ≡ page_length core.screen)
        × ((screen_ok core.screen ≡ true)
        × (GoodLand core.screen l × Beside (width_of core.screen) (guarded_at core.modes.protect page.now) rows.now)) }
    ensures { result ≡ landed (guarded_at core.modes.protect page.now) l core }
{
    match l {
        Land::Stay => core,
        Land::Settle(i) => {
            let x = core.screen;
            let n = settle_in(page, rows, x, core.modes.protect, i);
            with_screen(core, with_cursor(x, n as u16))
        }
    }
}
