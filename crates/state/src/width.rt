// The width of a page, wide or not. Each division is by a number that is known when the program is built: these are fast.
ghost use Rattle.std.specs.Prelude.{◌≡◌, ◌*◌, ◌/◌, ◌%◌, ◌≤◌};
ghost use Rattle.rules.specs.Row.{columns as columns_of};

// The cells of a narrow page, and the columns that ESC = and ESC - reach at either width.
pub const NARROW_CELLS: usize = 1920;

pub const ADDRESSED: u16 = 80;

#[tactic(auto, unfolding(rules::specs::Row::columns))]
pub fn columns(wide: bool) -> u16
    ensures { result ≡ columns_of wide }
{
    if wide { 132 } else { 80 }
}

// How many cells so many rows have. 279 is the most that a screen of whatever numbers asks for.
#[tactic(auto, unfolding(rules::specs::Row::columns))]
pub fn cells(wide: bool, rows: u16) -> u16
    requires { rows ≤ 279 }
    ensures { result ≡ rows * columns_of wide }
{
    if wide { rows * 132 } else { rows * 80 }
}

// A cell's row and column.
#[tactic(auto, unfolding(rules::specs::Row::columns))]
pub fn row_of(wide: bool, at: u16) -> u16
    ensures { result ≡ at / columns_of wide }
{
    if wide { at / 132 } else { at / 80 }
}

#[tactic(auto, unfolding(rules::specs::Row::columns))]
pub fn column_of(wide: bool, at: u16) -> u16
    ensures { result ≡ at % columns_of wide }
{
    if wide { at % 132 } else { at % 80 }
}
