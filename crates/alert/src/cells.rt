// The rows of a page, and a text without its trailing spaces.
ghost use Rattle.std.specs.Prelude.{◌≡◌, ◌*◌, ◌<◌, ◌≤◌, length};
ghost use Rattle.rules.specs.Row.{height, columns as columns_of};
ghost use Rattle.alert.specs.Cells.{row_on, Trimmed};

use state::width::columns;

// A row of a page, from 0.
pub fn row(page: &[u16], wide: bool, r: usize) -> &[u16]
    requires { (length page.now ≡ height * columns_of wide) × (r < height) }
    ensures { (result.now ≡ row_on wide page.now r) × (length result.now ≤ 132) }
{
    let n = columns(wide) as usize;
    let a = r * n;
    &page[a..a + n]
}

// The length of a text without its trailing spaces.
pub fn trimmed(text: &[u8]) -> usize
    ensures { Trimmed text.now result }
{
    match text.iter().rposition(|b| *b != b' ') {
        Some(i) => i + 1,
        None => 0,
    }
}
