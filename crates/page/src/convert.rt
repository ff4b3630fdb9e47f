// A page at the other width.
ghost use Rattle.std.specs.Prelude.{◌≡◌, not, ◌*◌, ◌%◌, ◌<◌, eqb, leb, length};
ghost use Rattle.rules.specs.Cell.{both};
ghost use Rattle.rules.specs.Row.{columns};
ghost use Rattle.rules.specs.Convert.{cell_for, other_width, converted, loses};

use crate::cell::NULL;

// The cell that comes to cell i of the other width: that of its row and column, or a null.
fn cell_for(page: &[u16], wide: bool, i: usize) -> u16
    requires { (length page.now ≡ 24 * columns wide) × (i < 24 * other_width wide) }
    ensures { result ≡ cell_for (columns wide) (other_width wide) page.now i }
{
    if wide {
        return page[i / 80 * 132 + i % 80];
    }
    if 80 <= i % 132 {
        return NULL;
    }
    page[i / 132 * 80 + i % 132]
}

// The page at the other width, in the target.
pub fn convert_page(page: &[u16], wide: bool, target: &mut [u16])
    requires { (length page.now ≡ 24 * columns wide) × (length target.old ≡ 24 * other_width wide) }
    ensures { target.new ≡ converted wide page.now }
{
    // By index: a proof knows nothing of the values that `iter_mut().enumerate()` leaves.
    for i in 0..target.len() {
        target[i] = cell_for(page, wide, i);
    }
}

// Cell i of a wide page, of this number, is beyond column 80 and not 0.
fn is_lost(v: u16, i: usize) -> bool
    ensures { result ≡ both (leb 80 (i % 132)) (not (eqb v 0)) }
{
    80 <= i % 132 && v != NULL
}

// Whether narrowing loses a cell: one beyond column 80 is not 0. Widening loses none.
pub fn loses_cells(page: &[u16], wide: bool) -> bool
    requires { length page.now ≡ 24 * columns wide }
    ensures { result ≡ loses (columns wide) (other_width wide) 0 page.now }
{
    if !wide {
        return false;
    }
    // No `any` over the same pairs: its proof did not close.
    for (i, v) in page.iter().enumerate() {
        if is_lost(*v, i) {
            return true;
        }
    }
    false
}
