// The guarded cells: how many there are, and whether one has changed since protect mode went on.
ghost use Rattle.std.specs.Prelude.{◌≡◌, ◌+◌, ◌*◌, ◌≤◌, length};
ghost use Rattle.rules.specs.Row.{columns};
ghost use Rattle.alert.specs.Room.{Puts};
ghost use Rattle.alert.specs.Guarded.{guarded_cells, kept, first_change, change_of, guarded_line};

use crate::put;
use page::cell::is_guarded;

#[tactic(auto, using(crate::proofs::Texts::cells_counted))]
fn cells(page: &[u16], protect: bool) -> u64
    requires { length page.now ≤ 3168 }
    ensures { result ≡ guarded_cells protect page.now }
{
    page.iter().filter(|v| is_guarded(protect, **v)).count() as u64
}

// Whether a cell that was guarded is as it was; any other cell is.
fn is_kept(protect: bool, was: u16, is: u16) -> bool
    ensures { result ≡ kept protect was is }
{
    !is_guarded(protect, was) || is == was
}

// The first cell that was guarded and has changed, or the page's length: no Option, since guarded_line of specs/Guarded tells of this number.
#[tactic(auto, using(crate::proofs::Texts::change_steps))]
fn first_change(page: &[u16], drawn: &[u16], protect: bool) -> usize
    requires { (length page.now ≡ length drawn.now) × (length page.now ≤ 3168) }
    ensures { (result ≤ length page.now) × (result ≡ first_change protect 0 drawn.now page.now) }
{
    for (i, v) in page.iter().enumerate() {
        if !is_kept(protect, drawn[i], *v) {
            return i;
        }
    }
    page.len()
}

fn change(room: &mut [u8], n: usize, wide: bool, at: usize, end: usize) -> usize
    requires { (at ≤ end) × (end ≡ 24 * columns wide) }
    ensures { Puts (change_of (columns wide) at end) n room.old result room.new }
{
    if at == end {
        return put::bytes(room, n, b", none changed since protect mode went on\n");
    }
    let a = put::bytes(
        room,
        n,
        b"; since protect mode went on the first that changed is at ",
    );
    let b = put::place(room, a, wide, at);
    put::bytes(room, b, b"\n")
}

// `drawn` is the page as it was when protect mode went on.
pub fn line(room: &mut [u8], page: &[u16], drawn: &[u16], wide: bool, protect: bool) -> usize
    requires { (length page.now ≡ 24 * columns wide) × (length page.now ≡ length drawn.now) }
    ensures { Puts (guarded_line (columns wide) protect drawn.now page.now) 0 room.old result room.new }
{
    if !protect {
        return 0;
    }
    let a = put::bytes(room, 0, b"Guarded   ");
    let b = put::count(room, a, cells(page, protect), b"cell");
    let at = first_change(page, drawn, protect);
    change(room, b, wide, at, page.len())
}
