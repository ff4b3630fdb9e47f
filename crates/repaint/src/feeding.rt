// The judge of bytes: the ruled terminal is fed them over a scratch page.
ghost use Rattle.std.specs.Prelude.{◌≡◌, ◌*◌, ◌≤◌, length, ◌==◌};
ghost use Rattle.rules.specs.Cell.{both};
ghost use Rattle.rules.specs.Row.{columns, wide_cells};
ghost use Rattle.rules.specs.State.{number};
ghost use Rattle.repaint.specs.Spans.{verdict_number};
ghost use Rattle.repaint.specs.Bytes.{power_on_at, paints as paints_rule, BytesVerdict};

use crate::{Verdict, same_cells, width_of};
use rules::{Answer, Personality, Screen, State};
use state::core_parts::with_screen;
use state::{answer_number, power_on_state};
use terminal::run;

// The power-on state at a width.
fn power_on_at(wide: bool, personality: Personality) -> State
    ensures { result ≡ power_on_at wide personality }
{
    let s = power_on_state(personality);
    let screen = Screen {
        wide,
        active: 0,
        split: 0,
        cursor0: 0,
        cursor1: 0,
    };
    State {
        core: with_screen(s.core, screen),
        ..s
    }
}

// What a run says whose n bytes all answered 0.
fn is_clean(answer: Answer, taken: usize, refused: usize, n: usize) -> bool
    ensures { result ≡ both ((number answer) == 0) (both (taken == n) (refused == 0)) }
{
    answer_number(answer) == 0 && taken == n && refused == 0
}

// Whether the bytes, fed over the scratch page, answer 0 each and make the second page of the first.
fn paints(
    scratch: &mut [u16],
    before: &[u16],
    after: &[u16],
    wide: bool,
    personality: Personality,
    bytes: &[u8],
) -> bool
    requires { ((length before.now ≡ 24 * columns wide) × (length before.now ≡ length after.now))
        × ((length scratch.old ≡ length before.now) × (length before.now ≤ wide_cells)) }
    ensures { result ≡ paints_rule personality wide before.now after.now bytes.now }
{
    scratch.copy_from_slice(before);
    let mut room: [u8; 0] = [0; 0];
    let t = run(scratch, power_on_at(wide, personality), bytes, &mut room);
    is_clean(t.answer, t.taken, t.refused, bytes.len())
        && same_cells(scratch, after, 0, after.len())
}

// Accepts bytes exactly if the ruled terminal makes the second page of the first with them. Ruled out: one that takes bytes of which the terminal
// refuses some, or that ask for a reply.
pub fn judge_bytes(before: &[u16], after: &[u16], personality: Personality, bytes: &[u8]) -> Verdict
    ensures { BytesVerdict personality before.now after.now bytes.now (verdict_number result) }
{
    let Some(width) = width_of(before, after) else {
        return Verdict::WrongLength;
    };
    let mut scratch: [u16; 3168] = [0; 3168];
    let n = before.len();
    if paints(
        &mut scratch[..n],
        before,
        after,
        width == 132,
        personality,
        bytes,
    ) {
        Verdict::Accepted
    } else {
        Verdict::NotAccepted
    }
}
