// What the terminal is asked, and what its caller is told.
ghost use Rattle.std.specs.Prelude.{◌≡◌, ◌*◌, eqb, length};
ghost use Rattle.rules.specs.Cell.{either};
ghost use Rattle.rules.specs.Row.{height, columns};
ghost use Rattle.rules.specs.State.{number, sends};
ghost use Rattle.rules.specs.Calls.{run_rule};
ghost use Rattle.terminal.specs.Promise.{RunDone};
ghost use Rattle.counter.specs.Ask.{is_ready, question, lent, told_rule};

use crate::{NoReply, Refusal, Size};
use page::search::columns;
use rules::{Answer, RunResult, Sending, State};
use terminal::{is_idle, is_sending, run};

// Neither a sequence nor a send is under way.
#[tactic(auto, using(crate::proofs::Tests::tests), unfolding(crate::specs::Ask::is_ready))]
pub(crate) fn is_ready(state: State) -> bool
    ensures { result ≡ is_ready state }
{
    is_idle(state.core.pending) && !is_sending(state.sending)
}

// Whether a page has the length of its width.
pub(crate) fn has_length(page: &[u16], wide: bool) -> bool
    ensures { result ≡ eqb (length page.now) (height * columns wide) }
{
    page.len() == 24 * columns(wide)
}

// Asks a terminal that is ready; of another it asks nothing and lends it no room.
pub(crate) fn ask(page: &mut [u16], state: State, ready: bool, room: &mut [u8]) -> RunResult
    ensures { RunDone (run_rule page.old state (question ready) (lent ready (length room.old))) result (question ready)
        page.new room.old room.new }
{
    if ready {
        run(page, state, b"\x1b5", room)
    } else {
        run(page, state, b"", &mut room[..0])
    }
}

// The reply did not begin, or did not end.
pub(crate) fn is_cut(answer: Answer, sending: Sending) -> bool
    ensures { result ≡ either (eqb (number answer) 6) (sends sending) }
{
    matches!(answer, Answer::NoRoom) || is_sending(sending)
}

#[tactic(auto, using(crate::proofs::Tests::tests), unfolding(crate::specs::Ask::told_rule))]
pub(crate) fn tell(
    answer: Answer,
    full: bool,
    ready: bool,
    cut: bool,
    c: Result<Size, Refusal>,
) -> Result<Result<Size, Refusal>, NoReply>
    ensures { result ≡ told_rule (number answer) full ready cut c }
{
    match answer {
        Answer::BadCall => Err(if full {
            NoReply::BadState
        } else {
            NoReply::BadPage
        }),
        _ if !ready => Err(NoReply::UnderWay),
        _ if cut => Err(NoReply::NoRoom),
        _ => Ok(c),
    }
}
