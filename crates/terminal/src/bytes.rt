// The send under way and the loop over host bytes, on a good page and state. The core, the gathered bytes and the set-up are three locals: a byte
// is handed the tab stops alone, and the others are touched only where a byte changes them. They are read from the state first and put into the
// result last, in one function: the state is long, and each function between would copy it.
ghost use Rattle.std.specs.Prelude.{◌≡◌, ◌*◌, ◌<◌, true, length, ◌==◌};
ghost use Rattle.rules.specs.Row.{columns};
ghost use Rattle.rules.specs.State.{number, width_of, page_length, sends};
ghost use Rattle.rules.specs.Possible.{screen_ok, good};
ghost use Rattle.rules.specs.Theorems.Good.{GoodSend};
ghost use Rattle.rules.specs.Search.{guarded_at};
ghost use Rattle.rules.specs.RowList.{Beside};
ghost use Rattle.rules.specs.Cell.{pick};
ghost use Rattle.rules.specs.Calls.{refusal};
ghost use Rattle.rules.specs.Next.{is_event};
ghost use Rattle.rules.specs.declared.Answer.TheVariants as Answer;
ghost use Rattle.carry.specs.Went.{Went};
ghost use Rattle.terminal.specs.Loop.{is_nothing, state_with, call_to};
ghost use Rattle.terminal.specs.Promise.{RunDone};
ghost use Rattle.terminal.specs.Rows.{closed_none, Behind};

use crate::fast::{fast_path, moved};
use crate::inner::inner;
use crate::sequence::awaited;
use carry::replies::send;
use page::rows::rebuild;
use page::text::Sent;
use rules::{Answer, Change, Core, RunResult, Sending, Setup, SetupChange, State};
use state::core_parts::awaiting;
use state::sending::{is_sending, sending_after};
use state::setup::{gathered_after, setup_after};

fn is_no_room(a: Answer) -> bool
    ensures { result ≡ (number a == 6) }
{
    matches!(a, Answer::NoRoom)
}

// 1 for an answer from 1 to 4.
fn refusals(a: Answer) -> usize
    ensures { result ≡ refusal (number a) }
{
    match a {
        Answer::HighByte | Answer::Unknown | Answer::BadArgument | Answer::Barred => 1,
        _ => 0,
    }
}

fn is_event(a: Answer, replied: usize) -> bool
    ensures { result ≡ is_event (number a) replied }
{
    !(matches!(a, Answer::Done) && replied == 0)
}

// What a loop answers that ends behind a byte.
fn answer_to(stop: bool, a: Answer) -> Answer
    ensures { result ≡ pick stop a Answer.Done }
{
    if stop { a } else { Answer::Done }
}

fn is_nothing(x: Change) -> bool
    ensures { result ≡ is_nothing x }
{
    match x {
        Change::Gather(_, _) | Change::Take(_, _) => false,
        Change::Set(d) => matches!(d, SetupChange::Nothing),
        Change::Send(s) => !is_sending(s),
    }
}

// No room inside a send: 6, or 0 over no bytes.
fn no_room(bytes: usize) -> Answer
    ensures { number result ≡ pick (bytes == 0) 0 6 }
{
    if bytes == 0 {
        Answer::Done
    } else {
        Answer::NoRoom
    }
}

// The send under way goes on; outside a send there is none, and none is left.
fn resume(page: &[u16], core: Core, sending: Sending, reply: &mut [u8]) -> Sent
    requires { sends sending ≡ true
        → (length page.now ≡ page_length core.screen)
        × ((screen_ok core.screen ≡ true) × (GoodSend core.screen sending × (0 < length reply.old))) }
    ensures { Went page.now core sending reply.old result.replied result.left reply.new }
{
    if !is_sending(sending) {
        return Sent {
            replied: 0,
            left: Sending::Nothing,
        };
    }
    send(page, core, sending, reply)
}

// The parts one by one, and not a state: it would be copied once more.
fn finished(
    answer: Answer,
    taken: usize,
    replied: usize,
    refused: usize,
    core: Core,
    sending: Sending,
    gathered: [u8; 46],
    setup: Setup,
) -> RunResult
    ensures { result ≡ record {
      answer = answer;
      taken = taken;
      replied = replied;
      refused = refused;
      state = state_with core sending gathered setup;
    } }
{
    let state = State {
        core,
        sending,
        gathered,
        setup,
    };
    RunResult {
        answer,
        taken,
        replied,
        refused,
        state,
    }
}

// The row list after the fast path, which took nothing if it is the `same`: only with protect and write-protect mode on has it closed cells.
fn follow_path(rows: &mut [u16], page: &[u16], wide: bool, protect: bool, writes: bool, same: bool)
    requires { (length page.now ≡ 24 * columns wide)
        × Behind (closed_none same protect writes) (columns wide) (guarded_at protect page.now) rows.old }
    ensures { Beside (columns wide) (guarded_at protect page.now) rows.new }
{
    if rows.is_empty() {
        return;
    }
    if same || !protect || !writes {
        return;
    }
    rebuild(rows, page, wide, protect);
}

// The run over many bytes on a good page and state, beside a row list or none: a send under way goes on first; if the run is to stop at an event,
// that is one. Then the single step repeated, each with the room that is left; it stops before the first byte that answers 6, behind one whose
// reply has used the room up and is not over, and, if it is to, behind the first event.
pub(crate) fn run_beside(
    page: &mut [u16],
    rows: &mut [u16],
    state: State,
    input: &[u8],
    reply: &mut [u8],
    stop: bool,
) -> RunResult
    requires { (good page.old state ≡ true)
        × Beside (width_of state.core.screen) (guarded_at state.core.modes.protect page.old) rows.old }
    ensures { RunDone (call_to stop page.old state input.now (length reply.old)) result input.now
        page.new reply.old reply.new
        × Beside (width_of result.state.core.screen) (guarded_at result.state.core.modes.protect page.new) rows.new }
{
    let mut c = state.core;
    let mut g = state.gathered;
    let mut u = state.setup;
    let sending = state.sending;
    let under = is_sending(sending);
    if under && reply.is_empty() {
        return finished(no_room(input.len()), 0, 0, 0, c, sending, g, u);
    }
    let sent = resume(page, c, sending, reply);
    let rest = sent.left;
    let ends = stop && under;
    if is_sending(rest) || ends {
        return finished(Answer::Done, 0, sent.replied, 0, c, rest, g, u);
    }
    let mut taken = 0;
    let mut replied = sent.replied;
    let mut refused = 0;
    // `taken` moves by what each part took: no `for` over the bytes
    while taken < input.len() {
        let fast = fast_path(page, c, input, taken, stop);
        let same = fast.taken == taken;
        let moved_core = moved(c, fast.at, same);
        c = moved_core;
        taken = fast.taken;
        refused += fast.refused;
        follow_path(
            rows,
            page,
            c.screen.wide,
            c.modes.protect,
            c.modes.writeprotect,
            same,
        );
        if input.len() <= taken {
            continue;
        }
        let q = c.pending;
        let s = awaited(q, input, taken);
        let pending = s.pending;
        let waiting = awaiting(c, pending);
        c = waiting;
        taken = s.taken;
        if input.len() <= taken {
            continue;
        }
        let d = s.decoded;
        let tabs = u.tabs;
        let t = inner(page, rows, tabs, c, input[taken], d, &mut reply[replied..]);
        let a = t.answer;
        if is_no_room(a) {
            return finished(
                Answer::NoRoom,
                taken,
                replied,
                refused,
                c,
                Sending::Nothing,
                g,
                u,
            );
        }
        let next = t.core;
        c = next;
        taken += 1;
        replied += t.replied;
        refused += refusals(a);
        let event = stop && is_event(a, t.replied);
        let x = t.change;
        if is_nothing(x) {
            if event {
                return finished(a, taken, replied, refused, c, Sending::Nothing, g, u);
            }
            continue;
        }
        let v = setup_after(x, g, u);
        u = v;
        let h = gathered_after(x, g);
        g = h;
        let left = sending_after(x, Sending::Nothing);
        if event || is_sending(left) {
            return finished(answer_to(stop, a), taken, replied, refused, c, left, g, u);
        }
    }
    finished(
        Answer::Done,
        taken,
        replied,
        refused,
        c,
        Sending::Nothing,
        g,
        u,
    )
}
