// The terminal: power-on, the single step, the run over many bytes, both with a row list too, the run up to the first event, the bytes that a run
// did not take, the key press and the conversion to the other width. No call asks anything of its caller, and each promises all that it gives: the
// answer, every count, and every cell and byte that it was lent.
#![tactic(auto)]

mod bytes; // the send under way and the loop over host bytes
mod fast; // the fast path: host bytes without a plan for each
mod inner; // one byte
mod key; // what a key sends
mod sequence; // awaited bytes
mod width; // the state at the other width

ghost use Rattle.std.specs.Prelude.{◌≡◌, true, length, drop};
ghost use Rattle.rules.specs.Cell.{both};
ghost use Rattle.rules.specs.Search.{guarded_at};
ghost use Rattle.rules.specs.State.{width_of};
ghost use Rattle.rules.specs.Possible.{good};
ghost use Rattle.rules.specs.Step.{step_rule};
ghost use Rattle.rules.specs.Calls.{power_on_rule, run_rule, press_rule};
ghost use Rattle.rules.specs.RowList.{Beside, agrees};
ghost use Rattle.rules.specs.Convert.{convert_rule};
ghost use Rattle.rules.specs.Next.{reply_command};
ghost use Rattle.rules.specs.RowCalls.{step_rows_rule, run_rows_rule, suits, next_rows_rule, rows_after, rebuild_answer, rebuilt};
ghost use Rattle.rules.specs.declared.Answer.TheVariants as Answer;
ghost use Rattle.terminal.specs.Promise.{PoweredOn, Stepped, RunDone, KeySent, Turns, Rebuilt};

use bytes::run_beside;
use key::press_key;
use page::cell::NULL;
pub use page::cell::{Kind, attribute_of, code_of, is_protected, kind_of, sent_code};
use page::change::fill_cells;
use page::convert::{convert_page, loses_cells};
use page::rows::{is_row_list, rebuild};
use rules::{Answer, Personality, PowerOn, RunResult, Sending, State, StepResult};
pub use state::answer_number;
pub use state::core_parts::is_idle;
use state::keys::key_at;
use state::possible::possible;
use state::power_on_state;
use state::sending::command_of;
pub use state::sending::{is_sending, short_command, text_command};
use state::texts::is_key;
use state::width::{NARROW_CELLS, cells};
use width::state_on;

// PowerOn, StepResult and RunResult have a state, and the last two counts, whatever they answer (document 01): no Result.

// A page of the state's own length, and a possible state.
fn is_good(page: &[u16], state: State) -> bool
    ensures { result ≡ good page.now state }
{
    let n = cells(state.core.screen.wide, 24);
    page.len() == n as usize && possible(state)
}

// All cells 0, and the power-on state of a personality. Ruled out: one that clears a page of the wrong length, or leaves a cell of the right one.
pub fn power_on(page: &mut [u16], personality: Personality) -> PowerOn
    ensures { PoweredOn (power_on_rule personality page.old) result page.new }
{
    let state = power_on_state(personality);
    if page.len() == NARROW_CELLS {
        fill_cells(page, false, 0, NARROW_CELLS, NULL);
        return PowerOn {
            answer: Answer::Done,
            state,
        };
    }
    PowerOn {
        answer: Answer::BadCall,
        state,
    }
}

// A run on a bad page or state.
fn refused(state: State) -> RunResult
    ensures { result ≡ record { answer = Answer.BadCall; taken = 0; replied = 0; refused = 0; state = state } }
{
    RunResult {
        answer: Answer::BadCall,
        taken: 0,
        replied: 0,
        refused: 0,
        state,
    }
}

// The single step on a good page and state, beside a row list or none: the run over its byte, up to the first event.
fn step_beside(
    page: &mut [u16],
    rows: &mut [u16],
    state: State,
    byte: u8,
    reply: &mut [u8],
) -> StepResult
    requires { (good page.old state ≡ true)
        × Beside (width_of state.core.screen) (guarded_at state.core.modes.protect page.old) rows.old }
    ensures { Stepped (step_rule page.old state byte (length reply.old)) result page.new reply.old
        reply.new × Beside (width_of result.state.core.screen) (guarded_at result.state.core.modes.protect page.new)
        rows.new }
{
    let one = [byte];
    let t = run_beside(page, rows, state, &one, reply, true);
    let answer = t.answer;
    let next = t.state;
    StepResult {
        answer,
        taken: t.taken == 1,
        replied: t.replied,
        state: next,
    }
}

// The single step. Ruled out: one that obeys E9h, or answers 0 to what it refuses.
pub fn step(page: &mut [u16], state: State, byte: u8, reply: &mut [u8]) -> StepResult
    ensures { Stepped (step_rule page.old state byte (length reply.old)) result page.new reply.old
        reply.new }
{
    if !is_good(page, state) {
        return StepResult {
            answer: Answer::BadCall,
            taken: false,
            replied: 0,
            state,
        };
    }
    let mut none: [u16; 0] = [0; 0];
    step_beside(page, &mut none, state, byte, reply)
}

// The run over many bytes. Ruled out: one that makes up a count, or counts the byte that answered 6 as taken.
pub fn run(page: &mut [u16], state: State, input: &[u8], reply: &mut [u8]) -> RunResult
    ensures { RunDone (run_rule page.old state input.now (length reply.old)) result input.now
        page.new reply.old reply.new }
{
    if !is_good(page, state) {
        return refused(state);
    }
    let mut none: [u16; 0] = [0; 0];
    run_beside(page, &mut none, state, input, reply, false)
}

// Whether page and state are good, and the row list agrees with them.
fn is_listed(page: &[u16], rows: &[u16], state: State) -> bool
    ensures { result ≡ both (good page.now state) (agrees rows.now page.now state) }
{
    if !is_good(page, state) {
        return false;
    }
    is_row_list(rows, page, state.core.screen.wide, state.core.modes.protect)
}

// The single step with a row list. Ruled out: one that takes a list that disagrees, or leaves one that does.
pub fn step_rows(
    page: &mut [u16],
    rows: &mut [u16],
    state: State,
    byte: u8,
    reply: &mut [u8],
) -> StepResult
    ensures { Stepped (step_rows_rule page.old rows.old state byte (length reply.old)) result page.new
        reply.old reply.new
        × (rows.new ≡ rows_after page.old rows.old state page.new result.state) }
{
    if !is_listed(page, rows, state) {
        return StepResult {
            answer: Answer::BadCall,
            taken: false,
            replied: 0,
            state,
        };
    }
    step_beside(page, rows, state, byte, reply)
}

// The run with a row list. Ruled out: one that mends a wrong list on the way.
pub fn run_rows(
    page: &mut [u16],
    rows: &mut [u16],
    state: State,
    input: &[u8],
    reply: &mut [u8],
) -> RunResult
    ensures { RunDone (run_rows_rule page.old rows.old state input.now (length reply.old)) result
        input.now page.new reply.old reply.new
        × (rows.new ≡ rows_after page.old rows.old state page.new result.state) }
{
    if !is_listed(page, rows, state) {
        return refused(state);
    }
    run_beside(page, rows, state, input, reply, false)
}

// Whether page and state are good, and the row list agrees with them or is empty.
fn is_suited(page: &[u16], rows: &[u16], state: State) -> bool
    ensures { result ≡ both (good page.now state) (suits rows.now page.now state) }
{
    if rows.is_empty() {
        is_good(page, state)
    } else {
        is_listed(page, rows, state)
    }
}

// The run up to the first event, with a row list or an empty one. Ruled out: one that goes on past a refusal or a reply, or stops elsewhere.
pub fn next(
    page: &mut [u16],
    rows: &mut [u16],
    state: State,
    input: &[u8],
    reply: &mut [u8],
) -> RunResult
    ensures { RunDone (next_rows_rule page.old rows.old state input.now (length reply.old)) result
        input.now page.new reply.old reply.new
        × (rows.new ≡ rows_after page.old rows.old state page.new result.state) }
{
    if !is_suited(page, rows, state) {
        return refused(state);
    }
    run_beside(page, rows, state, input, reply, true)
}

// Which command a reply of `next` answers; the send is the one under way before the call. 0 without a reply. Ruled out: one that names the byte
// behind it.
pub fn reply_command(sending: Sending, input: &[u8], taken: usize, replied: usize) -> u8
    ensures { result ≡ reply_command sending input.now taken replied }
{
    if replied == 0 {
        return 0;
    }
    if is_sending(sending) {
        return command_of(sending);
    }
    if taken == 0 || input.len() < taken {
        return 0;
    }
    input[taken - 1]
}

// The row list made anew, whatever stood there. Ruled out: one that writes to a list of the wrong length.
pub fn rebuild_rows(page: &[u16], rows: &mut [u16], state: State) -> Result<(), Answer>
    ensures { Rebuilt (rebuild_answer page.now rows.old state) result × (rows.new ≡ rebuilt page.now rows.old state) }
{
    if rows.len() != 48 || !is_good(page, state) {
        return Err(Answer::BadCall);
    }
    rebuild(rows, page, state.core.screen.wide, state.core.modes.protect);
    Ok(())
}

// The bytes that a run did not take, as that part of the input; past its end there are none. Ruled out: one that hands back none, or all
// of the input past its end.
pub fn rest(input: &[u8], taken: usize) -> &[u8]
    ensures { result.now ≡ drop taken input.now }
{
    let n = input.len();
    if n < taken {
        return &input[n..];
    }
    &input[taken..]
}

// The key press: how many bytes it replied. Ruled out: one that works while the keyboard is locked or a send is under way, or sends the bytes of the
// key beside.
pub fn press(page: &[u16], state: State, key: u8, reply: &mut [u8]) -> Result<usize, Answer>
    ensures { KeySent (press_rule page.now state key (length reply.old)) result reply.old reply.new }
{
    if !is_good(page, state) {
        return Err(Answer::BadCall);
    }
    if state.core.modes.locked {
        return Err(Answer::Locked);
    }
    if !is_key(key) {
        return Err(Answer::BadArgument);
    }
    if is_sending(state.sending) {
        return Err(Answer::NoRoom);
    }
    press_key(key_at(state.setup.keys, key), key, reply)
}

// The conversion to the other width: the page's cells in the target, and the state there. Ruled out: one that drops a written cell, looks at the
// wish, keeps the split, or writes to the target and then refuses.
pub fn convert(page: &[u16], state: State, target: &mut [u16]) -> Result<State, Answer>
    ensures { Turns state (convert_rule page.now state target.old) result target.new }
{
    let wide = state.core.screen.wide;
    let n = cells(!wide, 24);
    if !is_good(page, state) || target.len() != n as usize {
        return Err(Answer::BadCall);
    }
    if is_sending(state.sending) {
        return Err(Answer::NoRoom);
    }
    if loses_cells(page, wide) {
        return Err(Answer::Barred);
    }
    convert_page(page, wide, target);
    Ok(state_on(target, state))
}
