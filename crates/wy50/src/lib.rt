// The terminal for C and Rust. A state crosses as numbers, by value both ways. Numbers that name no state are an impossible state: the call
// answers 7, replies nothing, changes nothing and gives the numbers back. A slice crosses as a pointer and a count.
#![tactic(auto)]

pub mod raw; // the structs that cross
mod pack; // the numbers of a state
mod setups; // the numbers of what a save and a restore answer
mod unpack; // the state that numbers name
pub mod reading; // fields, texts and places of a page
pub mod display; // repainting a distant display

ghost use Rattle.std.specs.Prelude.{◌≡◌, length, ◌+◌, ◌*◌};
ghost use Rattle.rules.specs.Cell.{code, protected, kind, attribute, sent};
ghost use Rattle.wy50.specs.Raw.{flag};
ghost use Rattle.wy50.specs.Rows.{raw_step_rows, raw_run_rows, next_numbers, Heard, raw_rows_after, raw_rebuild_answer, raw_rebuilt};
ghost use Rattle.wy50.specs.Converting.{raw_convert, Turns};
ghost use Rattle.mend.specs.Mend.{Gives};
ghost use Rattle.wy50.specs.Mending.{raw_mend};
ghost use Rattle.wy50.specs.Saved.{raw_save, save_given, raw_restore, state_after};
ghost use Rattle.wy50.specs.Promise.{raw_power_on, raw_step, step_numbers, raw_run, run_numbers, raw_press, PoweredOn, Stepped, RunDone, Sent};

use mend::{MendResult, mend, mend_given};
use pack::{flag, fresh, pack};
use raw::{
    RawConvert, RawNext, RawPowerOn, RawPress, RawRestore, RawRun, RawSave, RawState, RawStep,
};
use rules::{Personality, RunResult, StepResult};
use saved::{restore, save};
use setups::{refusal_number, save_numbers};
use state::power_on_state;
use terminal::{
    answer_number, attribute_of, code_of, convert, is_protected, kind_of, next, power_on, press,
    rebuild_rows, reply_command, run, run_rows, sent_code, step, step_rows,
};
use unpack::{personality_at, state_of};

// The version of this library as one number: a million times the major number, a thousand times the minor one and the patch. tools/version writes
// it here and in the contract. Ruled out: one that gives another.
const VERSION: u32 = 13000;

#[unsafe(no_mangle)]
pub extern "C" fn wy50_version() -> u32
    ensures { result ≡ 1000000 * 0 + 1000 * 13 + 0 }
{
    VERSION
}

// All cells 0, and the numbers of a personality's power-on state. Ruled out: one that gives a mode or a cursor for another, or takes a number
// that is no personality.
#[unsafe(no_mangle)]
pub extern "C" fn wy50_power_on(page: &mut [u16], personality: u8) -> RawPowerOn
    ensures { PoweredOn (raw_power_on personality page.old) result page.new }
{
    let Some(personality) = personality_at(personality) else {
        return RawPowerOn {
            answer: 7,
            state: fresh(power_on_state(Personality::Wy50)),
        };
    };
    let t = power_on(page, personality);
    RawPowerOn {
        answer: answer_number(t.answer),
        state: fresh(t.state),
    }
}

// What a step, a run and `next` give: 7 and the numbers as they came where these name no state, else the terminal's in numbers. Where the terminal
// answers 7 it leaves the state, whose numbers are those that came. `inline`, so that the machine does not copy the state on the way.

fn refused_step(state: RawState) -> RawStep
    ensures { result ≡ record { answer = 7; taken = 0; replied = 0; state = state } }
{
    RawStep {
        answer: 7,
        taken: 0,
        replied: 0,
        state,
    }
}

#[inline(always)]
fn stepped(state: RawState, t: StepResult) -> RawStep
    ensures { result ≡ step_numbers state t }
{
    RawStep {
        answer: answer_number(t.answer),
        taken: flag(t.taken),
        replied: t.replied,
        state: pack(state, t.state),
    }
}

fn refused_run(state: RawState) -> RawRun
    ensures { result ≡ record { answer = 7; taken = 0; replied = 0; refused = 0; state = state } }
{
    RawRun {
        answer: 7,
        taken: 0,
        replied: 0,
        refused: 0,
        state,
    }
}

#[inline(always)]
fn ran(state: RawState, t: RunResult) -> RawRun
    ensures { result ≡ run_numbers state t }
{
    RawRun {
        answer: answer_number(t.answer),
        taken: t.taken,
        replied: t.replied,
        refused: t.refused,
        state: pack(state, t.state),
    }
}

#[inline(always)]
fn heard(state: RawState, command: u8, r: RunResult) -> RawNext
    ensures { result ≡ next_numbers state command r }
{
    RawNext {
        answer: answer_number(r.answer),
        command,
        taken: r.taken,
        replied: r.replied,
        refused: r.refused,
        state: pack(state, r.state),
    }
}

// The single step. Ruled out: one that reads a mode of 2 as off, obeys another byte, or counts one that waits as taken.
#[unsafe(no_mangle)]
pub extern "C" fn wy50_step(
    page: &mut [u16],
    state: RawState,
    byte: u8,
    reply: &mut [u8],
) -> RawStep
    ensures { Stepped (raw_step page.old state byte (length reply.old)) result page.new reply.old
        reply.new }
{
    let Some(s) = state_of(state) else {
        return refused_step(state);
    };
    stepped(state, step(page, s, byte, reply))
}

// The run over many bytes. The bytes not taken start at `taken` of the input. Ruled out: one that loses the sequence or the send
// under way between two calls, or gives one count for another.
#[unsafe(no_mangle)]
pub extern "C" fn wy50_run(
    page: &mut [u16],
    state: RawState,
    input: &[u8],
    reply: &mut [u8],
) -> RawRun
    ensures { RunDone (raw_run page.old state input.now (length reply.old)) result input.now
        page.new reply.old reply.new }
{
    let Some(s) = state_of(state) else {
        return refused_run(state);
    };
    ran(state, run(page, s, input, reply))
}

// The key press. Ruled out: one that presses another key, or takes a tab stop of 2.
#[unsafe(no_mangle)]
pub extern "C" fn wy50_press(page: &[u16], state: RawState, key: u8, reply: &mut [u8]) -> RawPress
    ensures { Sent (raw_press page.now state key (length reply.old)) result reply.old reply.new }
{
    let Some(s) = state_of(state) else {
        return RawPress {
            answer: 7,
            replied: 0,
        };
    };
    match press(page, s, key, reply) {
        Ok(replied) => RawPress { answer: 0, replied },
        Err(a) => RawPress {
            answer: answer_number(a),
            replied: 0,
        },
    }
}

// The single step with a row list. Ruled out: one that takes the list of another page, or forgets to hand it on.
#[unsafe(no_mangle)]
pub extern "C" fn wy50_step_rows(
    page: &mut [u16],
    rows: &mut [u16],
    state: RawState,
    byte: u8,
    reply: &mut [u8],
) -> RawStep
    ensures { Stepped (raw_step_rows page.old rows.old state byte (length reply.old)) result page.new
        reply.old reply.new
        × (rows.new ≡ raw_rows_after page.old rows.old state page.new result.state) }
{
    let Some(s) = state_of(state) else {
        return refused_step(state);
    };
    stepped(state, step_rows(page, rows, s, byte, reply))
}

// The run with a row list. Ruled out: one that counts the bytes of a refused call as taken.
#[unsafe(no_mangle)]
pub extern "C" fn wy50_run_rows(
    page: &mut [u16],
    rows: &mut [u16],
    state: RawState,
    input: &[u8],
    reply: &mut [u8],
) -> RawRun
    ensures { RunDone (raw_run_rows page.old rows.old state input.now (length reply.old)) result
        input.now page.new reply.old reply.new
        × (rows.new ≡ raw_rows_after page.old rows.old state page.new result.state) }
{
    let Some(s) = state_of(state) else {
        return refused_run(state);
    };
    ran(state, run_rows(page, rows, s, input, reply))
}

// The run up to the first event, with a row list or an empty one. Ruled out: one that names another command, or none where it replied.
#[unsafe(no_mangle)]
pub extern "C" fn wy50_next(
    page: &mut [u16],
    rows: &mut [u16],
    state: RawState,
    input: &[u8],
    reply: &mut [u8],
) -> RawNext
    ensures { Heard page.old rows.old state input.now result page.new rows.new
        reply.old reply.new }
{
    let Some(s) = state_of(state) else {
        return RawNext {
            answer: 7,
            command: 0,
            taken: 0,
            replied: 0,
            refused: 0,
            state,
        };
    };
    let sending = s.sending;
    let t = next(page, rows, s, input, reply);
    let command = reply_command(sending, input, t.taken, t.replied);
    heard(state, command, t)
}

// The row list made anew: its answer. Ruled out: one that rebuilds for numbers that name no state.
#[unsafe(no_mangle)]
pub extern "C" fn wy50_rebuild_rows(page: &[u16], rows: &mut [u16], state: RawState) -> u8
    ensures { (result ≡ raw_rebuild_answer page.now rows.old state)
        × (rows.new ≡ raw_rebuilt page.now rows.old state) }
{
    let Some(s) = state_of(state) else {
        return 7;
    };
    match rebuild_rows(page, rows, s) {
        Ok(()) => 0,
        Err(a) => answer_number(a),
    }
}

// Saves the set-up of the state under the next number. Ruled out: one that saves for numbers that name no state, or gives a number for what it
// refuses.
#[unsafe(no_mangle)]
pub extern "C" fn wy50_save(state: RawState, store: &mut [u8]) -> RawSave
    ensures { (result ≡ save_given (raw_save state store.old)) × (store.new ≡ (raw_save state store.old).store) }
{
    let Some(s) = state_of(state) else {
        return RawSave {
            answer: 7,
            number: 0,
        };
    };
    save_numbers(save(s, store))
}

// Restores the settings saved under a number. Ruled out: one that gives other numbers back than it was handed where it refuses.
#[unsafe(no_mangle)]
pub extern "C" fn wy50_restore(state: RawState, store: &[u8], number: u16) -> RawRestore
    ensures { (result.answer ≡ (raw_restore state store.now number).answer)
        × (result.state ≡ state_after state (raw_restore state store.now number)) }
{
    let Some(s) = state_of(state) else {
        return RawRestore { answer: 7, state };
    };
    match restore(s, store, number) {
        Ok(t) => RawRestore {
            answer: 0,
            state: pack(state, t),
        },
        Err(e) => RawRestore {
            answer: refusal_number(e),
            state,
        },
    }
}

// The conversion to the other width. Ruled out: one that gives numbers of the other width back where it refuses, or puts the page where it was.
#[unsafe(no_mangle)]
pub extern "C" fn wy50_convert(page: &[u16], state: RawState, target: &mut [u16]) -> RawConvert
    ensures { Turns (raw_convert page.now state target.old) result target.new }
{
    let Some(s) = state_of(state) else {
        return RawConvert { answer: 7, state };
    };
    match convert(page, s, target) {
        Ok(t) => RawConvert {
            answer: 0,
            state: pack(state, t),
        },
        Err(a) => RawConvert {
            answer: answer_number(a),
            state,
        },
    }
}

// Mends a saved page. Ruled out: one that takes a number that is no personality.
#[unsafe(no_mangle)]
pub extern "C" fn wy50_mend(page: &mut [u16], personality: u8, list: &mut [u16]) -> MendResult
    ensures { Gives (raw_mend personality page.old list.old) result page.new list.new }
{
    let Some(personality) = personality_at(personality) else {
        return MendResult {
            answer: 7,
            needed: 0,
        };
    };
    mend_given(mend(page, personality, list))
}

// Readers of a cell's number: its code, whether it is protected (0 or 1), its kind, its attribute, and what a send gives for it.

#[unsafe(no_mangle)]
pub extern "C" fn wy50_cell_code(cell: u16) -> u8
    ensures { result ≡ code cell }
{
    code_of(cell)
}

#[unsafe(no_mangle)]
pub extern "C" fn wy50_cell_protected(cell: u16) -> u8
    ensures { result ≡ flag (protected cell) }
{
    flag(is_protected(cell))
}

#[unsafe(no_mangle)]
pub extern "C" fn wy50_cell_kind(cell: u16) -> u8
    ensures { result ≡ kind cell }
{
    kind_of(cell).number()
}

#[unsafe(no_mangle)]
pub extern "C" fn wy50_cell_attribute(cell: u16) -> u8
    ensures { result ≡ attribute cell }
{
    attribute_of(cell)
}

#[unsafe(no_mangle)]
pub extern "C" fn wy50_cell_sent(cell: u16) -> u8
    ensures { result ≡ sent cell }
{
    sent_code(cell)
}
