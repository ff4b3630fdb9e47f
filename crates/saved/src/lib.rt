// Saved set-ups: the last eight by number, kept in a lent store of 8,714 bytes as the terminal's own command bytes. No call asks anything of its
// caller, and each promises all that it gives: the answer, the state, and every byte of the store.
#![tactic(auto)]

mod bytes; // a set-up as bytes
mod feeding; // bytes fed to a terminal
mod store; // the store and its places

ghost use Rattle.std.specs.Prelude.{◌≡◌};
ghost use Rattle.saved.specs.Calls.{last_rule, save_rule, restore_rule, SaveGives, RestoreGives};

use rules::State;
use state::possible::possible;
use store::{is_restorable, is_store, last_number, restore_from, save_as};

// Why a save or a restore is refused: an impossible state, a store that no saves could leave, a number never saved or overwritten, and no number
// left.
#[derive(Clone, Copy, PartialEq, Eq)]
pub enum Refusal {
    BadState,
    BadStore,
    BadNumber,
    Full,
}

// The number saved last, where the state can be saved and saves could leave the store.
fn last_of(state: State, store: &[u8]) -> Result<u16, Refusal>
    ensures { result ≡ last_rule state store.now }
{
    if !possible(state) {
        return Err(Refusal::BadState);
    }
    if !is_store(store) {
        return Err(Refusal::BadStore);
    }
    Ok(last_number(store))
}

// Saves the set-up of a state under the next number, and gives that number. Ruled out: one that writes to a store that it refuses, or leaves bytes
// of an older set-up behind a shorter one.
pub fn save(state: State, store: &mut [u8]) -> Result<u16, Refusal>
    ensures { SaveGives (save_rule state store.old) result store.new }
{
    let number = last_of(state, store)?.checked_add(1).ok_or(Refusal::Full)?;
    save_as(state.setup, store, number);
    Ok(number)
}

// The state with the settings saved under a number. Ruled out: one that takes number 0, or touches more than the settings.
pub fn restore(state: State, store: &[u8], number: u16) -> Result<State, Refusal>
    ensures { RestoreGives state (restore_rule state store.now number) result }
{
    let last = last_of(state, store)?;
    if !is_restorable(last, number) {
        return Err(Refusal::BadNumber);
    }
    Ok(restore_from(state, store, number))
}
