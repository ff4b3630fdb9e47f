// The numbers of what a save and a restore answer.
ghost use Rattle.std.specs.Prelude.{◌≡◌};
ghost use Rattle.saved.specs.Calls.{refusal_number, save_number, saved_as};

use crate::raw::RawSave;
use saved::Refusal;

pub(crate) fn refusal_number(e: Refusal) -> u8
    ensures { result ≡ refusal_number e }
{
    match e {
        Refusal::BadState => 7,
        Refusal::BadStore => 9,
        Refusal::BadNumber => 10,
        Refusal::Full => 11,
    }
}

pub(crate) fn save_numbers(a: Result<u16, Refusal>) -> RawSave
    ensures { result ≡ record { answer = save_number a; number = saved_as a } }
{
    match a {
        Ok(number) => RawSave { answer: 0, number },
        Err(e) => RawSave {
            answer: refusal_number(e),
            number: 0,
        },
    }
}
