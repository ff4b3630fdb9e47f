// The awaited bytes of a sequence, without a turn of the loop over host bytes for each.
ghost use Rattle.std.specs.Prelude.{◌≡◌, ℕ, ◌≤◌, true, List, length};
ghost use Rattle.rules.specs.Possible.{pending_ok};
ghost use Rattle.terminal.specs.Sequence.{Waits, Reads};

use rules::{Answer, Decoded, Pending};
use state::decode::decode;

// What is under way behind the awaited bytes, the first byte that is not one, and what it comes to: a byte below 80h alone is decoded.
#[derive(Clone, Copy)]
pub struct Waited {
    pub pending: Pending,
    pub decoded: Decoded,
    pub taken: usize,
}

// The awaited bytes from the byte `from` on.
pub(crate) fn awaited(pending: Pending, input: &[u8], from: usize) -> Waited
    requires { ((g : List ℕ) × (pending_ok pending g ≡ true)) × (from ≤ length input.now) }
    ensures { Waits input.now pending from result.pending result.taken
        × Reads input.now result.pending result.taken result.decoded }
{
    let mut q = pending;
    let mut i = from;
    // the index is given back, and goes on inside one arm alone: no `for`
    while i < input.len() {
        let b = input[i];
        if 128 <= b {
            return Waited {
                pending: q,
                decoded: Decoded::Reject(Answer::HighByte),
                taken: i,
            };
        }
        let d = decode(q, b);
        match d {
            Decoded::Wait(next) => {
                q = next;
                i += 1;
            }
            _ => {
                return Waited {
                    pending: q,
                    decoded: d,
                    taken: i,
                };
            }
        }
    }
    Waited {
        pending: q,
        decoded: Decoded::Reject(Answer::HighByte),
        taken: i,
    }
}
