// The counter's calls as C and Rust see them: those of wy50_counter, with the same promises. A slice crosses as a pointer and a count.
#![tactic(auto)]

ghost use Rattle.std.specs.Prelude.{◌≡◌, ◌+◌, ◌*◌};
ghost use Rattle.counter.specs.Count.{numbers, text_count, count_rule};
ghost use Rattle.wy50_counter.specs.Raw.{raw as raw_of, billed as billed_of};

use wy50_counter::RawCount;

#[unsafe(no_mangle)]
pub extern "C" fn wy50_counter_version() -> u32
    ensures { result ≡ 1000000 * 0 + 1000 * 13 + 0 }
{
    wy50_counter::wy50_counter_version()
}

// The billing job's count of its own bytes: their parts, or the largest number for a byte outside the alphabet.
#[unsafe(no_mangle)]
pub extern "C" fn wy50_count_parts(text: &[u8]) -> u64
    ensures { result ≡ billed_of (numbers (text_count text.now)) }
{
    wy50_counter::wy50_count_parts(text)
}

// The same count, with its units and the place of a refused byte.
#[unsafe(no_mangle)]
pub extern "C" fn wy50_count_text(text: &[u8]) -> RawCount
    ensures { result ≡ raw_of (numbers (text_count text.now)) }
{
    wy50_counter::wy50_count_text(text)
}

// The pieces of a reply to ESC 5, from number `first` to number `last`.
#[unsafe(no_mangle)]
pub extern "C" fn wy50_count_reply(reply: &[u8], first: usize, last: usize) -> RawCount
    ensures { result ≡ raw_of (numbers (count_rule reply.now first last)) }
{
    wy50_counter::wy50_count_reply(reply, first, last)
}
