// Where the pieces of a reply stand.
ghost use Rattle.std.specs.Prelude.{◌≡◌, ◌+◌, ◌-◌, ◌<◌, ◌≤◌, [], length, get_or, take, drop, true, false, MatchOption};
ghost use Rattle.counter.specs.Pieces.{returns, before, is_mark, cut_at_marks, joined};
ghost use Rattle.counter.specs.Count.{in_order};
ghost use Rattle.counter.specs.Walk.{marks_in, past as past_of, remaining};

// What stands before a reply's final CR, if it has one.
pub(crate) fn before_return(reply: &[u8]) -> Option<&[u8]>
    ensures { MatchOption result (returns reply.now ≡ false)
        (λ text. (returns reply.now ≡ true) × (text.now ≡ before reply.now) × (length text.now < 18446744073709551615)) }
{
    reply.strip_suffix(b"\r")
}

pub(crate) fn in_order(first: usize, last: usize) -> bool
    ensures { result ≡ in_order first last }
{
    1 <= first && first <= last
}

#[tactic(auto, using(crate::proofs::Tests::tests), unfolding(crate::specs::Pieces::is_mark))]
pub(crate) fn is_mark(b: u8) -> bool
    ensures { result ≡ is_mark b }
{
    b == 0x1c || b == 0x1f
}

// How many marks a text has. Added up, for speed: with `filter` and `count` it took nine instructions a byte, and takes five.
#[tactic(auto, using(crate::proofs::Marks::marks_steps))]
pub(crate) fn marks_in(text: &[u8]) -> usize
    ensures { (result ≡ marks_in text.now) × (result ≤ length text.now) }
{
    let mut n = 0;
    for b in text {
        n += is_mark(*b) as usize;
    }
    n
}

// The place behind mark number n; one behind the end where there are fewer marks.
#[tactic(auto, using(crate::proofs::Marks::past_steps))]
pub(crate) fn past(text: &[u8], n: usize) -> usize
    requires { length text.now < 18446744073709551615 }
    ensures { result ≡ past_of n text.now }
{
    let mut left = n;
    for (i, b) in text.iter().enumerate() {
        if left == 0 {
            return i;
        }
        if is_mark(*b) {
            left -= 1;
        }
    }
    if left == 0 {
        text.len()
    } else {
        text.len() + 1
    }
}

// The part of a text that its pieces from number `first` to number `last` are, with the marks between them.
pub(crate) fn part(text: &[u8], first: usize, last: usize) -> &[u8]
    requires size { length text.now < 18446744073709551615 }
    requires in_order { (1 ≤ first) × (first ≤ last) }
    requires there { last ≤ marks_in text.now + 1 }
    ensures all { joined (take (last - (first - 1)) (drop (first - 1) (cut_at_marks text.now))) ≡ remaining true result.now }
    ensures one { first ≡ last → result.now ≡ get_or (cut_at_marks text.now) (first - 1) [] }
{
    let from = past(text, first - 1);
    let to = past(text, last) - 1;
    &text[from..to]
}
