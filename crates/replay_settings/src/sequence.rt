// The sequence that a word spells, as `replay_state` shows it.
use replay_state::sequence::spelled;
use replay_text::rooms::split;
use replay_text::words::byte_string;
use rules::{Pending, Personality, State};

// What bytes leave of a terminal that was just turned on, on a page of its own. Where a text is to be spoilt, ten times 00h follow: a bad byte of
// a message or a label, and too many for a key.
fn fed(bytes: &[u8], over: bool) -> State {
    let mut page = [0u16; 1920];
    let mut room = [0u8; 1];
    let on = terminal::power_on(&mut page, Personality::Wy50);
    let r = terminal::run(&mut page, on.state, bytes, &mut room);
    if over {
        terminal::run(&mut page, r.state, &[0; 10], &mut room).state
    } else {
        r.state
    }
}

// The sequence that a word spells, and the bytes gathered of its text, if bytes can leave it under way and this is its spelling. No spelling has more
// than 49 bytes.
pub fn read(word: &[u8]) -> Option<(Pending, [u8; 46])> {
    let (digits, over) = match word {
        [digits @ .., b'+'] => (digits, true),
        _ => (word, false),
    };
    let mut room = [0u8; 49];
    let n = byte_string(digits, &mut room)?;
    let (bytes, _) = split(&room, n);
    let left = fed(bytes, over);
    if spelled(left.core.pending, &left.gathered).is(bytes, over) {
        Some((left.core.pending, left.gathered))
    } else {
        None
    }
}
