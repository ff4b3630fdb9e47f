// Lines that set something of a state.
use crate::{send, sequence};
use replay_text::words::{
    byte_string, first, flag, later, number, number_as, personality, word_count,
};
use rules::{Modes, Pending, Screen, Sending, State, Text};

// Carries out a line; nothing, and no change, where it is not one of these.
pub fn set(s: &mut State, line: &[u8]) -> Option<()> {
    let word = first(line);
    let words = later(line);
    match word_count(line) {
        2 => one_value(s, word, words),
        3 => two_values(s, word, first(words), later(words)),
        _ => None,
    }
}

// A sequence or a send is under way, and not the other.
fn one_value(s: &mut State, word: &[u8], value: &[u8]) -> Option<()> {
    match word {
        b"pending" => {
            let (pending, gathered) = sequence::read(value)?;
            s.core.pending = pending;
            s.sending = Sending::Nothing;
            s.gathered = gathered;
        }
        b"sending" => {
            s.sending = send::read(value)?;
            s.core.pending = Pending::Idle;
        }
        b"message" => {
            let (len, bytes) = text(value)?;
            s.setup.message = Text { len, bytes };
        }
        b"shifted" => s.setup.shifted = flag(value)?,
        b"wish" => s.setup.wish = flag(value)?,
        _ => return of_core(s, word, value),
    }
    Some(())
}

fn of_core(s: &mut State, word: &[u8], value: &[u8]) -> Option<()> {
    match word {
        b"active" => s.core.screen.active = number_as(value)?,
        b"split" => s.core.screen.split = number_as(value)?,
        b"wide" => s.core.screen.wide = flag(value)?,
        b"bells" => s.core.bells = number_as(value)?,
        b"remembered" => s.core.attribute = attribute(value)?,
        b"personality" => s.core.personality = personality(value)?,
        _ => return None,
    }
    Some(())
}

fn attribute(word: &[u8]) -> Option<u8> {
    number_as(word).filter(|v| *v < 32)
}

fn two_values(s: &mut State, word: &[u8], place: &[u8], value: &[u8]) -> Option<()> {
    let i = number(place)?;
    match word {
        b"key" => *s.setup.keys.get_mut(i)? = short_text(value)?,
        b"label" => *s.setup.labels.get_mut(i)? = short_text(value)?,
        b"attribute" => *s.setup.attributes.get_mut(i)? = number_as(value)?,
        b"feature" => *s.setup.features.get_mut(i)? = number_as(value)?,
        b"tab" => *s.setup.tabs.get_mut(i)? = flag(value)?,
        b"cursor" => *cursor(&mut s.core.screen, i)? = number_as(value)?,
        b"mode" => *mode(&mut s.core.modes, i)? = flag(value)?,
        _ => return None,
    }
    Some(())
}

fn cursor(s: &mut Screen, i: usize) -> Option<&mut u16> {
    match i {
        0 => Some(&mut s.cursor0),
        1 => Some(&mut s.cursor1),
        _ => None,
    }
}

// Modes count from 0 in the order of `Modes`.
fn mode(m: &mut Modes, i: usize) -> Option<&mut bool> {
    match i {
        0 => Some(&mut m.protect),
        1 => Some(&mut m.writeprotect),
        2 => Some(&mut m.insert),
        3 => Some(&mut m.autoscroll),
        4 => Some(&mut m.locked),
        5 => Some(&mut m.local),
        _ => None,
    }
}

// The length of the text that a word spells, at most 255, and its first bytes.
fn text<const N: usize>(word: &[u8]) -> Option<(u8, [u8; N])> {
    let mut bytes = [0u8; 255];
    let len = u8::try_from(byte_string(word, &mut bytes)?).ok()?;
    let mut kept = [0u8; N];
    let n = N.min(255);
    kept[..n].copy_from_slice(&bytes[..n]);
    Some((len, kept))
}

fn short_text(word: &[u8]) -> Option<Text<8>> {
    let (len, bytes) = text(word)?;
    Some(Text { len, bytes })
}
