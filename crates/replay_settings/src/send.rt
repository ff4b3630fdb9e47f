// The send that a word spells, as `replay_state` shows it.
use replay_text::words::{hex_byte, number_as};
use rules::{Place, Sending, Short};

pub fn read(word: &[u8]) -> Option<Sending> {
    match word {
        b"-" => Some(Sending::Nothing),
        [b'1', b'b', high, low, b':', place @ ..] => at_place(hex_byte(*high, *low)?, place),
        _ => None,
    }
}

fn at_place(command: u8, word: &[u8]) -> Option<Sending> {
    match command {
        0x20 => short(Short::Identity, word),
        0x2f => short(Short::SegmentCursor, word),
        0x34 => in_text(false, false, word),
        0x35 => in_text(false, true, word),
        0x36 => in_text(true, false, word),
        0x37 => in_text(true, true, word),
        0x3f => short(Short::Cursor, word),
        0x62 => short(Short::DecimalCursor, word),
        _ => None,
    }
}

fn short(r: Short, word: &[u8]) -> Option<Sending> {
    Some(Sending::Short(r, number_as(word)?))
}

fn in_text(all: bool, segment: bool, word: &[u8]) -> Option<Sending> {
    let at = match word {
        b"cr" => Place::Return,
        [b'u', cell @ ..] => Place::Break(number_as(cell)?),
        _ => Place::Cell(number_as(word)?),
    };
    Some(Sending::Text { all, segment, at })
}
