// A line of a script as a command of numbers. Its byte string, if it has one, is put to the front of a room, and the command has its length.
use crate::lists::{BYTES, CELLS};
use replay_above::repainting::are_spans;
use replay_text::words::{
    at_most, byte, byte_string, first, flag, later, number, number_as, personality, word_count,
};
use rules::Personality;

// The longest list of entries of a mending.
const ENTRIES: usize = 16384;

// Lines that change what is lent to calls: a new length, or numbers of it.
#[derive(Clone, Copy)]
pub enum ListLine {
    Page(usize),
    Rows(usize),
    Store(usize),
    Cells {
        first: usize,
        count: usize,
        value: u16,
    },
    Row(usize, u16),
    Byte(usize, u8),
    Noise {
        seed: usize,
        mask: usize,
        share: usize,
    },
    Display,
}

// Lines that call the terminal: with the row list or not; the length of the input and of the room.
#[derive(Clone, Copy)]
pub enum TerminalLine {
    On(Personality),
    Step {
        listed: bool,
        byte: u8,
        room: usize,
    },
    // `next` is up to the first event
    Run {
        next: bool,
        listed: bool,
        length: usize,
        room: usize,
    },
    Press {
        key: u8,
        room: usize,
    },
    Rebuild,
}

// Lines that read the page.
#[derive(Clone, Copy)]
pub enum PageLine {
    Show,
    Field(usize),
    FieldText {
        start: usize,
        trim: bool,
        room: usize,
    },
    RowText {
        row: usize,
        trim: bool,
        room: usize,
    },
    Position(usize),
    Place {
        row: usize,
        column: usize,
    },
}

#[derive(Clone, Copy)]
pub enum StoreLine {
    Save,
    Restore(u16),
}

// Lines that count, that mend, and about the distant display: the length of the input; the numbers of the first and the last piece; the length of
// the list; the lengths of the rooms.
#[derive(Clone, Copy)]
pub enum AboveLine {
    Count {
        length: usize,
        first: usize,
        last: usize,
    },
    Entry(usize),
    Mend {
        model: Personality,
        numbers: usize,
    },
    Spans,
    Bytes {
        model: Personality,
        length: usize,
    },
    Propose {
        model: Personality,
        spans: usize,
        bytes: usize,
    },
}

#[derive(Clone, Copy)]
pub enum Call {
    Terminal(TerminalLine),
    Page(PageLine),
    Store(StoreLine),
    Above(AboveLine),
}

// A setting is read where it is carried out.
#[derive(Clone, Copy)]
pub enum Command {
    Skip,
    Set,
    List(ListLine),
    // the length of the target
    Convert(usize),
    Call(Call),
}

// What a line says; nothing where it fits none of the forms.
pub fn read(line: &[u8], input: &mut [u8]) -> Option<Command> {
    if matches!(line, [] | [b'#', ..]) {
        return Some(Command::Skip);
    }
    let word = first(line);
    let words = later(line);
    match word_count(line) {
        1 => one_word(word),
        2 => two_words(word, words, input),
        3 => three_words(word, first(words), later(words), input),
        4 => {
            let others = later(words);
            four_words(word, first(words), first(others), later(others), input)
        }
        _ => None,
    }
}

fn list(x: ListLine) -> Option<Command> {
    Some(Command::List(x))
}

fn terminal(x: TerminalLine) -> Option<Command> {
    Some(Command::Call(Call::Terminal(x)))
}

fn page(x: PageLine) -> Option<Command> {
    Some(Command::Call(Call::Page(x)))
}

fn store(x: StoreLine) -> Option<Command> {
    Some(Command::Call(Call::Store(x)))
}

fn above(x: AboveLine) -> Option<Command> {
    Some(Command::Call(Call::Above(x)))
}

fn one_word(word: &[u8]) -> Option<Command> {
    match word {
        b"on" => terminal(TerminalLine::On(Personality::Wy50)),
        b"show" => page(PageLine::Show),
        b"rebuild" => terminal(TerminalLine::Rebuild),
        b"save" => store(StoreLine::Save),
        b"display" => list(ListLine::Display),
        _ => None,
    }
}

fn two_words(word: &[u8], value: &[u8], input: &mut [u8]) -> Option<Command> {
    match word {
        b"entry" => above(AboveLine::Entry(byte_string(value, input)?)),
        b"spans" => spans(value),
        b"length" => list(ListLine::Page(at_most(CELLS, value)?)),
        b"rows" => list(ListLine::Rows(at_most(CELLS, value)?)),
        b"store" => list(ListLine::Store(at_most(BYTES, value)?)),
        b"convert" => Some(Command::Convert(at_most(CELLS, value)?)),
        b"field" => page(PageLine::Field(number(value)?)),
        b"position" => page(PageLine::Position(number(value)?)),
        b"restore" => store(StoreLine::Restore(number_as(value)?)),
        b"on" => terminal(TerminalLine::On(personality(value)?)),
        _ => Some(Command::Set),
    }
}

fn spans(word: &[u8]) -> Option<Command> {
    if are_spans(word) {
        above(AboveLine::Spans)
    } else {
        None
    }
}

fn three_words(word: &[u8], a: &[u8], b: &[u8], input: &mut [u8]) -> Option<Command> {
    match word {
        b"run" => run(false, false, a, b, input),
        b"listrun" => run(false, true, a, b, input),
        b"next" => run(true, false, a, b, input),
        b"listnext" => run(true, true, a, b, input),
        b"bytes" => above(AboveLine::Bytes {
            model: personality(a)?,
            length: byte_string(b, input)?,
        }),
        _ => byte_call(word, a, b),
    }
}

fn run(next: bool, listed: bool, a: &[u8], b: &[u8], input: &mut [u8]) -> Option<Command> {
    terminal(TerminalLine::Run {
        next,
        listed,
        length: byte_string(a, input)?,
        room: at_most(CELLS, b)?,
    })
}

fn byte_call(word: &[u8], a: &[u8], b: &[u8]) -> Option<Command> {
    match word {
        b"step" => step(false, a, b),
        b"liststep" => step(true, a, b),
        b"press" => terminal(TerminalLine::Press {
            key: byte(a)?,
            room: at_most(CELLS, b)?,
        }),
        _ => two_numbers(word, a, b),
    }
}

fn step(listed: bool, a: &[u8], b: &[u8]) -> Option<Command> {
    terminal(TerminalLine::Step {
        listed,
        byte: byte(a)?,
        room: at_most(CELLS, b)?,
    })
}

fn two_numbers(word: &[u8], a: &[u8], b: &[u8]) -> Option<Command> {
    match word {
        b"place" => page(PageLine::Place {
            row: number(a)?,
            column: number(b)?,
        }),
        b"mend" => above(AboveLine::Mend {
            model: personality(a)?,
            numbers: at_most(ENTRIES, b)? * 4,
        }),
        b"cell" => list(ListLine::Cells {
            first: number(a)?,
            count: 1,
            value: number_as(b)?,
        }),
        b"row" => list(ListLine::Row(number(a)?, number_as(b)?)),
        b"byte" => list(ListLine::Byte(number(a)?, number_as(b)?)),
        _ => Some(Command::Set),
    }
}

fn four_words(word: &[u8], a: &[u8], b: &[u8], c: &[u8], input: &mut [u8]) -> Option<Command> {
    match word {
        b"count" => above(AboveLine::Count {
            length: byte_string(a, input)?,
            first: number(b)?,
            last: number(c)?,
        }),
        b"propose" => above(AboveLine::Propose {
            model: personality(a)?,
            spans: at_most(CELLS, b)?,
            bytes: at_most(BYTES, c)?,
        }),
        _ => three_numbers(word, a, b, c),
    }
}

fn three_numbers(word: &[u8], a: &[u8], b: &[u8], c: &[u8]) -> Option<Command> {
    match word {
        b"fill" => list(ListLine::Cells {
            first: number(a)?,
            count: number(b)?,
            value: number_as(c)?,
        }),
        b"noise" => list(ListLine::Noise {
            seed: number(a)?,
            mask: number(b)?,
            share: number(c)?,
        }),
        b"fieldtext" => page(PageLine::FieldText {
            start: number(a)?,
            trim: flag(b)?,
            room: at_most(CELLS, c)?,
        }),
        b"rowtext" => page(PageLine::RowText {
            row: number(a)?,
            trim: flag(b)?,
            room: at_most(CELLS, c)?,
        }),
        _ => None,
    }
}
