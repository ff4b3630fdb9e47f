// The command line: alert [-6] [-w] [--first N] [--last N] [FILE].
use rules::Personality;
use std::env::FillError;
use std::rt::Env;

// A number lies below it.
const LIMIT: usize = 0x1000_0000_0000_0000;

// A WY-60 or a WY-50, a wide page or a narrow one. The pieces wanted: from `first` on to `last`, or to the last there is. `file` is the argument
// that names the file.
#[derive(Clone, Copy)]
pub struct Options {
    pub personality: Personality,
    pub wide: bool,
    pub first: usize,
    pub last: Option<usize>,
    pub file: Option<usize>,
}

// The command line has another form.
#[derive(Clone, Copy)]
pub struct Usage;

// An option whose number is the next argument.
#[derive(Clone, Copy)]
enum Awaited {
    First,
    Last,
}

// What the arguments so far say, and the option that awaits its number.
#[derive(Clone, Copy)]
struct Reading {
    options: Options,
    awaits: Option<Awaited>,
}

// The number that a word spells in decimal digits. No sign, as `parse` would take.
// `replay_text` has the same: alert stands on no crate of the replay.
fn number(word: &[u8]) -> Option<usize> {
    if word.is_empty() {
        return None;
    }
    let mut n = 0;
    for b in word {
        if !b.is_ascii_digit() {
            return None;
        }
        n = n * 10 + usize::from(*b - b'0');
        if LIMIT <= n {
            return None;
        }
    }
    Some(n)
}

// The number of the option that awaits it.
fn with_number(o: Options, a: Awaited, word: &[u8]) -> Result<Options, Usage> {
    let n = number(word).ok_or(Usage)?;
    Ok(match a {
        Awaited::First => Options { first: n, ..o },
        Awaited::Last => Options { last: Some(n), ..o },
    })
}

fn with_file(o: Options, i: usize) -> Result<Options, Usage> {
    match o.file {
        Some(_) => Err(Usage),
        None => Ok(Options { file: Some(i), ..o }),
    }
}

// Argument i.
fn take(r: Reading, i: usize, word: &[u8]) -> Result<Reading, Usage> {
    let o = r.options;
    if let Some(a) = r.awaits {
        return Ok(Reading {
            options: with_number(o, a, word)?,
            awaits: None,
        });
    }
    match word {
        b"-6" => Ok(Reading {
            options: Options {
                personality: Personality::Wy60,
                ..o
            },
            ..r
        }),
        b"-w" => Ok(Reading {
            options: Options { wide: true, ..o },
            ..r
        }),
        b"--first" => Ok(Reading {
            awaits: Some(Awaited::First),
            ..r
        }),
        b"--last" => Ok(Reading {
            awaits: Some(Awaited::Last),
            ..r
        }),
        _ => Ok(Reading {
            options: with_file(o, i)?,
            ..r
        }),
    }
}

pub fn read(rt: &impl Env) -> Result<Options, Usage> {
    let mut r = Reading {
        options: Options {
            personality: Personality::Wy50,
            wide: false,
            first: 1,
            last: None,
            file: None,
        },
        awaits: None,
    };
    for i in 1..usize::MAX {
        let mut word = [0u8; 4096];
        match rt.arg(i, &mut word) {
            Ok(n) => r = take(r, i, &word[..n])?,
            Err(FillError::TooLong) => return Err(Usage),
            Err(FillError::NotPresent) => break,
        }
    }
    match r.awaits {
        Some(_) => Err(Usage),
        None => Ok(r.options),
    }
}
