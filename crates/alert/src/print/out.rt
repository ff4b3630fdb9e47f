// Standard output.
use std::io;

pub fn text(rt: &impl Print, t: &[u8]) -> io::Result<()> {
    rt.write_all(t)
}

// A number of things: the word, with an s unless there is one of them.
pub fn count(rt: &impl Print, n: u64, word: &str) -> io::Result<()> {
    let end = if n == 1 { "" } else { "s" };
    print!(rt; "{n} {word}{end}")
}

// The names of those that are set, the first of them behind `before` and each other behind `between`; answers whether there is one.
pub fn names(
    rt: &impl Print,
    all: &[(bool, &str)],
    before: &str,
    between: &str,
) -> io::Result<bool> {
    let mut told = false;
    for (set, name) in all {
        if *set {
            let lead = if told { between } else { before };
            let name = *name;
            print!(rt; "{lead}{name}")?;
            told = true;
        }
    }
    Ok(told)
}
