// Lines that save and restore set-ups.
use replay_text::digest;
use rules::State;
use saved::Refusal;
use std::io;
use std::io::Write;

fn refused(to: &mut impl Write, e: Refusal) -> io::Result<()> {
    let why = match e {
        Refusal::BadState => "state",
        Refusal::BadStore => "store",
        Refusal::BadNumber => "number",
        Refusal::Full => "full",
    };
    write!(to, " result={why}")
}

fn named_store(to: &mut impl Write, store: &[u8]) -> io::Result<()> {
    write!(to, " store={:016x}", digest::of_bytes(store))
}

pub fn save(to: &mut impl Write, s: State, store: &mut [u8]) -> io::Result<()> {
    match saved::save(s, store) {
        Ok(n) => write!(to, " result=saved:{n}")?,
        Err(e) => refused(to, e)?,
    }
    named_store(to, store)
}

// Answers the state after the call.
pub fn restore(to: &mut impl Write, s: State, number: u16, store: &[u8]) -> io::Result<State> {
    let r = saved::restore(s, store, number);
    match r {
        Ok(_) => write!(to, " result=restored")?,
        Err(e) => refused(to, e)?,
    }
    named_store(to, store)?;
    Ok(r.unwrap_or(s))
}
