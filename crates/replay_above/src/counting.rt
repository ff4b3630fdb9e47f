// Lines that count.
use counter::{Refusal, Size};
use std::io;
use std::io::Write;

fn result(to: &mut impl Write, c: Result<Size, Refusal>) -> io::Result<()> {
    match c {
        Ok(Size { units: _, parts }) => write!(to, " result=parts:{parts}"),
        Err(Refusal::NoReturn) => write!(to, " result=no-cr"),
        Err(Refusal::BadFirst) => write!(to, " result=first"),
        Err(Refusal::BadLast) => write!(to, " result=last"),
        Err(Refusal::BadByte(place)) => write!(to, " result=byte:{place}"),
    }
}

pub fn count(to: &mut impl Write, input: &[u8], first: usize, last: usize) -> io::Result<()> {
    result(to, counter::count(input, first, last))
}

pub fn entry(to: &mut impl Write, input: &[u8]) -> io::Result<()> {
    write!(to, " parts={}", wy50_counter::wy50_count_parts(input))
}
