// The terminal with what is lent to its calls, kept from line to line, and what a line does.
use crate::calls;
use crate::lists::{CELLS, List, Store};
use crate::script::{Call, Command, ListLine, read};
use replay_settings::setting;
use replay_state::state_text;
use replay_terminal::calls::convert;
use replay_terminal::noise::noise;
use replay_text::digest;
use replay_text::words::first;
use rules::{Personality, State};
use std::io;
use std::io::Write;

#[derive(Drop)]
pub struct Bench {
    pub state: State,
    pub page: List,
    pub rows: List,
    pub store: Store,
    pub display: List,
    // how many lines were written
    written: u64,
}

impl Bench {
    // As at power-on.
    pub fn new() -> Bench {
        let mut page = List::new(1920);
        let on = terminal::power_on(page.as_mut_slice(), Personality::Wy50);
        Bench {
            state: on.state,
            page,
            rows: List::new(48),
            store: Store::new(8714),
            display: List::new(1920),
            written: 0,
        }
    }

    // Carries out a line; nothing where it is a bad one. The byte string of a line is put to the front of `input`.
    pub fn obey(
        &mut self,
        to: &mut impl Write,
        line: &[u8],
        input: &mut [u8],
    ) -> io::Result<Option<()>> {
        let Some(command) = read(line, input) else {
            return Ok(None);
        };
        match command {
            Command::Skip => Ok(Some(())),
            Command::Set => Ok(setting::set(&mut self.state, line)),
            Command::List(x) => Ok(self.change(x)),
            Command::Convert(size) => {
                self.convert(to, size)?;
                Ok(Some(()))
            }
            Command::Call(x) => {
                self.call(to, x, line, input)?;
                Ok(Some(()))
            }
        }
    }

    fn change(&mut self, x: ListLine) -> Option<()> {
        match x {
            ListLine::Page(n) => self.page.reset(n),
            ListLine::Rows(n) => self.rows.reset(n),
            ListLine::Store(n) => self.store.reset(n),
            ListLine::Cells {
                first,
                count,
                value,
            } => self.page.put(first, count, value)?,
            ListLine::Row(i, value) => self.rows.put(i, 1, value)?,
            ListLine::Byte(i, value) => *self.store.as_mut_slice().get_mut(i)? = value,
            ListLine::Noise { seed, mask, share } => {
                noise(self.page.as_mut_slice(), seed, mask, share);
            }
            ListLine::Display => self.display.take_over(self.page.as_slice()),
        }
        Some(())
    }

    // A line's number and its word.
    fn heading(&mut self, to: &mut impl Write, word: &[u8]) -> io::Result<()> {
        self.written = self.written.wrapping_add(1);
        write!(to, "{} ", self.written)?;
        to.write_all(word)
    }

    // The state, the page's digest, the end of the line.
    fn ending(&self, to: &mut impl Write) -> io::Result<()> {
        state_text::state(to, &self.state)?;
        writeln!(to, " page={:016x}", digest::of(self.page.as_slice()))
    }

    fn call(&mut self, to: &mut impl Write, x: Call, line: &[u8], input: &[u8]) -> io::Result<()> {
        self.heading(to, first(line))?;
        calls::call(to, self, x, line, input)?;
        self.ending(to)
    }

    // The target is all EEEEh before the call; done, it is the page from then on.
    fn convert(&mut self, to: &mut impl Write, size: usize) -> io::Result<()> {
        self.heading(to, b"convert")?;
        let mut target = [0xeeee; CELLS];
        let target = &mut target[..size.min(CELLS)];
        if let Some(state) = convert(to, self.state, self.page.as_slice(), target)? {
            self.state = state;
            self.page.take_over(target);
        }
        self.ending(to)
    }
}
