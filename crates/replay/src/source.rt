// The lines of an input, one after the other through a buffer.
ghost use Rattle.std.specs.Prelude.{◌<◌, ◌≤◌, length, IfSome};

use std::io;
use std::io::Read;

// A line fits into the buffer with its line end.
const BUFFER: usize = 65536;

// The bytes from `next` up to `held` are read already.
#[derive(Drop)]
pub struct Lines<'a, R: Read> {
    from: &'a mut R,
    text: [u8; BUFFER],
    next: usize,
    held: usize,
    ended: bool,
    ghost order: { next ≤ held },
    ghost within: { held ≤ 65536 },
}

impl<'a, R: Read> Lines<'a, R> {
    pub fn new(from: &'a mut R) -> Self {
        Lines {
            from,
            text: [0; BUFFER],
            next: 0,
            held: 0,
            ended: false,
        }
    }

    // The next line, which has this number; nothing behind the last. What is wrong with the input is said to `said`; an error is that of a read, or
    // of a write there.
    pub fn next(&mut self, said: &impl Print, number: u64) -> io::Result<Option<&[u8]>> {
        if self.ended {
            return Ok(None);
        }
        match line_end(&self.text[self.next..self.held]) {
            Some(n) => Ok(Some(self.taken(n))),
            None => {
                self.move_to_front();
                self.more(said, number)
            }
        }
    }

    // The line of so many bytes, and its line end, are taken.
    fn taken(&mut self, n: usize) -> &[u8] {
        let from = self.next;
        let end = from + n.min(self.held - from);
        self.next = (end + 1).min(self.held);
        let lines = &*self;
        &lines.text[from..end]
    }

    // The bytes that are held go to the front of the buffer.
    fn move_to_front(&mut self) {
        self.text.copy_within(self.next..self.held, 0);
        self.held -= self.next;
        self.next = 0;
    }

    // Reads until the line at the front of the buffer is whole. The last line may have no line end.
    fn more(&mut self, said: &impl Print, number: u64) -> io::Result<Option<&[u8]>> {
        while self.held < BUFFER {
            let held = self.held;
            let n = self.from.read(&mut self.text[held..])?;
            if n == 0 {
                self.ended = true;
                let lines = &*self;
                return Ok(Some(&lines.text[..held]));
            }
            self.held = held + n;
            if let Some(k) = line_end(&self.text[held..held + n]) {
                return Ok(Some(self.taken(held + k)));
            }
        }
        self.ended = true;
        said.println(format_args!("replay: line {number} is longer than 65535 bytes"))?;
        Ok(None)
    }
}

fn line_end(bytes: &[u8]) -> Option<usize>
    ensures { IfSome result (λ n. n < length bytes.now) }
{
    bytes.iter().position(|b| *b == b'\n')
}
