// A formatter through a buffer: short texts reach it together.
ghost use Rattle.std.specs.Prelude.{◌≡◌, ◌+◌, ◌-◌, ◌/◌, ◌%◌, ◌<◌, ◌≤◌, slice_index, take, OnOk};
ghost use Rattle.replay_text.specs.Text.{hex_digit};

use std::{fmt, str};

const SIZE: usize = 128;

// What is written goes to `to` when the buffer is full, and at a flush; the buffer holds `len` bytes.
#[derive(Drop)]
pub(crate) struct Buffered<'a, W> {
    to: &'a mut fmt::Formatter<W>,
    text: [u8; SIZE],
    len: usize,
    ghost within: { len ≤ 128 },
}

impl<'a, W: fmt::Write> Buffered<'a, W> {
    pub(crate) fn new(to: &'a mut fmt::Formatter<W>) -> Self {
        Buffered {
            to,
            text: [0; SIZE],
            len: 0,
        }
    }

    // Bytes that are not text are an error.
    pub(crate) fn flush(&mut self) -> fmt::Result
        ensures { OnOk result (self.new.len ≡ 0) }
    {
        let Ok(text) = str::from_utf8(&self.text[..self.len]) else {
            return Err(fmt::Error);
        };
        self.to.write_str(text)?;
        self.len = 0;
        Ok(())
    }

    // Behind what is held, or alone where that was just written out.
    pub(crate) fn byte(&mut self, b: u8) -> fmt::Result
        ensures some { OnOk result (0 < self.new.len) }
        ensures last { OnOk result (slice_index self.new.text (self.new.len - 1) ≡ b) }
        ensures next { OnOk result (1 < self.new.len → self.new.len ≡ self.old.len + 1) }
        ensures kept { OnOk result (1 < self.new.len → take self.old.len self.new.text ≡ take self.old.len self.old.text) }
    {
        if self.len == SIZE {
            self.flush()?;
        }
        self.text[self.len] = b;
        self.len += 1;
        Ok(())
    }

    // Two hexadecimal digits.
    pub(crate) fn hex(&mut self, b: u8) -> fmt::Result
        ensures high { OnOk result (1 < self.new.len → hex_digit (slice_index self.new.text (self.new.len - 2)) ≡ b / 16) }
        ensures low { OnOk result (hex_digit (slice_index self.new.text (self.new.len - 1)) ≡ b % 16) }
    {
        self.byte(hex_digit(b / 16))?;
        self.byte(hex_digit(b % 16))
    }

    // A number in decimal digits.
    pub(crate) fn decimal(&mut self, n: u16) -> fmt::Result
        ensures { OnOk result (slice_index self.new.text (self.new.len - 1) ≡ 0x30 + n % 10) }
    {
        for unit in [10000, 1000, 100, 10] {
            if unit <= n {
                self.byte(b'0' + (n / unit % 10) as u8)?;
            }
        }
        self.byte(b'0' + (n % 10) as u8)
    }
}

fn hex_digit(n: u8) -> u8
    requires { n < 16 }
    ensures { hex_digit result ≡ n }
{
    if n < 10 { b'0' + n } else { b'a' - 10 + n }
}
