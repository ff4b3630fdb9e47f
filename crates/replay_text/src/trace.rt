// The output through a buffer, and what is written to it.
ghost use Rattle.std.specs.Prelude.{◌≡◌, ◌+◌, ◌≤◌, ◌++◌, length, take, None, OnErr, OnOk, IsOk};
ghost use Rattle.std.specs.Io.{WritesAtMost};
ghost use Rattle.std.specs.Io.KnownBytes.{Appends, Keeps, WriteAppends};

use crate::buffered::Buffered;
use crate::rooms::{is_untouched, split};
use std::io::Write;
use std::{fmt, io};

const SIZE: usize = 65536;

// What is written goes to `to` when the buffer is full, and at a flush; the buffer holds `at` bytes.
#[derive(Drop)]
pub struct Trace<'a, P: Print> {
    to: &'a P,
    out: [u8; SIZE],
    at: usize,
    ghost within: { at ≤ 65536 },
}

impl<'a, P: Print> Trace<'a, P> {
    pub fn new(to: &'a P) -> Self {
        Trace {
            to,
            out: [0; SIZE],
            at: 0,
        }
    }

    // Takes bytes that there is room for.
    fn put(&mut self, bytes: &[u8])
        requires { self.old.at + length bytes.now ≤ 65536 }
        ensures at { self.new.at ≡ self.old.at + length bytes.now }
        ensures held { take self.new.at self.new.out ≡ take self.old.at self.old.out ++ bytes.now }
    {
        let end = self.at + bytes.len();
        self.out[self.at..end].copy_from_slice(bytes);
        self.at = end;
    }

    // Takes bytes that there is no room for: a full buffer is written out before more is put.
    #[cold]
    #[inline(never)]
    fn put_in_parts(&mut self, bytes: &[u8]) -> io::Result<()> {
        let (front, behind) = split(bytes, SIZE - self.at);
        self.put(front);
        for part in behind.chunks(SIZE) {
            self.flush()?;
            self.put(part);
        }
        Ok(())
    }
}

impl<P: Print> Write for Trace<'_, P> {
    fn write(&mut self, buf: &[u8]) -> io::Result<usize>
        ensures bound { WritesAtMost result buf.now }
        ensures bytes { WriteAppends None None result buf.now }
        ensures kept { OnErr result (self.new ≡ self.old) }
    {
        if self.at == SIZE {
            self.flush()?;
        }
        let n = buf.len().min(SIZE - self.at);
        self.put(&buf[..n]);
        Ok(n)
    }

    fn flush(&mut self) -> io::Result<()>
        ensures bytes { Keeps None None }
        ensures emptied { OnOk result (self.new.at ≡ 0) }
        ensures kept { OnErr result (self.new ≡ self.old) }
    {
        self.to.write_all(&self.out[..self.at])?;
        self.at = 0;
        Ok(())
    }

    fn write_all(&mut self, buf: &[u8]) -> io::Result<()>
        ensures bytes { OnOk result (Appends None None buf.now) }
        ensures fits { self.old.at + length buf.now ≤ 65536 → IsOk result }
        ensures held { self.old.at + length buf.now ≤ 65536 → take self.new.at self.new.out ≡ take self.old.at self.old.out ++ buf.now }
    {
        if buf.len() <= SIZE - self.at {
            self.put(buf);
            return Ok(());
        }
        self.put_in_parts(buf)
    }
}

// Bytes as hexadecimal digits.
#[derive(Clone, Copy)]
pub struct Hex<'a>(pub &'a [u8]);

impl fmt::Display for Hex<'_> {
    fn fmt<W: fmt::Write>(&self, f: &mut fmt::Formatter<W>) -> fmt::Result {
        let mut digits = Buffered::new(f);
        for b in self.0 {
            digits.hex(*b)?;
        }
        digits.flush()
    }
}

// A byte string: its digits, `-` where it is empty.
#[derive(Clone, Copy)]
pub struct ByteString<'a>(pub &'a [u8]);

impl fmt::Display for ByteString<'_> {
    fn fmt<W: fmt::Write>(&self, f: &mut fmt::Formatter<W>) -> fmt::Result {
        if self.0.is_empty() {
            return write!(f, "-");
        }
        fmt::Display::fmt(&Hex(self.0), f)
    }
}

// Numbers parted by commas, or entries of four numbers each, within an entry parted by colons; `-` where there are none.
#[derive(Clone, Copy)]
pub struct Numbers<'a> {
    pub list: &'a [u16],
    pub in_fours: bool,
}

impl fmt::Display for Numbers<'_> {
    fn fmt<W: fmt::Write>(&self, f: &mut fmt::Formatter<W>) -> fmt::Result {
        let Some((first, others)) = self.list.split_first() else {
            return write!(f, "-");
        };
        let mut text = Buffered::new(f);
        text.decimal(*first)?;
        for (i, n) in others.iter().enumerate() {
            let parting = if self.in_fours && i % 4 != 3 {
                b':'
            } else {
                b','
            };
            text.byte(parting)?;
            text.decimal(*n)?;
        }
        text.flush()
    }
}

// The first `used` bytes of a room, and whether the others are as they were.
#[derive(Clone, Copy)]
pub struct Room<'a> {
    pub bytes: &'a [u8],
    pub used: usize,
}

impl fmt::Display for Room<'_> {
    fn fmt<W: fmt::Write>(&self, f: &mut fmt::Formatter<W>) -> fmt::Result {
        let (used, beyond) = split(self.bytes, self.used);
        let kept = is_untouched(beyond, 0xee) as u8;
        write!(f, "{} beyond={kept}", ByteString(used))
    }
}
