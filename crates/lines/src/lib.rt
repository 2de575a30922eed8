#![tactic(auto)]
// Text on standard output, through a buffer.
ghost use Rattle.std.specs.Prelude.{ℕ, ◌+◌, ◌≤◌, ◌≡◌, length};

use std::fmt;
use std::fmt::Write;
use std::marker::Model;

// What stands in memory of a line, a file or a lent buffer.
pub const BUFFER: usize = 65536;

pub type Buffer = [u8; BUFFER];

const DIGITS: &[u8; 16] = b"0123456789abcdef";

// Text on its way to standard output: the first `used` bytes of the buffer wait to be written. A contract sees how many wait.
#[derive(Drop)]
pub struct Line {
    bytes: Buffer,
    used: usize,
}

impl Model for Line {
    ghost Value = { ℕ };

    ghost view = { λ line. line.used };

    ghost invariant = { λ line. line.used ≤ 65536 };
}

// Where a method ends behind a call, a `prove!` brings in what a line keeps, which its clause says to callers.
impl Line {
    // A buffer in which nothing waits.
    pub fn new() -> Line
        ensures { result ≡ 0 }
    {
        Line {
            bytes: io::large_buffer(),
            used: 0,
        }
    }

    // Writes the bytes that wait. None waits afterwards.
    pub fn flush(&mut self)
        ensures { self.new ≡ 0 }
    {
        io::write_all(1, &self.bytes[..self.used]);
        self.used = 0;
    }

    // What `write!` calls. A line takes all that comes, so there is no error to hand on.
    // Open: the bytes of the buffer and how many wait: what is printed is compared, and what a write does is outside the program.
    pub fn write_fmt<D: fmt::Display + Drop>(&mut self, value: D)
        ensures { self.new ≤ 65536 }
    {
        let _ = self.write(value);
        prove!(self.used <= BUFFER);
    }

    // A blank and some bytes in hex, `-` for none.
    // Open: the bytes of the buffer and how many wait: what is printed is compared, and what a write does is outside the program.
    pub fn hex(&mut self, bytes: &[u8])
        ensures { self.new ≤ 65536 }
    {
        self.blank(bytes.len());
        self.digits(bytes);
        prove!(self.used <= BUFFER);
    }

    // A blank and some numbers of two bytes in hex, low byte first, `-` for none.
    // Open: the bytes of the buffer and how many wait: what is printed is compared, and what a write does is outside the program.
    pub fn hex_words(&mut self, words: &[u16])
        ensures { self.new ≤ 65536 }
    {
        self.blank(words.len());
        for word in words {
            self.digits(&word.to_le_bytes());
        }
        prove!(self.used <= BUFFER);
    }

    // The n clocks of a play in order, a blank and i digits each. There is room for all before the first is written.
    // Open: the bytes of the buffer and how many wait: what is printed is compared, and what a write does is outside the program.
    pub fn clocks(&mut self, play: &[u8], i: usize, n: usize)
        requires { (i ≤ 64) × (n ≤ 256) × (16384 ≤ length play.now) }
        ensures { self.new ≤ 65536 }
    {
        self.make_room(n * (i + 1));
        let end = self.used + n * (i + 1);
        let clocks = &mut self.bytes[self.used..end];
        for t in 0..n {
            put_clock(
                &mut clocks[t * (i + 1)..(t + 1) * (i + 1)],
                &play[t * i..(t + 1) * i],
            );
        }
        self.used = end;
    }

    // A blank, and `-` where n numbers are none.
    fn blank(&mut self, n: usize) {
        self.push(b" ");
        if n == 0 {
            self.push(b"-");
        }
    }

    // Two digits for each of some bytes.
    fn digits(&mut self, bytes: &[u8]) {
        for byte in bytes {
            self.push(&[
                DIGITS[usize::from(byte / 16)],
                DIGITS[usize::from(byte % 16)],
            ]);
        }
    }

    // Puts some bytes behind those that wait.
    fn push(&mut self, bytes: &[u8])
        requires { length bytes.now ≤ 65536 }
    {
        self.make_room(bytes.len());
        let end = self.used + bytes.len();
        self.bytes[self.used..end].copy_from_slice(bytes);
        self.used = end;
    }

    // Room for n bytes more: those that wait are written where there is less.
    fn make_room(&mut self, n: usize)
        requires { n ≤ 65536 }
        ensures { self.new + n ≤ 65536 }
    {
        if n > BUFFER - self.used {
            self.flush();
        }
    }
}

impl fmt::Write for Line {
    // What is longer than the buffer is written at once.
    fn write_str(&mut self, text: &str) -> fmt::Result {
        let bytes = text.as_bytes();
        if bytes.len() > BUFFER {
            self.flush();
            io::write_all(1, bytes);
        } else {
            self.push(bytes);
        }
        Ok(())
    }
}

// A blank and a digit for each value of a clock.
fn put_clock(clock: &mut [u8], values: &[u8])
    requires { length clock.old ≡ 1 + length values.now }
{
    clock[0] = b' ';
    for x in 0..values.len() {
        clock[1 + x] = b'0' + values[x] % 2;
    }
}
