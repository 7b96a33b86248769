// Standard output, written in blocks.
ghost use Rattle.std.specs.Prelude.{◌≡◌, ◌≤◌, length};

use crate::hex;
use std::io;
use std::io::{Stdout, Write};

const BLOCK: usize = 65_536;

// The first `filled` bytes of the block are still to be written. The block is no `BufWriter`'s: those lie on the heap, and
// write once more, when they are dropped, what could not be written.
#[derive(Drop)]
pub(crate) struct Sink {
    stdout: Stdout,
    block: [u8; BLOCK],
    filled: usize,
    ghost within: { filled ≤ length block },
}

impl Sink {
    pub(crate) fn new(stdout: Stdout) -> Self {
        Sink {
            stdout,
            block: [0; BLOCK],
            filled: 0,
        }
    }

    // Writes what the block holds. What cannot be written is not tried again.
    fn empty(&mut self) -> io::Result<()>
        ensures { self.new.filled ≡ 0 }
    {
        let n = self.filled;
        self.filled = 0;
        self.stdout.write_all(&self.block[..n])
    }

    // Bytes in hexadecimal, or a dash where there are none.
    pub(crate) fn hex(&mut self, bytes: &[u8]) -> io::Result<()> {
        if bytes.is_empty() {
            return self.write_all(b"-");
        }
        for few in bytes.chunks(32) {
            self.write_all(hex::digits(few, &mut [0; 64]))?;
        }
        Ok(())
    }
}

impl Write for Sink {
    // A block that is full is written first.
    fn write(&mut self, bytes: &[u8]) -> io::Result<usize> {
        if self.filled >= BLOCK {
            self.empty()?;
        }
        let at = self.filled;
        let n = bytes.len().min(BLOCK - at);
        self.block[at..at + n].copy_from_slice(&bytes[..n]);
        self.filled = at + n;
        Ok(n)
    }

    fn flush(&mut self) -> io::Result<()> {
        self.empty()
    }
}
