// Standard input, read in blocks and handed out field by field: words, numbers and bytes. A line is of fields, parted by
// one space each, and ends with a newline or with the input. It has no greatest length: no line is ever held whole.
// A field that is missing is an empty one, and an empty field is bad.
ghost use Rattle.std.specs.Prelude.{◌≤◌, ◌<◌, IfOk, length};

use crate::hex;
use crate::stop::Stop;
use std::io::{Read, Stdin};

const BLOCK: usize = 65_536;

// Where the reader stands: in a line, after a line's newline, or after the last byte of the input.
#[derive(Clone, Copy, PartialEq, Eq)]
enum Stand {
    Line,
    LineEnd,
    InputEnd,
}

// The block's bytes from `at` up to `end` are still to be handed out. The block is no `BufReader`'s: those lie on the heap,
// and the programs assume nothing of the system but what reads and writes (docs/THEOREMS.md).
#[derive(Drop)]
pub(crate) struct Source {
    stdin: Stdin,
    block: [u8; BLOCK],
    at: usize,
    end: usize,
    stand: Stand,
    ghost within: { end ≤ length block },
}

impl Source {
    // Before the first line.
    pub(crate) fn new(stdin: Stdin) -> Self {
        Source {
            stdin,
            block: [0; BLOCK],
            at: 0,
            end: 0,
            stand: Stand::LineEnd,
        }
    }

    // The next byte of the field; none at its end, which is a space, the line's end or the input's.
    fn next_byte(&mut self) -> Result<Option<u8>, Stop> {
        if self.stand != Stand::Line {
            return Ok(None);
        }
        if self.at >= self.end {
            self.read_block()?;
        }
        if self.at >= self.end {
            self.stand = Stand::InputEnd;
            return Ok(None);
        }
        let byte = self.block[self.at];
        self.at += 1;
        match byte {
            b' ' => Ok(None),
            b'\n' => {
                self.stand = Stand::LineEnd;
                Ok(None)
            }
            _ => Ok(Some(byte)),
        }
    }

    // Reads a block: an empty one at the end of the input.
    fn read_block(&mut self) -> Result<(), Stop> {
        let Ok(end) = self.stdin.read(&mut self.block) else {
            return Err(Stop::Input);
        };
        self.at = 0;
        self.end = end;
        Ok(())
    }

    // Begins the next line, unless the input has ended, and puts its first word at the start of `letters`. None where no
    // line is left.
    pub(crate) fn word<'a>(&mut self, letters: &'a mut [u8; 8]) -> Result<Option<&'a [u8]>, Stop> {
        if self.stand == Stand::LineEnd {
            self.stand = Stand::Line;
        }
        for length in 0..8 {
            let Some(letter) = self.next_byte()? else {
                if length == 0 && self.stand == Stand::InputEnd {
                    return Ok(None);
                }
                return Ok(Some(&letters[..length]));
            };
            letters[length] = letter;
        }
        self.field_end()?;
        Ok(Some(letters))
    }

    // A number of at most `limit`. It may have any number of zeros in front: nothing says that they end, so its digits
    // count up to a number that no run reaches.
    pub(crate) fn number(&mut self, limit: usize) -> Result<usize, Stop>
        ensures { IfOk result (λ n. n ≤ limit) }
    {
        let mut value: Option<usize> = None;
        for _ in 0..u64::MAX {
            let Some(digit) = self.next_byte()? else {
                return value.filter(|n| *n <= limit).ok_or(Stop::BadLine);
            };
            if !digit.is_ascii_digit() {
                return Err(Stop::BadLine);
            }
            let tens = value.unwrap_or(0).saturating_mul(10);
            value = Some(tens.saturating_add(usize::from(digit - b'0')));
        }
        Err(Stop::BadLine)
    }

    // A number that fits a byte.
    pub(crate) fn byte(&mut self) -> Result<u8, Stop> {
        Ok(self.number(255)? as u8)
    }

    // 1 for on, 0 for off.
    pub(crate) fn flag(&mut self) -> Result<bool, Stop> {
        Ok(self.number(1)? == 1)
    }

    // Puts a field's bytes at the start of `out`, no more than it holds. A dash alone says that there are none.
    pub(crate) fn bytes<'a>(&mut self, out: &'a mut [u8]) -> Result<&'a [u8], Stop> {
        let mut next = self.next_byte()?;
        match next {
            None => return Err(Stop::BadLine),
            Some(b'-') => {
                self.field_end()?;
                return Ok(&[]);
            }
            Some(_) => {}
        }
        for length in 0..out.len() {
            if next.is_none() {
                return Ok(&out[..length]);
            }
            out[length] = 16 * digit(next)? + digit(self.next_byte()?)?;
            next = self.next_byte()?;
        }
        match next {
            None => Ok(out),
            Some(_) => Err(Stop::BadLine),
        }
    }

    // The field ends here.
    fn field_end(&mut self) -> Result<(), Stop> {
        match self.next_byte()? {
            None => Ok(()),
            Some(_) => Err(Stop::BadLine),
        }
    }

    // The line ends here: its last field was followed by no space.
    pub(crate) fn line_end(&self) -> Result<(), Stop> {
        if self.stand == Stand::Line {
            return Err(Stop::BadLine);
        }
        Ok(())
    }
}

// A digit's value, where there is one.
fn digit(byte: Option<u8>) -> Result<u8, Stop>
    ensures { IfOk result (λ n. n < 16) }
{
    byte.and_then(hex::value).ok_or(Stop::BadLine)
}
