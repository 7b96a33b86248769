// Reads host bytes from standard input to its end, on a screen of 8 by 2, and prints where they leave the
// terminal: the cursor, the two lines, and how many reply bytes they drew. (Document 01, worked forms: `show`.)
#![tactic(auto)]

use rules::Session;
use std::io;
use std::io::{Read, Stdin, Stdout, Write};

const WIDTH: usize = 8;

const HEIGHT: usize = 2;

const CELLS: usize = WIDTH * HEIGHT;

// Document 01's edition, RFC 732.
const SEPTEMBER: usize = 732;

// The session and its lent buffers, and how many reply bytes all calls have written.
#[derive(Drop)]
struct Terminal {
    session: Session,
    chars: [u8; CELLS],
    attrs: [u8; CELLS],
    marks: [u8; CELLS],
    reply: [u8; 4096],
    replies: u64,
}

impl Terminal {
    fn open() -> Self {
        let mut chars = [0; CELLS];
        let mut attrs = [0; CELLS];
        let mut marks = [0; CELLS];
        let opened = admit::open::open(
            WIDTH, HEIGHT, SEPTEMBER, &mut chars, &mut attrs, &mut marks,
        );
        Terminal {
            session: opened.session,
            chars,
            attrs,
            marks,
            reply: [0; 4096],
            replies: 0,
        }
    }

    // Hands on the bytes, and tells how many are taken: all that the reply buffer has room for.
    fn take(&mut self, input: &[u8]) -> usize {
        let answer = det::operation::host_bytes(
            self.session,
            input,
            &mut self.chars,
            &mut self.attrs,
            &mut self.marks,
            &mut self.reply,
        );
        self.session = answer.session;
        self.replies = self.replies.saturating_add(answer.written as u64);
        answer.taken
    }

    // Hands on all of the input: what a call does not take, the next does. Where a call takes nothing, the next would not either.
    fn take_all(&mut self, input: &[u8]) {
        let mut rest = input;
        while !rest.is_empty() {
            let taken = self.take(rest);
            if taken == 0 {
                return;
            }
            rest = &rest[taken.min(rest.len())..];
        }
    }

    fn print(&self, mut stdout: Stdout) -> io::Result<()> {
        let cursor = self.session.frame.cursor;
        writeln!(stdout, "cursor {} {}", cursor.x.0, cursor.y.0)?;
        for line in self.chars.chunks(WIDTH) {
            stdout.write_all(b"|")?;
            stdout.write_all(line)?;
            stdout.write_all(b"|\n")?;
        }
        writeln!(stdout, "replies {}", self.replies)
    }
}

// Reads to the end. Nothing says that the input ends, so the turns are as many as no run uses up.
fn read_all(mut stdin: Stdin, terminal: &mut Terminal) -> io::Result<()> {
    let mut input = [0; 4096];
    for _ in 0..u64::MAX {
        let n = stdin.read(&mut input)?;
        if n == 0 {
            break;
        }
        terminal.take_all(&input[..n]);
    }
    Ok(())
}

fn main(rt: HostRuntime) {
    let mut terminal = Terminal::open();
    if read_all(rt.stdin(), &mut terminal).is_err() {
        let _ = eprintln!(rt; "show: standard input cannot be read");
    } else if terminal.print(rt.stdout()).is_err() {
        let _ = eprintln!(rt; "show: standard output cannot be written");
    }
}
