// The input as lines, and the counts of what they came to.
use crate::calls::{agrees, count};
use crate::line::numbers;
use std::io;
use std::io::{Read, Stdin};

// `used` bytes of the line that is being read have come.
#[derive(Clone, Copy, Default)]
pub struct Tally {
    used: usize,
    lines: u64,
    agree: u64,
    differ: u64,
    unread: u64,
}

// What a line came to that is not a comment.
#[derive(Clone, Copy)]
enum Outcome {
    Agrees,
    Differs,
    Unread,
}

fn replayed(line: &[u8]) -> Option<Outcome> {
    if line.is_empty() || line[0] == b'#' {
        return None;
    }
    let mut x = [0u64; 64];
    let n = numbers(line, &mut x);
    let call = x[0];
    if n == 0 || n != count(call) {
        Some(Outcome::Unread)
    } else if agrees(call, &x) {
        Some(Outcome::Agrees)
    } else {
        Some(Outcome::Differs)
    }
}

fn print_line(rt: &impl Print, what: &[u8], number: u64, line: &[u8]) -> io::Result<()> {
    rt.write_all(what)?;
    print!(rt; " line {number}: ")?;
    rt.write_all(line)?;
    rt.write_all(b"\n")
}

impl Tally {
    // A line has ended: a new one begins, and what this one came to is counted, and printed where it does not agree.
    fn end(&mut self, rt: &impl Print, line: &[u8]) -> io::Result<()> {
        self.used = 0;
        self.lines = self.lines.saturating_add(1);
        match replayed(line) {
            None => Ok(()),
            Some(Outcome::Agrees) => {
                self.agree = self.agree.saturating_add(1);
                Ok(())
            }
            Some(Outcome::Differs) => {
                self.differ = self.differ.saturating_add(1);
                print_line(rt, b"differs,", self.lines, line)
            }
            Some(Outcome::Unread) => {
                self.unread = self.unread.saturating_add(1);
                print_line(rt, b"not read,", self.lines, line)
            }
        }
    }

    // The same where the line had no room.
    fn too_long(&mut self, rt: &impl Print) -> io::Result<()> {
        self.used = 0;
        self.lines = self.lines.saturating_add(1);
        self.unread = self.unread.saturating_add(1);
        print_line(rt, b"not read,", self.lines, b"too long")
    }

    // A byte of the input. A line that fills the buffer has no room.
    fn byte(&mut self, rt: &impl Print, line: &mut [u8], b: u8) -> io::Result<()> {
        let used = self.used;
        let has_room = used < line.len();
        if b == b'\n' {
            if has_room {
                self.end(rt, &line[..used])
            } else {
                self.too_long(rt)
            }
        } else {
            if has_room {
                line[used] = b;
                self.used = used + 1;
            }
            Ok(())
        }
    }

    // Reads once, and says whether there was something. At the end of the input a last line without its end is a line too.
    pub fn block(
        &mut self,
        rt: &impl Print,
        input: &mut Stdin,
        line: &mut [u8],
    ) -> io::Result<bool> {
        let mut buf = [0u8; 65536];
        let n = input.read(&mut buf)?;
        if n == 0 {
            if 0 < self.used {
                self.byte(rt, line, b'\n')?;
            }
            return Ok(false);
        }
        for b in &buf[..n] {
            self.byte(rt, line, *b)?;
        }
        Ok(true)
    }

    pub fn print(self, rt: &impl Print) -> io::Result<()> {
        let Tally {
            agree,
            differ,
            unread,
            ..
        } = self;
        println!(rt; "{agree} calls agree, {differ} differ, {unread} lines not read")
    }
}
