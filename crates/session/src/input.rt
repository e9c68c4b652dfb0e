// What is read, cut into lines.
ghost use Rattle.std.specs.Prelude.{◌≡◌, ◌≤◌, length};
ghost use Rattle.words.specs.Le.{put};
ghost use Rattle.text.specs.Parts.{after};
ghost use Rattle.session.specs.Input.{between, held, has_line, past_line, past_first, ReadBehind, Refilled};

use crate::console::{Input, Output};
use crate::lent::Lent;
use crate::state::Session;
use crate::{answer, reply};
use text::parts::before;

// The bytes from..to of the buffer are read and not answered. `cut` says that the line that they belong to began before them.
#[derive(Clone, Copy, Debug, PartialEq, Eq)]
pub struct Reader {
    pub from: usize,
    pub to: usize,
    pub cut: bool,
}

// After a turn that is not the last.
#[derive(Clone, Copy, Debug, PartialEq, Eq)]
pub struct Turn {
    pub reader: Reader,
    pub session: Session,
}

// After a read. `more` says whether anything came: where nothing did, what was held still is.
#[derive(Clone, Copy, Debug, PartialEq, Eq)]
pub struct Filled {
    pub reader: Reader,
    pub more: bool,
}

impl Reader {
    // Up to `to` from the buffer's start.
    fn up_to(to: usize, cut: bool) -> Self
        ensures { result ≡ record { from = 0; to = to; cut = cut } }
    {
        Self { from: 0, to, cut }
    }

    // Past a line of n bytes and its end.
    #[tactic(auto, unfolding(crate::specs::Input::past_line))]
    fn past(self, n: usize) -> Self
        ensures { result ≡ past_line self n }
    {
        if n < self.to.saturating_sub(self.from) {
            Self {
                from: self.from + n + 1,
                cut: false,
                ..self
            }
        } else {
            Self::up_to(0, false)
        }
    }
}

fn unread(bytes: &[u8], r: Reader) -> &[u8]
    ensures { result.now ≡ held bytes.now r }
{
    bytes.get(r.from..r.to).unwrap_or_default()
}

// Whether a line's end is held.
#[tactic(auto, unfolding(crate::specs::Input::has_line))]
fn has_line(bytes: &[u8], r: Reader) -> bool
    ensures { result ≡ has_line (held bytes.now r) }
{
    let held = unread(bytes, r);
    let line = before(held, b'\n');
    line.len() < held.len()
}

// Answers the first line.
fn next_line(
    bytes: &[u8],
    r: Reader,
    s: Session,
    lent: &mut Lent,
    output: &mut Output,
    text: &mut [u8],
) -> Turn
    ensures { (result.reader ≡ past_first bytes.now r) × (held bytes.now result.reader ≡ after 10 (held bytes.now r)) }
{
    let held = unread(bytes, r);
    let line = before(held, b'\n');
    let session = answer::line(line, r.cut, s, lent, output, text);
    Turn {
        reader: r.past(line.len()),
        session,
    }
}

// Answers the last line, which may have no end, and writes the answers out.
fn last_line(
    bytes: &[u8],
    r: Reader,
    s: Session,
    lent: &mut Lent,
    output: &mut Output,
    text: &mut [u8],
) {
    let s = answer::line(unread(bytes, r), r.cut, s, lent, output, text);
    reply::flush(output, text, s.at);
}

// Moves the bytes from..to to the front, and answers how many they are.
fn to_front(bytes: &mut [u8], from: usize, to: usize) -> usize
    ensures { (result ≡ length (between bytes.old from to)) × (bytes.new ≡ put 0 (between bytes.old from to) bytes.old) }
{
    if to <= bytes.len() && from <= to {
        bytes.copy_within(from..to, 0);
        to - from
    } else {
        0
    }
}

// Reads behind what is held; a line that fills the buffer is dropped, and answered `error` at its end.
fn fill(input: &mut Input, r: Reader, bytes: &mut [u8]) -> Filled
    ensures { Refilled bytes.old r result bytes.new }
{
    let held = to_front(bytes, r.from, r.to);
    if held < bytes.len() {
        read_behind(input, held, r.cut, bytes)
    } else {
        read_behind(input, 0, true, bytes)
    }
}

fn read_behind(input: &mut Input, held: usize, cut: bool, bytes: &mut [u8]) -> Filled
    ensures { ReadBehind held cut bytes.old result bytes.new }
{
    if bytes.len() < held {
        return Filled {
            reader: Reader::up_to(0, cut),
            more: false,
        };
    }
    let n = input.read(&mut bytes[held..]);
    Filled {
        reader: Reader::up_to(held + n, cut),
        more: 0 < n,
    }
}

// Where no whole line is held: what was answered is written out, so that nobody waits for it, and more is read. At the end the last line is answered, and
// there is no turn after it.
fn refill(
    input: &mut Input,
    r: Reader,
    s: Session,
    lent: &mut Lent,
    bytes: &mut [u8],
    output: &mut Output,
    text: &mut [u8],
) -> Option<Turn> {
    let session = s.said(reply::flush(output, text, s.at));
    let Filled { reader, more } = fill(input, r, bytes);
    if more {
        Some(Turn { reader, session })
    } else {
        last_line(bytes, reader, session, lent, output, text);
        None
    }
}

// Answers one line, or reads.
fn step(
    input: &mut Input,
    r: Reader,
    s: Session,
    lent: &mut Lent,
    bytes: &mut [u8],
    output: &mut Output,
    text: &mut [u8],
) -> Option<Turn> {
    if has_line(bytes, r) {
        Some(next_line(bytes, r, s, lent, output, text))
    } else {
        refill(input, r, s, lent, bytes, output, text)
    }
}

// Answers line after line. Nothing says that a script ends, so the turns are counted, up to a number that no script reaches.
pub fn lines(
    input: &mut Input,
    lent: &mut Lent,
    bytes: &mut [u8],
    output: &mut Output,
    text: &mut [u8],
) {
    let mut session = Session::new();
    let mut reader = Reader::up_to(0, false);
    for _ in 0..u64::MAX {
        match step(input, reader, session, lent, bytes, output, text) {
            Some(turn) if !output.has_failed() => {
                session = turn.session;
                reader = turn.reader;
            }
            _ => return,
        }
    }
}
