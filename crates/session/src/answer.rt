// A line's answer: the call is found, what is lent is cut out, and who answers is asked.
ghost use Rattle.std.specs.Prelude.{◌≡◌};
ghost use Rattle.span.specs.Refusal.{code_of};
ghost use Rattle.session.specs.Lines.{ok_lines, error_lines};
ghost use Rattle.session.specs.Sessions.{bytes_for, Answered, OpenedIn};

use crate::console::Output;
use crate::lent::Lent;
use crate::state::{Open, Session};
use crate::{calls, history_calls, look, reply};
use script::call::{Call, HistoryCall, Look, RopeCall, parse};
use span::refusal::{Refusal, code_of};
use text::parts::{before, trim};

// The bytes of a header and so many rows.
fn bytes_of(rows: u32) -> usize
    ensures { result ≡ bytes_for rows }
{
    72 + 72 * (rows as usize)
}

// The end of an opening: where it was refused, what was open stays.
#[tactic(auto, using(span::proofs::RefusalLaws::number_not_zero), unfolding(crate::specs::Sessions::opened_by))]
fn opened(
    s: Session,
    what: Open,
    outcome: Result<(), Refusal>,
    output: &mut Output,
    text: &mut [u8],
) -> Session
    ensures { OpenedIn s what (code_of outcome) text.old result text.new }
{
    let s = s.said(reply::done(output, text, s.at, code_of(outcome)));
    match outcome {
        Ok(()) => s.opened(what),
        Err(_) => s,
    }
}

// An empty rope, or one with a placeholder of so many units.
fn open_rope(
    s: Session,
    units: Option<u32>,
    lent: &mut Lent,
    output: &mut Output,
    text: &mut [u8],
) -> Session {
    let store = &mut *lent.store;
    let n = reply::within(bytes_of(s.room), store);
    let outcome = match units {
        None => rope::state::open(&mut store[..n]),
        Some(units) => rope::state::open_with(&mut store[..n], units),
    };
    opened(s, Open::Rope, outcome, output, text)
}

// A history, with a placeholder where it has units.
fn start(units: u32, s: &mut [u8], t: &[u8], e: &mut [u8]) -> Result<(), Refusal> {
    if units == 0 {
        tracker::open::open(s, t, e)
    } else {
        tracker::open::open_with(s, t, e, units)
    }
}

fn open_history(
    s: Session,
    units: u32,
    lent: &mut Lent,
    output: &mut Output,
    text: &mut [u8],
) -> Session {
    let store = &mut *lent.store;
    let n = reply::within(bytes_of(s.room), store);
    let targets = &mut *lent.targets;
    let m = reply::within(16 * (s.targets as usize), targets);
    let edits = &mut *lent.edits;
    let outcome = start(units, &mut store[..n], &targets[..m], edits);
    opened(s, Open::History, outcome, output, text)
}

fn error(s: Session, output: &mut Output, text: &mut [u8]) -> Session
    ensures { Answered s error_lines text.old result text.new }
{
    s.said(reply::error(output, text, s.at))
}

fn ok(s: Session, output: &mut Output, text: &mut [u8]) -> Session
    ensures { Answered s ok_lines text.old result text.new }
{
    s.said(reply::ok(output, text, s.at))
}

fn on_rope(
    s: Session,
    c: RopeCall,
    lent: &mut Lent,
    output: &mut Output,
    text: &mut [u8],
) -> Session {
    let Some(Open::Rope) = s.open else {
        return error(s, output, text);
    };
    let store = &mut *lent.store;
    let n = reply::within(bytes_of(s.lent), store);
    let out = &mut *lent.out;
    let m = reply::within(72 * (s.out as usize), out);
    let at = calls::call(c, &mut store[..n], &mut out[..m], output, text, s.at);
    s.said(at)
}

// `said` is the line: a history's call finds its versions there.
fn on_history(
    s: Session,
    c: HistoryCall,
    said: &[u8],
    lent: &mut Lent,
    output: &mut Output,
    text: &mut [u8],
) -> Session {
    let Some(Open::History) = s.open else {
        return error(s, output, text);
    };
    let store = &mut *lent.store;
    let n = reply::within(bytes_of(s.lent), store);
    let targets = &mut *lent.targets;
    let m = reply::within(16 * (s.held as usize), targets);
    let edits = &mut *lent.edits;
    let out = &mut *lent.out;
    let k = reply::within(72 * (s.out as usize), out);
    let at = history_calls::call(
        c,
        said,
        &mut store[..n],
        &mut targets[..m],
        edits,
        &mut out[..k],
        output,
        text,
        s.at,
    );
    s.said(at)
}

fn at_rope(s: Session, l: Look, lent: &mut Lent, output: &mut Output, text: &mut [u8]) -> Session {
    let store = &mut *lent.store;
    let n = reply::within(bytes_of(s.lent), store);
    let out = &mut *lent.out;
    s.said(look::look_at_rope(l, &mut store[..n], out, output, text, s.at))
}

fn at_history(
    s: Session,
    l: Look,
    lent: &mut Lent,
    output: &mut Output,
    text: &mut [u8],
) -> Session {
    let store = &mut *lent.store;
    let n = reply::within(bytes_of(s.lent), store);
    let targets = &mut *lent.targets;
    let m = reply::within(16 * (s.held as usize), targets);
    let edits = &mut *lent.edits;
    let out = &mut *lent.out;
    let at = look::look_at_history(
        l,
        &mut store[..n],
        &targets[..m],
        edits,
        out,
        output,
        text,
        s.at,
    );
    s.said(at)
}

fn on_any(s: Session, l: Look, lent: &mut Lent, output: &mut Output, text: &mut [u8]) -> Session {
    match s.open {
        None => error(s, output, text),
        Some(Open::Rope) => at_rope(s, l, lent, output, text),
        Some(Open::History) => at_history(s, l, lent, output, text),
    }
}

fn on_call(
    s: Session,
    c: Call,
    said: &[u8],
    lent: &mut Lent,
    output: &mut Output,
    text: &mut [u8],
) -> Session {
    match c {
        Call::Room(n) => ok(s.with_room(n), output, text),
        Call::Targets(n) => ok(s.with_targets(n), output, text),
        Call::Out(n) => ok(s.with_out(n), output, text),
        Call::Empty => open_rope(s, None, lent, output, text),
        Call::Placeholder(n) => open_rope(s, Some(n), lent, output, text),
        Call::New(n) => open_history(s, n, lent, output, text),
        Call::Rope(r) => on_rope(s, r, lent, output, text),
        Call::History(h) => on_history(s, h, said, lent, output, text),
        Call::Look(l) => on_any(s, l, lent, output, text),
    }
}

// Answers a line: nothing, where it is empty but for a comment. `cut` says that it was too long to be held.
pub fn line(
    t: &[u8],
    cut: bool,
    s: Session,
    lent: &mut Lent,
    output: &mut Output,
    text: &mut [u8],
) -> Session {
    if cut || 4096 < t.len() {
        return error(s, output, text);
    }
    let said = trim(before(t, b'#'), b' ');
    if said.is_empty() {
        return s;
    }
    match parse(said) {
        Some(call) => on_call(s, call, said, lent, output, text),
        None => error(s, output, text),
    }
}
