// What works on whatever is open: questions, the list printed, and rows written as they are said.
ghost use Rattle.std.specs.Prelude.{◌≡◌, ◌+◌, ◌%◌, ◌^◌, ◌<◌, [], ◌∷◌};
ghost use Rattle.span.specs.Span.{slice_span_of};
ghost use Rattle.units.specs.Store.{is_state};
ghost use Rattle.tracker.specs.Rows.{is_history};
ghost use Rattle.session.specs.Say.{Says};
ghost use Rattle.session.specs.Lines.{len_lines, at_lines, sum_lines, unit_lines, units_lines, span_lines, span_count, row_of, row_lines, row_count, rows_said, rows_lines, rows_count, kind_name, list_lines, sum_from, rope_sum, history_sum, within_lines, row_fits, rows_fit, row_set, rows_set, look_store, rope_look, history_look};
ghost use Rattle.script.specs.Print.{head_line};

use crate::console::Output;
use crate::reply;
use script::call::Look;
use script::print;
use span::ids::Id;
use span::refusal::Refusal;
use span::span::FugueSpan;
use store::header;
use text::puts::{put, put_hex};

// Row i of the list: the header stands before row 0.
#[tactic(auto, unfolding(crate::specs::Lines::row_of))]
pub fn row_of(s: &[u8], i: usize) -> Option<FugueSpan>
    ensures { result ≡ row_of s.now i }
{
    if i < (s.len() / 72).saturating_sub(1) {
        Some(store::get_row(s, i + 1))
    } else {
        None
    }
}

// The rows that the header says, where it is one.
#[tactic(auto, unfolding(crate::specs::Lines::rows_said))]
fn rows_of(s: &[u8]) -> usize
    ensures { result ≡ rows_said s.now }
{
    if s.len() < 72 {
        0
    } else {
        header::count(s) as usize
    }
}

#[tactic(auto, unfolding(crate::specs::Lines::len_lines))]
fn len(a: Result<usize, Refusal>, output: &mut Output, text: &mut [u8], at: usize) -> usize
    ensures { Says at (len_lines a) text.old result text.new }
{
    match a {
        Ok(n) => reply::counted(output, text, at, b"len", n as u64),
        Err(refusal) => reply::refused(output, text, at, refusal.number()),
    }
}

#[tactic(auto, unfolding(crate::specs::Say::said_at, crate::specs::Say::said_text, crate::specs::Lines::at_lines))]
fn at_pos(
    a: Result<Option<(Id, u32)>, Refusal>,
    output: &mut Output,
    text: &mut [u8],
    at: usize,
) -> usize
    ensures { Says at (at_lines a) text.old result text.new }
{
    match a {
        Ok(Some((id, left))) => {
            let at = reply::make_room(output, text, at);
            print::at_line(text, at, id, left)
        }
        Ok(None) => {
            let at = reply::make_room(output, text, at);
            put(text, at, b"at nothing\n")
        }
        Err(refusal) => reply::refused(output, text, at, refusal.number()),
    }
}

// What is printed of a list.
#[derive(Clone, Copy, Debug, PartialEq, Eq)]
pub enum Kind {
    Units,
    Spans,
    Items,
}

impl Kind {
    // The word before their number.
    #[tactic(auto, unfolding(crate::specs::Lines::kind_name))]
    fn name(self) -> &'static [u8]
        ensures { result.now ≡ kind_name self }
    {
        match self {
            Kind::Units => b"units",
            Kind::Spans => b"spans",
            Kind::Items => b"list",
        }
    }
}

// One unit of a span: its line, or none where it is no item.
#[tactic(auto, unfolding(crate::specs::Say::said_at, crate::specs::Say::said_text, crate::specs::Lines::unit_lines, crate::specs::Lines::one_lines))]
fn unit(
    kind: Kind,
    x: FugueSpan,
    k: u32,
    next: u32,
    output: &mut Output,
    text: &mut [u8],
    at: usize,
) -> usize
    ensures { Says at (unit_lines kind (slice_span_of x k next)) text.old result text.new }
{
    let Ok(unit) = x.slice(k, next) else {
        return at;
    };
    match kind {
        Kind::Units => reply::unit(output, text, at, unit),
        Kind::Spans => at,
        Kind::Items => reply::item(output, text, at, unit.real_id(), unit.content),
    }
}

fn units(
    kind: Kind,
    x: FugueSpan,
    n: u32,
    output: &mut Output,
    text: &mut [u8],
    start: usize,
) -> usize
    ensures { Says start (units_lines kind x n) text.old result text.new }
{
    let mut at = start;
    for k in 0..n {
        at = unit(kind, x, k, k + 1, output, text, at);
    }
    at
}

// How many lines a row gives.
#[tactic(auto, unfolding(crate::specs::Lines::span_count))]
fn lines(kind: Kind, x: FugueSpan) -> u64
    ensures { result ≡ span_count kind x }
{
    match kind {
        Kind::Units => u64::from(x.rle_len()),
        Kind::Spans => 1,
        Kind::Items => u64::from(x.activated_len()),
    }
}

#[tactic(auto, unfolding(crate::specs::Lines::row_count))]
fn lines_at(kind: Kind, s: &[u8], i: usize) -> u64
    ensures { result ≡ row_count kind (row_of s.now i) }
{
    match row_of(s, i) {
        Some(x) => lines(kind, x),
        None => 0,
    }
}

fn all_lines(kind: Kind, s: &[u8], n: usize) -> u64
    ensures { result ≡ rows_count kind s.now n % 2 ^ 64 }
{
    let mut sum: u64 = 0;
    for i in 0..n {
        sum = sum.wrapping_add(lines_at(kind, s, i));
    }
    sum
}

#[tactic(auto, unfolding(crate::specs::Lines::span_lines))]
fn row_lines(kind: Kind, x: FugueSpan, output: &mut Output, text: &mut [u8], at: usize) -> usize
    ensures { Says at (span_lines kind x) text.old result text.new }
{
    match kind {
        Kind::Units => units(kind, x, x.rle_len(), output, text, at),
        Kind::Spans => reply::span(output, text, at, b"span", x),
        Kind::Items => units(kind, x, x.activated_len(), output, text, at),
    }
}

#[tactic(auto, unfolding(crate::specs::Say::said_at, crate::specs::Say::said_text, crate::specs::Lines::row_lines))]
fn row_at(kind: Kind, s: &[u8], i: usize, output: &mut Output, text: &mut [u8], at: usize) -> usize
    ensures { Says at (row_lines kind (row_of s.now i)) text.old result text.new }
{
    match row_of(s, i) {
        Some(x) => row_lines(kind, x, output, text, at),
        None => at,
    }
}

fn rows(kind: Kind, s: &[u8], n: usize, output: &mut Output, text: &mut [u8], start: usize) -> usize
    ensures { Says start (rows_lines kind s.now n) text.old result text.new }
{
    let mut at = start;
    for i in 0..n {
        at = row_at(kind, s, i, output, text, at);
    }
    at
}

// The list, a line for each unit, span or visible unit, where it is well formed.
fn list(fine: bool, kind: Kind, s: &[u8], output: &mut Output, text: &mut [u8], at: usize) -> usize
    ensures { Says at (list_lines fine kind s.now) text.old result text.new }
{
    if fine {
        let n = rows_of(s);
        let at = reply::counted(output, text, at, kind.name(), all_lines(kind, s, n));
        rows(kind, s, n, output, text, at)
    } else {
        reply::refused(output, text, at, Refusal::Store.number())
    }
}

// Writes a row as it is said.
#[tactic(auto, unfolding(crate::specs::Lines::row_fits))]
pub fn put_row(
    s: &mut [u8],
    i: u32,
    x: FugueSpan,
    output: &mut Output,
    text: &mut [u8],
    at: usize,
) -> usize
    ensures { (Says at (within_lines (row_fits i s.old)) text.old result text.new) × (s.new ≡ row_set i x s.old) }
{
    let row = (i as usize) + 1;
    if row < s.len() / 72 {
        store::put_row(s, row, x);
        reply::ok(output, text, at)
    } else {
        reply::error(output, text, at)
    }
}

// Sets the number of rows as it is said.
#[tactic(auto, unfolding(crate::specs::Lines::rows_fit))]
pub fn set_rows(s: &mut [u8], n: u32, output: &mut Output, text: &mut [u8], at: usize) -> usize
    ensures { (Says at (within_lines (rows_fit n s.old)) text.old result text.new) × (s.new ≡ rows_set n s.old) }
{
    if (n as usize) < s.len() / 72 {
        header::set_count(s, u64::from(n));
        reply::ok(output, text, at)
    } else {
        reply::error(output, text, at)
    }
}

// A checksum that goes on from another: a polynomial in 257 over the greatest prime below 2^32.
fn sum_from(s: &[u8], start: u64) -> u64
    ensures { result ≡ sum_from start s.now }
{
    let mut sum = start % 4294967291;
    for b in s {
        sum = (sum * 257 + u64::from(*b)) % 4294967291;
    }
    sum
}

fn put_sum(sum: u64, output: &mut Output, text: &mut [u8], at: usize) -> usize
    ensures { Says at (sum_lines sum) text.old result text.new }
{
    let at = reply::make_room(output, text, at);
    let at = put(text, at, b"sum ");
    let at = put_hex(text, at, sum);
    put(text, at, b"\n")
}

// Over all that is lent to a rope.
fn rope_sum(s: &[u8], out: &[u8]) -> u64
    ensures { result ≡ rope_sum s.now out.now }
{
    sum_from(out, sum_from(s, 1))
}

// Over all that is lent to a history.
fn history_sum(s: &[u8], t: &[u8], e: &[u8], out: &[u8]) -> u64
    ensures { result ≡ history_sum s.now t.now e.now out.now }
{
    let lists = sum_from(t, sum_from(s, 1));
    sum_from(out, sum_from(e, lists))
}

fn rope_list(kind: Kind, s: &[u8], output: &mut Output, text: &mut [u8], at: usize) -> usize
    ensures { Says at (list_lines (is_state s.now) kind s.now) text.old result text.new }
{
    list(rope::state::check(s), kind, s, output, text, at)
}

fn history_list(
    kind: Kind,
    s: &[u8],
    t: &[u8],
    e: &[u8],
    output: &mut Output,
    text: &mut [u8],
    at: usize,
) -> usize
    ensures { Says at (list_lines (is_history s.now t.now e.now) kind s.now) text.old result text.new }
{
    list(tracker::check::check(s, t, e), kind, s, output, text, at)
}

pub fn look_at_rope(
    l: Look,
    s: &mut [u8],
    out: &[u8],
    output: &mut Output,
    text: &mut [u8],
    at: usize,
) -> usize
    ensures { (Says at (rope_look l s.old out.now) text.old result text.new) × (s.new ≡ look_store l s.old) }
{
    match l {
        Look::At(pos) => at_pos(rope::query::active_real_span_at(s, pos), output, text, at),
        Look::Len => len(rope::query::visible_len(s), output, text, at),
        Look::Dump => rope_list(Kind::Units, s, output, text, at),
        Look::Spans => rope_list(Kind::Spans, s, output, text, at),
        Look::Visible => rope_list(Kind::Items, s, output, text, at),
        Look::Row(i, x) => put_row(s, i, x, output, text, at),
        Look::Rows(n) => set_rows(s, n, output, text, at),
        Look::Sum => put_sum(rope_sum(s, out), output, text, at),
    }
}

pub fn look_at_history(
    l: Look,
    s: &mut [u8],
    t: &[u8],
    e: &[u8],
    out: &[u8],
    output: &mut Output,
    text: &mut [u8],
    at: usize,
) -> usize
    ensures { (Says at (history_look l s.old t.now e.now out.now) text.old result text.new) × (s.new ≡ look_store l s.old) }
{
    match l {
        Look::At(pos) => at_pos(
            tracker::query::active_real_span_at(s, t, e, pos),
            output,
            text,
            at,
        ),
        Look::Len => len(tracker::query::visible_len(s, t, e), output, text, at),
        Look::Dump => history_list(Kind::Units, s, t, e, output, text, at),
        Look::Spans => history_list(Kind::Spans, s, t, e, output, text, at),
        Look::Visible => history_list(Kind::Items, s, t, e, output, text, at),
        Look::Row(i, x) => put_row(s, i, x, output, text, at),
        Look::Rows(n) => set_rows(s, n, output, text, at),
        Look::Sum => put_sum(history_sum(s, t, e, out), output, text, at),
    }
}
