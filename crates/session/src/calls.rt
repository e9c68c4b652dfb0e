// The calls of a rope, each with its answer.
ghost use Rattle.std.specs.Prelude.{◌≡◌};
ghost use Rattle.span.specs.Span.{new_span};
ghost use Rattle.span.specs.Units.{expand, join};
ghost use Rattle.units.specs.Store.{spans_of, state_code};
ghost use Rattle.units.specs.Change.{clear_units, pieces};
ghost use Rattle.rope.specs.Edits.{insert_number, insert_list};
ghost use Rattle.rope.specs.Updated.{update_number, update_list};
ghost use Rattle.rope.specs.Deletions.{delete_number, delete_list};
ghost use Rattle.session.specs.Say.{Says};
ghost use Rattle.session.specs.Lines.{piece_lines, pieces_lines};
ghost use Rattle.session.specs.Calls.{EditSaid, DeleteSaid};

use crate::console::Output;
use crate::{entries, reply};
use script::call::{Delete, Insert, RopeCall, Update};
use span::refusal::code_of;

fn insert(x: Insert, s: &mut [u8], output: &mut Output, text: &mut [u8], at: usize) -> usize
    ensures { EditSaid (insert_number s.old x.pos (new_span x.id x.lamport x.content)) (insert_list s.old x.pos (new_span x.id x.lamport x.content)) s.old s.new at text.old result text.new }
{
    let outcome = rope::edit::insert(s, x.pos, x.id, x.lamport, x.content);
    reply::done(output, text, at, code_of(outcome))
}

fn clear(s: &mut [u8], output: &mut Output, text: &mut [u8], at: usize) -> usize
    ensures { EditSaid (state_code s.old) (join (clear_units (expand (spans_of s.old)))) s.old s.new at text.old result text.new }
{
    let outcome = rope::edit::clear_diff_status(s);
    reply::done(output, text, at, code_of(outcome))
}

// piece LEN SPAN, for row i of those that a delete put out
#[tactic(auto, unfolding(crate::specs::Say::said_at, crate::specs::Say::said_text, crate::specs::Lines::piece_lines))]
fn piece(out: &[u8], i: usize, output: &mut Output, text: &mut [u8], at: usize) -> usize
    ensures { Says at (piece_lines out.now i) text.old result text.new }
{
    if i < out.len() / 72 {
        reply::span(output, text, at, b"piece", store::get_row(out, i))
    } else {
        at
    }
}

// The n pieces that a delete put out.
fn pieces(out: &[u8], n: usize, output: &mut Output, text: &mut [u8], start: usize) -> usize
    ensures { Says start (pieces_lines out.now n) text.old result text.new }
{
    let mut at = reply::counted(output, text, start, b"pieces", n as u64);
    for i in 0..n {
        at = piece(out, i, output, text, at);
    }
    at
}

fn delete(
    x: Delete,
    s: &mut [u8],
    out: &mut [u8],
    output: &mut Output,
    text: &mut [u8],
    at: usize,
) -> usize
    ensures { DeleteSaid (delete_number s.old out.old x.pos x.len x.start x.reversed) (delete_list s.old x.pos x.len x.start) (pieces (spans_of s.old) x.pos x.len x.reversed) s.old out.old s.new out.new at text.old result text.new }
{
    match rope::delete::delete(s, out, x.pos, x.len, x.start, x.reversed) {
        Ok(n) => pieces(out, n, output, text, at),
        Err(refusal) => reply::refused(output, text, at, refusal.number()),
    }
}

fn update(x: Update, s: &mut [u8], output: &mut Output, text: &mut [u8], at: usize) -> usize
    ensures { EditSaid (update_number s.old x.from.peer x.from.counter x.to.counter x.future x.change x.on_diff) (update_list s.old x.from.peer x.from.counter x.to.counter x.future x.change x.on_diff) s.old s.new at text.old result text.new }
{
    let outcome = rope::update::update(
        s,
        x.from.peer,
        x.from.counter,
        x.to.counter,
        x.future,
        x.change,
        x.on_diff,
    );
    reply::done(output, text, at, code_of(outcome))
}

pub fn call(
    c: RopeCall,
    s: &mut [u8],
    out: &mut [u8],
    output: &mut Output,
    text: &mut [u8],
    at: usize,
) -> usize {
    match c {
        RopeCall::Insert(x) => insert(x, s, output, text, at),
        RopeCall::Delete(x) => delete(x, s, out, output, text, at),
        RopeCall::Update(x) => update(x, s, output, text, at),
        RopeCall::Clear => clear(s, output, text, at),
        RopeCall::Diff => entries::diff(s, out.len() / 72, output, text, at),
    }
}
