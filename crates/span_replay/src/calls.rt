// Each call of the list, made with crate `span` and compared with the answer that ends its line.
// Number 0 of a line is the call's, then come the arguments and the answer.
// Every call of the list is one that the Rust answers and document 01 accepts: a refusal is a difference.
use crate::fields::{anchor_type_at, chunk_at, i32_at, id_at, span_at, status_at, u32_at, u64_at};
use span::chunk::{RichtextChunk, RichtextChunkValue};
use span::ids::IdSpan;
use span::span::FugueSpan;
use span::status::Status;

// How many numbers the line of a call has; 0 where there is no such call.
pub fn count(call: u64) -> usize {
    match call {
        4 | 28 => 3,
        3 | 5 | 6 | 12 => 4,
        1 | 2 => 5,
        7 | 8 | 13 => 6,
        9 | 10 | 11 => 7,
        16 | 21 | 22 | 23 | 25 | 26 => 21,
        24 | 27 => 22,
        15 => 23,
        14 => 25,
        18 => 40,
        17 => 41,
        19 | 20 => 58,
        _ => 0,
    }
}

// Whether the call on the line's arguments gives the line's answer.
pub fn agrees(call: u64, x: &[u64]) -> bool {
    if call < 14 {
        chunk_agrees(call, x)
    } else {
        span_agrees(call, x)
    }
}

fn chunk_agrees(call: u64, x: &[u64]) -> bool {
    match call {
        1 => new_text(x),
        2 => new_style_anchor(x),
        3 => new_unknown(x),
        4 => RichtextChunk::new_move() == chunk_at(x, 1),
        5 => kind(x),
        6 => len(x),
        7 => value(x),
        8 => chunk_can_merge(x),
        9 => chunk_merge_right(x),
        10 => chunk_merge_left(x),
        11 => chunk_slice(x),
        12 => status_is_activated(x),
        13 => status_same(x),
        _ => false,
    }
}

fn span_agrees(call: u64, x: &[u64]) -> bool {
    match call {
        14 => new(x),
        15 => id_span(x),
        16 => rle_len(x),
        17 => slice(x),
        18 => can_merge(x),
        19 => merge_right(x),
        20 => merge_left(x),
        21 => diff(x),
        22 => is_activated(x),
        23 => is_activated_in_diff(x),
        24 => real_id(x),
        25 => activated_len(x),
        26 => can_remove(x),
        27 => id_start(x),
        28 => Status::default() == status_at(x, 1),
        _ => false,
    }
}

fn new_text(x: &[u64]) -> bool {
    RichtextChunk::new_text(u32_at(x, 1), u32_at(x, 2)) == Ok(chunk_at(x, 3))
}

fn new_style_anchor(x: &[u64]) -> bool {
    RichtextChunk::new_style_anchor(u32_at(x, 1), anchor_type_at(x, 2)) == chunk_at(x, 3)
}

fn new_unknown(x: &[u64]) -> bool {
    RichtextChunk::new_unknown(u32_at(x, 1)) == Ok(chunk_at(x, 2))
}

// An enum is written as the number of its variant, counted from 0, and a flag as 0 or 1.
fn kind(x: &[u64]) -> bool {
    chunk_at(x, 1).kind() as u64 == u64_at(x, 3)
}

fn len(x: &[u64]) -> bool {
    u64::from(chunk_at(x, 1).len()) == u64_at(x, 3)
}

// A value is written as the number of its kind and two numbers: start and end, index and anchor type, length and 0, or zeros.
fn numbers_of(value: RichtextChunkValue) -> (u64, u32, u32) {
    match value {
        RichtextChunkValue::Text { start, end } => (0, start, end),
        RichtextChunkValue::StyleAnchor { id, anchor_type } => (1, id, anchor_type as u32),
        RichtextChunkValue::Unknown(n) => (2, n, 0),
        RichtextChunkValue::MoveAnchor => (3, 0, 0),
    }
}

fn value(x: &[u64]) -> bool {
    numbers_of(chunk_at(x, 1).value()) == (u64_at(x, 3), u32_at(x, 4), u32_at(x, 5))
}

fn chunk_can_merge(x: &[u64]) -> bool {
    u64::from(chunk_at(x, 1).can_merge(chunk_at(x, 3))) == u64_at(x, 5)
}

fn chunk_merge_right(x: &[u64]) -> bool {
    chunk_at(x, 1).merge_right(chunk_at(x, 3)) == Ok(chunk_at(x, 5))
}

fn chunk_merge_left(x: &[u64]) -> bool {
    chunk_at(x, 1).merge_left(chunk_at(x, 3)) == Ok(chunk_at(x, 5))
}

fn chunk_slice(x: &[u64]) -> bool {
    chunk_at(x, 1).slice(u32_at(x, 3), u32_at(x, 4)) == Ok(chunk_at(x, 5))
}

fn status_is_activated(x: &[u64]) -> bool {
    u64::from(status_at(x, 1).is_activated()) == u64_at(x, 3)
}

fn status_same(x: &[u64]) -> bool {
    u64::from(status_at(x, 1) == status_at(x, 3)) == u64_at(x, 5)
}

fn new(x: &[u64]) -> bool {
    FugueSpan::new(id_at(x, 1), u32_at(x, 3), chunk_at(x, 4)) == Ok(span_at(x, 6))
}

// peer start end
fn id_span(x: &[u64]) -> bool {
    let ids = IdSpan {
        peer: u64_at(x, 20),
        start: i32_at(x, 21),
        end: i32_at(x, 22),
    };
    span_at(x, 1).id_span() == Ok(ids)
}

fn rle_len(x: &[u64]) -> bool {
    u64::from(span_at(x, 1).rle_len()) == u64_at(x, 20)
}

fn slice(x: &[u64]) -> bool {
    span_at(x, 1).slice(u32_at(x, 20), u32_at(x, 21)) == Ok(span_at(x, 22))
}

fn can_merge(x: &[u64]) -> bool {
    u64::from(span_at(x, 1).can_merge(span_at(x, 20))) == u64_at(x, 39)
}

fn merge_right(x: &[u64]) -> bool {
    span_at(x, 1).merge_right(span_at(x, 20)) == Ok(span_at(x, 39))
}

fn merge_left(x: &[u64]) -> bool {
    span_at(x, 1).merge_left(span_at(x, 20)) == Ok(span_at(x, 39))
}

fn diff(x: &[u64]) -> bool {
    span_at(x, 1).diff() as u64 == u64_at(x, 20)
}

fn is_activated(x: &[u64]) -> bool {
    u64::from(span_at(x, 1).is_activated()) == u64_at(x, 20)
}

fn is_activated_in_diff(x: &[u64]) -> bool {
    u64::from(span_at(x, 1).is_activated_in_diff()) == u64_at(x, 20)
}

fn real_id(x: &[u64]) -> bool {
    span_at(x, 1).real_id() == id_at(x, 20)
}

fn activated_len(x: &[u64]) -> bool {
    u64::from(span_at(x, 1).activated_len()) == u64_at(x, 20)
}

fn can_remove(x: &[u64]) -> bool {
    u64::from(span_at(x, 1).can_remove()) == u64_at(x, 20)
}

fn id_start(x: &[u64]) -> bool {
    span_at(x, 1).id_start() == id_at(x, 20)
}
