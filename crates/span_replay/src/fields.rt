// The values that numbers of a line stand for. A field takes the low bits of its number; those of a signed field are its two's complement.
ghost use Rattle.std.specs.Prelude.{◌<◌};

use span::chunk::{AnchorType, RichtextChunk};
use span::ids::Id;
use span::span::FugueSpan;
use span::status::Status;

// Number i, or 0 past the end.
pub fn u64_at(x: &[u64], i: usize) -> u64 {
    x.get(i).copied().unwrap_or(0)
}

pub fn u32_at(x: &[u64], i: usize) -> u32 {
    (u64_at(x, i) % 4294967296) as u32
}

pub fn i32_at(x: &[u64], i: usize) -> i32 {
    u32_at(x, i).cast_signed()
}

fn i16_at(x: &[u64], i: usize) -> i16 {
    ((u64_at(x, i) % 65536) as u16).cast_signed()
}

fn flag_at(x: &[u64], i: usize) -> bool {
    u64_at(x, i) != 0
}

pub fn anchor_type_at(x: &[u64], i: usize) -> AnchorType {
    if flag_at(x, i) {
        AnchorType::End
    } else {
        AnchorType::Start
    }
}

// start end
pub fn chunk_at(x: &[u64], i: usize) -> RichtextChunk
    requires { i < 64 }
{
    RichtextChunk {
        start: u32_at(x, i),
        end: u32_at(x, i + 1),
    }
}

// peer counter
pub fn id_at(x: &[u64], i: usize) -> Id
    requires { i < 64 }
{
    Id {
        peer: u64_at(x, i),
        counter: i32_at(x, i + 1),
    }
}

// flag peer counter
fn optional_id_at(x: &[u64], i: usize) -> Option<Id>
    requires { i < 63 }
{
    flag_at(x, i).then_some(id_at(x, i + 1))
}

// future delete_times
pub fn status_at(x: &[u64], i: usize) -> Status
    requires { i < 64 }
{
    Status {
        future: flag_at(x, i),
        delete_times: i16_at(x, i + 1),
    }
}

// flag future delete_times
fn optional_status_at(x: &[u64], i: usize) -> Option<Status>
    requires { i < 63 }
{
    flag_at(x, i).then_some(status_at(x, i + 1))
}

// peer counter lamport, real id, status, diff_status, origin left, origin right, chunk
pub fn span_at(x: &[u64], i: usize) -> FugueSpan
    requires { i < 46 }
{
    FugueSpan {
        id: id_at(x, i),
        lamport: u32_at(x, i + 2),
        real_id: optional_id_at(x, i + 3),
        status: status_at(x, i + 6),
        diff_status: optional_status_at(x, i + 8),
        origin_left: optional_id_at(x, i + 11),
        origin_right: optional_id_at(x, i + 14),
        content: chunk_at(x, i + 17),
    }
}
