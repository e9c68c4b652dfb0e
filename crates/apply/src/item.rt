// Items: a unit as the applier sees it, in rows of 24 lent bytes. 0 peer (u64), 8 counter by its bits, 12 and 16 the chunk's start and end (u32);
// the last four are written 0 and never read.
ghost use Rattle.std.specs.Prelude.{◌≡◌, ◌+◌, ◌-◌, ◌*◌, ◌≤◌, map, length, take, drop};
ghost use Rattle.words.specs.Le.{put};
ghost use Rattle.span.specs.Span.{span_code, len_span};
ghost use Rattle.span.specs.Units.{units_of};
ghost use Rattle.apply.specs.Apply.{item_of};
ghost use Rattle.apply.specs.Items.{item_in, item_bytes, items_bytes, items_in};

use span::chunk::RichtextChunk;
use span::ids::Id;
use span::span::FugueSpan;
use words::bytes_at;

// The width of a row.
pub const ITEM_BYTES: usize = 24;

// A unit as its real id (own id if none) and its chunk.
#[derive(Clone, Copy, Debug, PartialEq, Eq)]
pub struct Item {
    pub id: Id,
    pub content: RichtextChunk,
}

// The item in row i. Loops over the rows that fit call it.
pub fn get_item(rows: &[u8], i: usize) -> Item
    requires { i * 24 + 24 ≤ length rows.now }
    ensures { result ≡ item_in rows.now i }
{
    let at = i * ITEM_BYTES;
    Item {
        id: store::id_of(
            u64::from_le_bytes(bytes_at(rows, at)),
            u32::from_le_bytes(bytes_at(rows, at + 8)),
        ),
        content: RichtextChunk {
            start: u32::from_le_bytes(bytes_at(rows, at + 12)),
            end: u32::from_le_bytes(bytes_at(rows, at + 16)),
        },
    }
}

// An item in row i. The room is asked before the first write.
pub fn put_item(rows: &mut [u8], i: usize, item: Item)
    requires { i * 24 + 24 ≤ length rows.old }
    ensures { rows.new ≡ put (i * 24) (item_bytes item) rows.old }
{
    let at = i * ITEM_BYTES;
    words::put(rows, at, item.id.peer.to_le_bytes());
    words::put_all(
        rows,
        at + 8,
        [
            store::counter_bits(item.id).to_le_bytes(),
            item.content.start.to_le_bytes(),
            item.content.end.to_le_bytes(),
            [0; 4],
        ],
    );
}

// A unit as an item.
#[tactic(auto, unfolding(crate::specs::Apply::item_of))]
pub fn item_of(unit: FugueSpan) -> Item
    ensures { result ≡ item_of unit }
{
    Item {
        id: unit.real_id(),
        content: unit.content,
    }
}

// The units of a span, from a row of the output on. Callers have checked the span and the room.
#[tactic(auto, using(crate::proofs::Tabs::copy_room, span::proofs::Unique::in_range_lem))]
pub fn put_units(out: &mut [u8], row: usize, span: FugueSpan)
    requires { (span_code span ≡ 0) × ((row + len_span span) * 24 ≤ length out.old) }
    ensures { out.new ≡ put (row * 24) (items_bytes (map item_of (units_of span))) out.old }
{
    for i in 0..span.rle_len() {
        put_item(out, row + i as usize, item_of(span.piece(i, i + 1)));
    }
}

// The n items from a row of old on, from a row of the output on. Callers have counted both. The rows are not copied as bytes: what stands in
// the last four of an old row is not the new list's.
#[tactic(auto, using(crate::proofs::Tabs::copy_room, crate::proofs::Tabs::copy_end, crate::proofs::Tabs::items_part))]
pub fn copy_items(old: &[u8], from: usize, out: &mut [u8], row: usize, n: usize)
    requires { ((from + n) * 24 ≤ length old.now) × ((row + n) * 24 ≤ length out.old) }
    ensures { out.new ≡ put (row * 24) (items_bytes (take n (drop from (items_in old.now)))) out.old }
{
    for i in 0..n {
        put_item(out, row + i, get_item(old, from + i));
    }
}
