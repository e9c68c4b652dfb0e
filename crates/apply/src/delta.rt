// The applier: first what refuses the call, the lowest number over the whole input, and then the new list.
ghost use Rattle.std.specs.Prelude.{◌≡◌, ◌+◌, ◌*◌, ◌≤◌, length, drop, nat_le};
ghost use Rattle.words.specs.Le.{put};
ghost use Rattle.span.specs.Answer.{lower};
ghost use Rattle.span.specs.Refusal.{code_of};
ghost use Rattle.apply.specs.Apply.{used, applied, apply_code};
ghost use Rattle.apply.specs.Items.{items_in, items_bytes};
ghost use Rattle.apply.specs.Given.{given_code, item_code, lowest, takes, gives, new_len, made, bare_span};
ghost use Rattle.apply.specs.Said.{said};
ghost use Rattle.apply.specs.Called.{Allowed, Called, delta_items, delta_code};

use crate::columns::Columns;
use crate::given::{check_given, gives, takes};
use crate::item::{ITEM_BYTES, Item, copy_items, get_item, put_units};
use span::chunk::RichtextChunk;
use span::ids::Id;
use span::refusal::Refusal;
use span::span::FugueSpan;
use span::status::Status;
use units::diff::Entry;

// ---- Refusals

// The one of two outcomes that counts: a refusal before none, and of two refusals the lower number.
#[tactic(auto, using(span::proofs::RefusalLaws::number_not_zero), unfolding(span::specs::Answer::lower))]
fn lower(x: Result<(), Refusal>, y: Result<(), Refusal>) -> Result<(), Refusal>
    ensures { code_of result ≡ lower (code_of x) (code_of y) }
{
    match (x, y) {
        (Err(a), Err(b)) if b.number() < a.number() => y,
        (Err(_), _) => x,
        (Ok(()), _) => y,
    }
}

// What refuses an old unit itself.
#[tactic(auto, unfolding(crate::specs::Given::item_code, crate::specs::Apply::item_formed, crate::specs::Apply::item_ids, crate::specs::Apply::item_single, span::specs::Chunk::chunk_code))]
fn check_item(item: Item) -> Result<(), Refusal>
    ensures { code_of result ≡ item_code item }
{
    item.content.check()?;
    let len = item.content.len();
    if !item.id.has_room(len) {
        Err(Refusal::Id)
    } else if len != 1 {
        Err(Refusal::Mismatch)
    } else {
        Ok(())
    }
}

// The lowest refusal among the entries.
#[tactic(auto, using(crate::proofs::Lows::low_steps))]
fn check_entries(columns: Columns<'_>) -> Result<(), Refusal>
    ensures { code_of result ≡ lowest given_code (said columns.entry) }
{
    let mut outcome = Ok(());
    for i in 0..columns.len {
        outcome = lower(outcome, check_given(columns.get(i)));
    }
    outcome
}

// The lowest refusal among the old units, as many as rows fit.
#[tactic(auto, using(crate::proofs::Lows::low_steps), unfolding(crate::specs::Items::items_in))]
fn check_items(old: &[u8]) -> Result<(), Refusal>
    ensures { code_of result ≡ lowest item_code (items_in old.now) }
{
    let mut outcome = Ok(());
    for i in 0..old.len() / ITEM_BYTES {
        outcome = lower(outcome, check_item(get_item(old, i)));
    }
    outcome
}

// Whether the entries use no more than `have` old units. It stops at the first that does not fit, so that no sum grows too large.
#[tactic(auto, using(crate::proofs::Fits::used_steps))]
fn used_fits(columns: Columns<'_>, have: usize) -> bool
    ensures { result ≡ nat_le (used (said columns.entry)) have }
{
    let mut left = have;
    for i in 0..columns.len {
        let uses = takes(columns.get(i));
        if left < uses {
            return false;
        }
        left -= uses;
    }
    true
}

// Whether the new list of `have` old units has no more than `room` units. Asked only where the old units suffice.
#[tactic(auto, using(crate::proofs::Fits::new_steps))]
fn new_fits(columns: Columns<'_>, have: usize, room: usize) -> bool
    requires { used (said columns) ≤ have }
    ensures { result ≡ nat_le (new_len (said columns.entry) have) room }
{
    let mut left = have;
    let mut free = room;
    for i in 0..columns.len {
        let entry = columns.get(i);
        let comes = gives(entry);
        if free < comes {
            return false;
        }
        free -= comes;
        left -= takes(entry);
    }
    left <= free
}

// What refuses the call: the lowest of all that refuse an entry or an old unit, then too few old units, then too little room.
#[tactic(auto, using(crate::proofs::Coded::rows_codes, span::proofs::RefusalLaws::number_not_zero))]
fn check_apply(columns: Columns<'_>, old: &[u8], out: &[u8]) -> Result<(), Refusal>
    ensures { code_of result ≡ apply_code (items_in out.now) (said columns.entry) (items_in old.now) }
{
    lower(check_entries(columns), check_items(old))?;
    let have = old.len() / ITEM_BYTES;
    if !used_fits(columns, have) {
        return Err(Refusal::Mismatch);
    }
    if !new_fits(columns, have, out.len() / ITEM_BYTES) {
        return Err(Refusal::Output);
    }
    Ok(())
}

// ---- The new list

// The span of an Insert's units: an item has none of the rest.
fn bare(id: Id, content: RichtextChunk) -> FugueSpan
    ensures { result ≡ bare_span id content }
{
    FugueSpan {
        id,
        lamport: 0,
        real_id: None,
        status: Status::default(),
        diff_status: None,
        origin_left: None,
        origin_right: None,
        content,
    }
}

// What an entry gives, from a row of the output on; the old units before the row `from` are used up. All refusals were decided before the first write.
#[tactic(auto, using(crate::proofs::Written::written), unfolding(crate::specs::Given::takes, crate::specs::Given::gives, crate::specs::Given::made))]
fn put_given(entry: Option<Entry>, old: &[u8], from: usize, out: &mut [u8], row: usize)
    requires { (given_code entry ≡ 0) × (((from + takes entry) * 24 ≤ length old.now) × ((row + gives entry) * 24 ≤ length out.old)) }
    ensures { out.new ≡ put (row * 24) (items_bytes (made entry (drop from (items_in old.now)))) out.old }
{
    match entry {
        Some(Entry::Retain(len)) => copy_items(old, from, out, row, len as usize),
        Some(Entry::Insert(content, id, _)) => put_units(out, row, bare(id, content)),
        Some(Entry::Delete(_)) | None => {}
    }
}

// The new list, from the first row of the output on; the rest of it stays. The answer is how many items it has. Asked only where nothing refuses.
#[tactic(auto, using(crate::proofs::Written::going_steps))]
fn write_items(columns: Columns<'_>, old: &[u8], out: &mut [u8]) -> usize
    requires { Allowed (said columns) (items_in old.now) (length out.old) }
    ensures count { result ≡ length (applied (said columns.entry) (items_in old.now)) }
    ensures written { out.new ≡ put 0 (items_bytes (applied (said columns.entry) (items_in old.now))) out.old }
{
    let mut from = 0;
    let mut row = 0;
    for i in 0..columns.len {
        let entry = columns.get(i);
        put_given(entry, old, from, out, row);
        from += takes(entry);
        row += gives(entry);
    }
    let rest = old.len() / ITEM_BYTES - from;
    copy_items(old, from, out, row, rest);
    row + rest
}

// A delta, its entries in the columns (as many as the shortest has), applied to the items in `old`: the new list is written to the output's front.
#[tactic(auto, using(crate::proofs::Coded::allowed_of))]
pub fn apply(
    kind: &[u8],
    a: &[u32],
    b: &[u32],
    peer: &[u64],
    counter: &[u32],
    lamport: &[u32],
    old: &[u8],
    out: &mut [u8],
) -> Result<usize, Refusal>
    ensures { Called (delta_code kind.now a.now b.now peer.now counter.now lamport.now old.now out.old) (delta_items kind.now a.now b.now peer.now counter.now lamport.now old.now) out.old result out.new }
{
    let columns = Columns::new(kind, a, b, peer, counter, lamport);
    check_apply(columns, old, out)?;
    Ok(write_items(columns, old, out))
}
