// What an edit or a pair says on its own: its size, refusals 1 and 2, and its counter or count beside a number.
ghost use Rattle.std.specs.Prelude.{◌≡◌, ◌&&◌, pos, ◌+ℤ◌};
ghost use Rattle.std.specs.Int.Signed.{lt_z, le_z};
ghost use Rattle.span.specs.Refusal.{code_of};
ghost use Rattle.span.specs.Status.{eq_z};
ghost use Rattle.history.specs.Edit.{size_of};
ghost use Rattle.history.specs.Valid.{act_formed, act_ids};
ghost use Rattle.tracker.specs.Rows.{to_act};
ghost use Rattle.tracker.specs.Refused.{act_code};

use crate::row::{Does, Pair};
use span::ids::{Id, real_has_room};
use span::refusal::Refusal;
use span::status::counter_of;

// The counters that an edit uses.
#[tactic(auto, unfolding(history::specs::Edit::size_of))]
pub fn size_of(act: Does) -> u32
    ensures { result ≡ size_of (to_act act) }
{
    match act {
        Does::Insert(_, c) => c.len(),
        Does::Delete(n, _, _) => n,
    }
}

// 1: the chunk is formed; a delete has a length.
pub fn act_formed(act: Does) -> bool
    ensures { result ≡ act_formed (to_act act) }
{
    match act {
        Does::Insert(_, c) => c.is_formed(),
        Does::Delete(n, _, _) => n != 0,
    }
}

// 2: the lamport and the target start are in range.
pub fn act_ids(act: Does) -> bool
    ensures { result ≡ act_ids (to_act act) }
{
    match act {
        Does::Insert(lamport, c) => lamport <= u32::MAX - c.len(),
        Does::Delete(n, _, start) => real_has_room(Some(start), n),
    }
}

// 1 and 2: what an edit alone says.
#[tactic(auto, unfolding(crate::specs::Refused::act_code))]
pub fn act_code(id: Id, act: Does) -> Result<(), Refusal>
    ensures { code_of result ≡ act_code id (to_act act) }
{
    if !act_formed(act) {
        return Err(Refusal::Chunk);
    }
    if !real_has_room(Some(id), size_of(act)) || !act_ids(act) {
        return Err(Refusal::Id);
    }
    Ok(())
}

// Whether an id's counter is a number.
pub fn counter_is(id: Id, n: u64) -> bool
    ensures { result ≡ eq_z id.counter (pos n) }
{
    counter_of(id.counter).is_some_and(|c| u64::from(c) == n)
}

// Whether a pair's count is at least 1, and no more than is held.
pub fn count_held(k: Pair, most: u64) -> bool
    ensures { result ≡ le_z (pos 1) k.many && le_z k.many (pos most) }
{
    counter_of(k.many).is_some_and(|c| 1 <= c && u64::from(c) <= most)
}

// The counter after n units, in a width that always holds it.
pub fn end_of(id: Id, n: u32) -> i64
    ensures { result ≡ id.counter +ℤ pos n }
{
    i64::from(id.counter) + i64::from(n)
}

pub fn at_most(x: i64, count: u32) -> bool
    ensures { result ≡ le_z x (pos count) }
{
    x <= i64::from(count)
}

pub fn less_than(x: i64, count: u32) -> bool
    ensures { result ≡ lt_z x (pos count) }
{
    x < i64::from(count)
}
