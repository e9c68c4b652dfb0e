// An entry of a delta.
use span::chunk::RichtextChunk;
use span::ids::Id;

// An entry of a delta: so many visible units stay, so many go, or the units of a chunk come in, the first with this real id and lamport.
#[derive(Clone, Copy, Debug, PartialEq, Eq)]
pub enum Entry {
    Retain(u32),
    Delete(u32),
    Insert(RichtextChunk, Id, Option<u32>),
}
