// The first n of a slice, or all of it where it is no longer.
ghost use Rattle.std.specs.Prelude.{◌≡◌, ◌*◌, take};

pub fn front<T>(column: &[T], n: usize) -> &[T]
    ensures { result.now ≡ take n column.now }
{
    column.get(..n).unwrap_or(column)
}

// Of items, in rows of 24 bytes.
pub fn front_items(list: &[u8], n: usize) -> &[u8]
    ensures { result.now ≡ take (n * 24) list.now }
{
    front(list, n.saturating_mul(24))
}
