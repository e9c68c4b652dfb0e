// The rows of a list, to be searched: a slice of rows cut out of lent bytes, and what each row says.
ghost use Rattle.std.specs.Prelude.{◌≡◌, ◌*◌, ◌≤◌, length};
ghost use Rattle.store.specs.Row.{rows, row_at};
ghost use Rattle.store.specs.Listed.{spans};

use span::span::FugueSpan;

// How many bytes a row has.
pub const WIDTH: usize = 72;

// The bytes of one span.
pub type Row = [u8; WIDTH];

// The first n rows of a buffer. An inner function: who calls knows that they are lent.
#[tactic(auto, using(crate::proofs::ListLaws::first_rows))]
pub fn rows(bytes: &[u8], n: usize) -> &[Row]
    requires { n * 72 ≤ length bytes.now }
    ensures len { length result.now ≡ n }
    ensures list { spans result.now ≡ rows n bytes.now }
{
    let (rows, _) = bytes.as_chunks::<WIDTH>();
    &rows[..n]
}

// The span that a row says.
pub fn span_of(row: &Row) -> FugueSpan
    ensures { result ≡ row_at row.now 0 }
{
    crate::get_row(row, 0)
}
