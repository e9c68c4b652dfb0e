// The bytes that a session lends to what is open, and to a call.

#[derive(Drop)]
pub struct Lent<'a> {
    // The rows of a list, after a header of a row's width.
    pub store: &'a mut [u8],
    // A history's target ranges, and its edits.
    pub targets: &'a mut [u8],
    pub edits: &'a mut [u8],
    // Pieces are put out into rows as wide as the store's, and items into the front of the same bytes.
    pub out: &'a mut [u8],
}
