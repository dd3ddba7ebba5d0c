// Where a field's bytes stand in the lent buffer.

// len bytes from at on. What may be null is an Option of a place: null has none, and is not the empty one.
#[derive(Clone, Copy, Debug, PartialEq, Eq)]
pub struct Place {
    pub at: usize,
    pub len: usize,
}

// A list: how many elements, and the place of their encoding, one after another.
#[derive(Clone, Copy, Debug, PartialEq, Eq)]
pub struct Elements {
    pub count: usize,
    pub place: Place,
}
