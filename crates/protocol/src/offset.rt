// Where a subscription starts (01: "a choice inside the frame: none, first, last, next, an unsigned offset, or a signed timestamp").
#[derive(Clone, Copy, Debug, PartialEq, Eq)]
pub enum OffsetSpecification {
    None,
    First,
    Last,
    Next,
    Offset(u64),
    Timestamp(i64),
}
