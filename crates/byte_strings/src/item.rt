// Things of one sort, one after another.
ghost use Rattle.std.specs.Prelude.{◌≡◌, List, ℕ};
ghost use Rattle.rules.specs.Outcome.{Outcome, repeated};
ghost use Rattle.byte_strings.specs.Stops.{end_of, stop, told};

use crate::fault::Fault;

// One of them.
pub trait Item {
    // What is read at a place.
    ghost read: { Self → List ℕ → ℕ → Outcome Unit };

    // The place after it, where it is read.
    fn after(&self, s: &[u8], at: usize) -> Option<usize>
        ensures { result ≡ end_of (read self.now s.now at) };

    // The same, or why it is not read.
    fn end(&self, s: &[u8], at: usize) -> Result<usize, Fault>
        ensures { told result ≡ stop (read self.now s.now at) };
}

// After so many. Why one is not read is asked for only where none is, which keeps the loop quick.
pub fn items_end<T: Item>(item: &T, s: &[u8], start: usize, count: usize) -> Result<usize, Fault>
    ensures { told result ≡ stop (repeated (T.read item.now) count s.now start) }
{
    let mut at = start;
    for _ in 0..count {
        match item.after(s, at) {
            Some(next) => at = next,
            None => return item.end(s, at),
        }
    }
    Ok(at)
}
