// The count in front of a list.
ghost use Rattle.std.specs.Prelude.{◌≡◌, ltb};
ghost use Rattle.wire.specs.Integers.{number_or_zero};
ghost use Rattle.rules.specs.Reading.{read_count};
ghost use Rattle.number_lists.specs.Counts.{counted};

use byte_strings::Fault;
use protocol::Refusal;
use wire::Width;

// The count at a place, which the elements stand behind: four bytes (6), and no negative count (7).
#[tactic(auto, using(crate::proofs::Lists::count_cut, crate::proofs::Lists::count_negative, crate::proofs::Lists::count_read))]
pub fn list_count(s: &[u8], at: usize) -> Result<usize, Fault>
    ensures { counted at result ≡ read_count s.now at }
{
    if !wire::has_room(s.len(), at, 4) {
        return Err(Fault {
            refusal: Refusal::FieldCut,
            at,
        });
    }
    let count = count_at(s, at);
    if !is_count(count) {
        return Err(Fault {
            refusal: Refusal::BadLength,
            at,
        });
    }
    Ok(count)
}

// The count at a place; 0 where its bytes are not all there.
pub fn count_at(s: &[u8], at: usize) -> usize
    ensures { result ≡ number_or_zero 4 s.now at }
{
    wire::number_or_zero(s, at, Width::Four) as usize
}

// Whether a list may have so many elements: the count is an int32.
pub fn is_count(n: usize) -> bool
    ensures { result ≡ ltb n 0x8000_0000 }
{
    n < 0x8000_0000
}
