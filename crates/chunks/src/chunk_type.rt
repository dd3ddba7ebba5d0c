// What a chunk's type says. It is 0, 1 or 2 in the bits of any width, a byte on the wire and eight in a slot.
ghost use Rattle.std.specs.Prelude.{◌≡◌, ℕ, suc};
ghost use Rattle.rules.specs.Reading.{is_chunk_type, has_entries};
ghost use Rattle.wire.specs.Signed.{signed};

// Types are 0, 1, 2.
#[tactic(auto, using(crate::proofs::ChunkTypes::type_bits))]
pub fn is_chunk_type(t: u64) -> bool
    ensures { (n : ℕ) → result ≡ is_chunk_type (signed (suc n) t) }
{
    t <= 2
}

// Only a chunk of type 0 has entries.
#[tactic(auto, using(crate::proofs::ChunkTypes::user_bits))]
pub fn has_entries(t: u64) -> bool
    ensures { (n : ℕ) → result ≡ has_entries (signed (suc n) t) }
{
    t == 0
}
