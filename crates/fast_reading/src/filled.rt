// The slots of a frame by its first ones; the others are 0.
ghost use Rattle.std.specs.Prelude.{◌≡◌, ◌≤◌};
ghost use Rattle.slots.specs.Flat.{padded};

pub(crate) fn filled<const N: usize>(first: [u64; N]) -> [u64; 24]
    requires { N ≤ 24 }
    ensures { result ≡ padded 24 first.entry }
{
    let mut slots = [0; 24];
    slots[..N].copy_from_slice(&first);
    slots
}
