// Room in a slice.
ghost use Rattle.std.specs.Prelude.{◌≡◌, ◌+◌, leb};

// Whether n bytes from a place on are within a length. The sum of the two may be too large to form.
pub fn has_room(len: usize, at: usize, n: usize) -> bool
    ensures { result ≡ leb (at + n) len }
{
    if len < at {
        return false;
    }
    n <= len - at
}
