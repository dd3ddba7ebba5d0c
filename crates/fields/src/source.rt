// The lent source in which a frame's places are.
ghost use Rattle.std.specs.Prelude.{◌≡◌};
ghost use Rattle.protocol.specs.Fields.{outside};

use protocol::Place;

// Whether a place reaches outside the source.
pub fn is_outside(src: &[u8], place: Place) -> bool
    ensures { result ≡ outside place src.now }
{
    !wire::has_room(src.len(), place.at, place.len)
}
