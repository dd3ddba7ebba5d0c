// Why something is not read, or not written.
ghost use Rattle.std.specs.Prelude.{◌≡◌};

use protocol::Refusal;

#[derive(Clone, Copy, Debug, PartialEq, Eq)]
pub struct Fault {
    pub refusal: Refusal,
    // The place at fault. Of a field that is not written it is the length in front of it.
    pub at: usize,
}

// For a writer that answers with the refusal alone.
impl From<Fault> for Refusal {
    ghost from_gives = { λ fault refusal. refusal ≡ fault.refusal };

    fn from(fault: Fault) -> Refusal {
        fault.refusal
    }
}
