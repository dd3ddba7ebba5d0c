// Received frames: a Deliver spends one of its subscription's credits.
ghost use Rattle.std.specs.Prelude.{◌≡◌};
ghost use Rattle.credit_ledger.specs.Calls.{received};
ghost use Rattle.credit_ledger.specs.Numbers.{credit_refusal};
ghost use Rattle.credit_ledger.specs.Step.{answer, after};
ghost use Rattle.credit_receiving.specs.Answer.{said, answer_of, received_refusal, slots_after};
ghost use Rattle.credit_receiving.specs.declared.receiving.ReceiveError.TheVariants as errors;

use crate::subscription::{affords, spend, subscription_of};
use frame_reading::ReadError;
use protocol::Refusal;

// Why a received frame is not accepted.
#[derive(Clone, Copy, Debug, PartialEq, Eq)]
pub enum ReceiveError {
    // It is not read.
    Read(ReadError),
    // A Deliver whose id is not open (13) or has no credit left (15).
    Ledger(Refusal),
}

impl From<ReadError> for ReceiveError {
    ghost from_gives = { λ read error. error ≡ errors.Read read };

    fn from(error: ReadError) -> ReceiveError {
        ReceiveError::Read(error)
    }
}

impl From<Refusal> for ReceiveError {
    ghost from_gives = { λ refusal error. error ≡ errors.Ledger refusal };

    fn from(refusal: Refusal) -> ReceiveError {
        ReceiveError::Ledger(refusal)
    }
}

// The frame is read first; if it is a Deliver, then 13, then 15, else the balance falls by one. Other frames leave the
// ledger unchanged. Only a frame that is handed over changes the slots: one that the ledger will refuse is read elsewhere.
pub fn receive(
    credits: &mut [u32; 257],
    bytes: &[u8],
    limit: u32,
    slots: &mut [u64; 24],
) -> Result<(), ReceiveError>
    ensures value { said result ≡ answer_of (answer credits.old (received bytes.now limit)) }
    ensures credits_after { credits.new ≡ after credits.old (received bytes.now limit) }
    ensures slots_after { slots.new ≡ slots_after slots.old (answer credits.old (received bytes.now limit)) }
    ensures refusal { received_refusal result ≡ credit_refusal (answer credits.old (received bytes.now limit)) }
{
    let subscription = subscription_of(bytes);
    if affords(credits, subscription) {
        frame_reading::read(bytes, limit, slots)?;
    } else {
        let mut elsewhere = [0u64; 24];
        frame_reading::read(bytes, limit, &mut elsewhere)?;
    }
    spend(credits, subscription)?;
    Ok(())
}
