// Reading frames.
ghost use Rattle.std.specs.Prelude.{◌≡◌};
ghost use Rattle.std.proofs.Math.Option.{some};
ghost use Rattle.rules.specs.Answers.{reading_refusal};
ghost use Rattle.rules.specs.Reading.{read_frame};
ghost use Rattle.credit_ledger.specs.Calls.{received};
ghost use Rattle.credit_ledger.specs.Numbers.{credit_refusal};
ghost use Rattle.credit_ledger.specs.Step.{answer, after};
ghost use Rattle.credit_receiving.specs.Answer.{slots_after};
ghost use Rattle.slots.specs.Flat as flat;
ghost use Rattle.frame_reading.specs.Answer.{refusal_in};
ghost use Rattle.krevilosh.specs.Answer.{refusal_answer, NeededFits};

use crate::packed;
use credit_receiving::ReceiveError;
use frame_reading::ReadError;
use protocol::Refusal;

// The frame at the start of the bytes, under a frame limit, into the frame's slots.
pub fn krevilosh_read(bytes: &[u8], limit: u32, frame: &mut [u64; 24]) -> u64
    ensures value { result ≡ refusal_answer (reading_refusal (read_frame bytes.now limit)) }
    ensures frame_after { frame.new ≡ flat.slots_after frame.old (read_frame bytes.now limit) }
{
    match frame_reading::read(bytes, limit, frame) {
        Ok(()) => 0,
        Err(error) => unread(error),
    }
}

// Reads a frame, and takes one credit from its subscription if it is a Deliver.
pub fn krevilosh_credit_receive(
    credits: &mut [u32; 257],
    bytes: &[u8],
    limit: u32,
    frame: &mut [u64; 24],
) -> u64
    ensures value { result ≡ refusal_answer (credit_refusal (answer credits.old (received bytes.now limit))) }
    ensures credits_after { credits.new ≡ after credits.old (received bytes.now limit) }
    ensures frame_after { frame.new ≡ slots_after frame.old (answer credits.old (received bytes.now limit)) }
{
    match credit_receiving::receive(credits, bytes, limit, frame) {
        Ok(()) => 0,
        Err(ReceiveError::Read(error)) => unread(error),
        Err(ReceiveError::Ledger(refusal)) => refusal.number() as u64,
    }
}

// What reading answers where no frame is read.
fn unread(error: ReadError) -> u64
    requires { NeededFits (some (refusal_in error)) }
    ensures { result ≡ refusal_answer (some (refusal_in error)) }
{
    match error {
        ReadError::Short { needed } => packed(Refusal::Short.number(), needed),
        ReadError::Refused(fault) => fault.refusal.number() as u64,
    }
}
