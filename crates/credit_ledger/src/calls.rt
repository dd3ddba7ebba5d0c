// Openings, grants and closings.
ghost use Rattle.std.specs.Prelude.{◌≡◌};
ghost use Rattle.credit_ledger.specs.Calls.{opening, grant, closing};
ghost use Rattle.credit_ledger.specs.Step.{answer, after, answer_of_change};

use protocol::Refusal;

// To be called when Subscribe is answered OK: 14 if the id is open.
pub fn open(credits: &mut [u32; 257], id: u8, credit: u16) -> Result<(), Refusal>
    ensures answer { answer_of_change result ≡ answer credits.old (opening id credit) }
    ensures credits_after { credits.new ≡ after credits.old (opening id credit) }
{
    ledger::start(credits, id, credit)
}

// 13 if the id is closed, 16 if its balance would pass 1,000,000.
pub fn grant(credits: &mut [u32; 257], id: u8, more: u16) -> Result<(), Refusal>
    ensures answer { answer_of_change result ≡ answer credits.old (grant id more) }
    ensures credits_after { credits.new ≡ after credits.old (grant id more) }
{
    ledger::add(credits, id, more as u32)
}

// 13 if the id is closed.
pub fn close(credits: &mut [u32; 257], id: u8) -> Result<(), Refusal>
    ensures answer { answer_of_change result ≡ answer credits.old (closing id) }
    ensures credits_after { credits.new ≡ after credits.old (closing id) }
{
    ledger::stop(credits, id)
}
