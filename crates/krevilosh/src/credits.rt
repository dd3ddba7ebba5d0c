// The credit ledger: entry i is 0 for a closed id, and the balance and 1 for an open one.
ghost use Rattle.std.specs.Prelude.{◌≡◌};
ghost use Rattle.ledger.specs.Rules.{empty};
ghost use Rattle.credit_ledger.specs.Calls.{opening, grant, closing};
ghost use Rattle.credit_ledger.specs.Numbers.{credit_refusal};
ghost use Rattle.credit_ledger.specs.Step.{answer, after};
ghost use Rattle.krevilosh.specs.Answer.{refusal_answer};

use crate::refusal_number;

// Closes all ids, whatever the ledger held.
pub fn krevilosh_credit_empty(credits: &mut [u32; 257])
    ensures { credits.new ≡ empty }
{
    credit_ledger::clear(credits);
}

pub fn krevilosh_credit_open(credits: &mut [u32; 257], id: u8, balance: u16) -> u64
    ensures value { result ≡ refusal_answer (credit_refusal (answer credits.old (opening id balance))) }
    ensures credits_after { credits.new ≡ after credits.old (opening id balance) }
{
    refusal_number(credit_ledger::open(credits, id, balance))
}

pub fn krevilosh_credit_grant(credits: &mut [u32; 257], id: u8, more: u16) -> u64
    ensures value { result ≡ refusal_answer (credit_refusal (answer credits.old (grant id more))) }
    ensures credits_after { credits.new ≡ after credits.old (grant id more) }
{
    refusal_number(credit_ledger::grant(credits, id, more))
}

pub fn krevilosh_credit_close(credits: &mut [u32; 257], id: u8) -> u64
    ensures value { result ≡ refusal_answer (credit_refusal (answer credits.old (closing id))) }
    ensures credits_after { credits.new ≡ after credits.old (closing id) }
{
    refusal_number(credit_ledger::close(credits, id))
}
