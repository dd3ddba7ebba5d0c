// The credit ledger: entry i is 0 for a closed id, and the balance and 1 for an open one.
ghost use Rattle.std.specs.Prelude.{◌≡◌};
ghost use Rattle.ledger.specs.Rules.{empty};
ghost use Rattle.credit_ledger.specs.Calls.{opening, grant, closing};
ghost use Rattle.credit_ledger.specs.Numbers.{credit_refusal};
ghost use Rattle.credit_ledger.specs.Step.{answer, after};
ghost use Rattle.krevilosh.specs.Answer.{refusal_answer};

// Closes all ids, whatever the ledger held.
#[unsafe(no_mangle)]
pub extern "C" fn krevilosh_credit_empty(credits: &mut [u32; 257])
    ensures { credits.new ≡ empty }
{
    krevilosh::krevilosh_credit_empty(credits);
}

#[unsafe(no_mangle)]
pub extern "C" fn krevilosh_credit_open(credits: &mut [u32; 257], id: u8, balance: u16) -> u64
    ensures value { result ≡ refusal_answer (credit_refusal (answer credits.old (opening id balance))) }
    ensures credits_after { credits.new ≡ after credits.old (opening id balance) }
{
    krevilosh::krevilosh_credit_open(credits, id, balance)
}

#[unsafe(no_mangle)]
pub extern "C" fn krevilosh_credit_grant(credits: &mut [u32; 257], id: u8, more: u16) -> u64
    ensures value { result ≡ refusal_answer (credit_refusal (answer credits.old (grant id more))) }
    ensures credits_after { credits.new ≡ after credits.old (grant id more) }
{
    krevilosh::krevilosh_credit_grant(credits, id, more)
}

#[unsafe(no_mangle)]
pub extern "C" fn krevilosh_credit_close(credits: &mut [u32; 257], id: u8) -> u64
    ensures value { result ≡ refusal_answer (credit_refusal (answer credits.old (closing id))) }
    ensures credits_after { credits.new ≡ after credits.old (closing id) }
{
    krevilosh::krevilosh_credit_close(credits, id)
}
