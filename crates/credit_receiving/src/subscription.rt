// What a frame's first bytes say of its subscription: whether the ledger will refuse the frame is known before it is read.
ghost use Rattle.std.specs.Prelude.{◌≡◌};
ghost use Rattle.ledger.specs.Answers.{number_of};
ghost use Rattle.credit_receiving.specs.Subscription.{id_of, addressed, refusal_for, affords, spent};

use frame_head::head_of;
use protocol::Refusal;

// The subscription that the bytes are for, if they begin with a Deliver: the key is the two bytes at 4, the id the byte
// at 8. Other frames are for none.
pub fn subscription_of(bytes: &[u8]) -> Option<u8>
    ensures { id_of result ≡ addressed bytes.now }
{
    if 8 < bytes.len() && head_of(bytes).key == 8 {
        return Some(bytes[8]);
    }
    None
}

// Whether a frame for it will not be refused: its id is open and has a credit left.
pub fn affords(credits: &[u32; 257], subscription: Option<u8>) -> bool
    ensures { result ≡ affords credits.now (id_of subscription) }
{
    match subscription {
        Some(id) => ledger::state(credits, id).is_some_and(|balance| 1 <= balance),
        None => true,
    }
}

// Takes the credit of a frame that was read.
pub fn spend(credits: &mut [u32; 257], subscription: Option<u8>) -> Result<(), Refusal>
    ensures refusal { number_of result ≡ refusal_for credits.old (id_of subscription) }
    ensures credits_after { credits.new ≡ spent credits.old (id_of subscription) }
{
    let Some(id) = subscription else {
        return Ok(());
    };
    if ledger::take(credits, id, 1)? {
        return Ok(());
    }
    Err(Refusal::NoCredit)
}
