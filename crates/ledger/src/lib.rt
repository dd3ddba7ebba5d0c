// A ledger of 256 ids in an array that the host lends: 0 for a closed id, the balance and 1 for an open one. The entry
// behind the ids is not used. The credit ledger and the publisher ledger are made of these calls.
#![tactic(auto)]

ghost use Rattle.std.specs.Prelude.{◌≡◌, ◌<◌, ℕ, IfSome};
ghost use Rattle.ledger.specs.Calls.{start, add, take, stop};
ghost use Rattle.ledger.specs.Rules.{refusal, entry_at, ledger_at, empty, store};
ghost use Rattle.ledger.specs.Answers.{number_of, number_taken, entry_of};

use protocol::Refusal;

// The largest balance that a call can leave.
const MOST: u32 = 1_000_000;

// A ledger in which all ids are closed.
pub fn empty() -> [u32; 257]
    ensures { result ≡ empty }
{
    [0u32; 257]
}

// Closes all ids of a ledger, whatever it held.
pub fn clear(ledger: &mut [u32; 257])
    ensures { ledger.new ≡ empty }
{
    *ledger = empty();
}

// An open id's balance.
pub fn state(ledger: &[u32; 257], id: u8) -> Option<u32>
    ensures { entry_of result ≡ entry_at ledger.now id }
{
    ledger[id as usize].checked_sub(1)
}

// Opens an id with a balance.
pub fn start(ledger: &mut [u32; 257], id: u8, balance: u16) -> Result<(), Refusal>
    ensures refusal { number_of result ≡ refusal (start balance) (entry_at ledger.old id) }
    ensures ledger_after { ledger.new ≡ ledger_at ledger.old id (start balance) }
{
    if state(ledger, id).is_some() {
        return Err(Refusal::AlreadyOpen);
    }
    put(ledger, id, Some(balance as u32));
    Ok(())
}

// Adds n to an open id's balance. A balance that the host made up may have no sum.
pub fn add(ledger: &mut [u32; 257], id: u8, n: u32) -> Result<(), Refusal>
    ensures refusal { number_of result ≡ refusal (add n) (entry_at ledger.old id) }
    ensures ledger_after { ledger.new ≡ ledger_at ledger.old id (add n) }
{
    let balance = state(ledger, id).ok_or(Refusal::NotOpen)?;
    let sum = balance.checked_add(n).ok_or(Refusal::OverLimit)?;
    if MOST < sum {
        return Err(Refusal::OverLimit);
    }
    put(ledger, id, Some(sum));
    Ok(())
}

// Takes n from an open id's balance, and says whether the balance covered it; a smaller one stays. Each ledger has a refusal of
// its own for that.
pub fn take(ledger: &mut [u32; 257], id: u8, n: u32) -> Result<bool, Refusal>
    ensures refusal { (short : ℕ) → number_taken short result ≡ refusal (take n short) (entry_at ledger.old id) }
    ensures ledger_after { (short : ℕ) → ledger.new ≡ ledger_at ledger.old id (take n short) }
{
    let balance = state(ledger, id).ok_or(Refusal::NotOpen)?;
    if balance < n {
        return Ok(false);
    }
    put(ledger, id, Some(balance - n));
    Ok(true)
}

// Closes an id.
pub fn stop(ledger: &mut [u32; 257], id: u8) -> Result<(), Refusal>
    ensures refusal { number_of result ≡ refusal stop (entry_at ledger.old id) }
    ensures ledger_after { ledger.new ≡ ledger_at ledger.old id stop }
{
    state(ledger, id).ok_or(Refusal::NotOpen)?;
    put(ledger, id, None);
    Ok(())
}

// Closes an id, or leaves it open with a balance. The only function that changes a ledger.
fn put(ledger: &mut [u32; 257], id: u8, balance: Option<u32>)
    requires { IfSome balance (λ b. b < 0xffff_ffff) }
    ensures { ledger.new ≡ store ledger.old id (entry_of balance) }
{
    ledger[id as usize] = match balance {
        Some(balance) => balance + 1,
        None => 0,
    };
}
