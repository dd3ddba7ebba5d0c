// Every key with versions 0, 1, 2, 3 and 65,535: the pairs that have a layout, and how many have none, and why.
ghost use Rattle.std.specs.Prelude.{◌≡◌, ◌≤◌};
ghost use Rattle.protocol.specs.Refusals.{number_of};
ghost use Rattle.test_wire_text_keys.specs.Keys.{refused, refused_versions, refused_pairs};

use protocol::Refusal;

pub fn run() {
    listed();
    test_text::word(b"keys");
    test_text::decimal(refusals(Refusal::UnknownKey));
    test_text::decimal(refusals(Refusal::UnknownVersion));
    test_text::line();
}

fn listed() {
    for key in 0..=u16::MAX {
        for version in [0, 1, 2, 3, 65535] {
            show(key, version);
        }
    }
}

fn show(key: u16, version: u16) {
    if protocol::layout_of(key, version).is_ok() {
        test_text::word(b"key");
        test_text::hex(key as u64, 4);
        test_text::decimal(version as u64);
        test_text::line();
    }
}

// How many of the pairs are refused for a reason.
#[tactic(auto, using(crate::proofs::Sums::sum_none, crate::proofs::Sums::sum_more))]
fn refusals(why: Refusal) -> u64
    ensures { result ≡ refused_pairs (number_of why) }
{
    let mut count: u64 = 0;
    for k in 0..65536u32 {
        count += refused_versions(why, k as u16);
    }
    count
}

// How many of a key's versions are refused for a reason.
#[tactic(auto, unfolding(crate::specs::Keys::refused_versions))]
fn refused_versions(why: Refusal, key: u16) -> u64
    ensures value { result ≡ refused_versions (number_of why) key }
    ensures upper_bound { result ≤ 5 }
{
    refused(why, key, 0)
        + refused(why, key, 1)
        + refused(why, key, 2)
        + refused(why, key, 3)
        + refused(why, key, 65535)
}

// 1 if a key and a version are refused for a reason, else 0.
fn refused(why: Refusal, key: u16, version: u16) -> u64
    ensures value { result ≡ refused (number_of why) key version }
    ensures upper_bound { result ≤ 1 }
{
    match protocol::layout_of(key, version) {
        Err(refusal) if refusal == why => 1,
        _ => 0,
    }
}
