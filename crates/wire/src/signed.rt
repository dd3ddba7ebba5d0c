// Signed integers: two's complement, both ways, no bit lost.
ghost use Rattle.std.specs.Prelude.{◌≡◌, ℕ, ℤ};
ghost use Rattle.wire.specs.Signed.{signed, unsigned, SignedLaw};
ghost use Rattle.wire.specs.SignedLaws.{twos_complement};

// An unsigned integer, and the signed one of as many bits.
pub trait Unsigned {
    type Signed;

    // How many bytes both have, and their values.
    ghost bytes: { ℕ };

    ghost number: { Self → ℕ };

    ghost integer: { Self.Signed → ℤ };

    // The integer of the same bits.
    fn signed(self) -> Self::Signed
        ensures { integer result ≡ signed bytes (number self) };

    // The bits of an integer.
    fn unsigned(x: Self::Signed) -> Self
        ensures { number result ≡ unsigned bytes (integer x) };

    ghost law: { SignedLaw bytes };
}

#[tactic(auto, unfolding(crate::specs::Signed::signed, crate::specs::Signed::unsigned))]
impl Unsigned for u8 {
    type Signed = i8;

    ghost bytes = { 1 };

    ghost number = { λ x. x };

    ghost integer = { λ x. x };

    ghost law = { twos_complement 0 };

    fn signed(self) -> i8
        ensures { result ≡ signed 1 self }
    {
        self.cast_signed()
    }

    fn unsigned(x: i8) -> u8
        ensures { result ≡ unsigned 1 x }
    {
        i8::cast_unsigned(x)
    }
}

#[tactic(auto, unfolding(crate::specs::Signed::signed, crate::specs::Signed::unsigned))]
impl Unsigned for u32 {
    type Signed = i32;

    ghost bytes = { 4 };

    ghost number = { λ x. x };

    ghost integer = { λ x. x };

    ghost law = { twos_complement 3 };

    fn signed(self) -> i32
        ensures { result ≡ signed 4 self }
    {
        self.cast_signed()
    }

    fn unsigned(x: i32) -> u32
        ensures { result ≡ unsigned 4 x }
    {
        i32::cast_unsigned(x)
    }
}

#[tactic(auto, unfolding(crate::specs::Signed::signed, crate::specs::Signed::unsigned))]
impl Unsigned for u64 {
    type Signed = i64;

    ghost bytes = { 8 };

    ghost number = { λ x. x };

    ghost integer = { λ x. x };

    ghost law = { twos_complement 7 };

    fn signed(self) -> i64
        ensures { result ≡ signed 8 self }
    {
        self.cast_signed()
    }

    fn unsigned(x: i64) -> u64
        ensures { result ≡ unsigned 8 x }
    {
        i64::cast_unsigned(x)
    }
}
