// Why a call is refused (01 "Refusal numbers"). 0 is no refusal's number.
ghost use Rattle.std.specs.Prelude.{◌≡◌};
ghost use Rattle.protocol.specs.Refusals.{number_of};

#[derive(Clone, Copy, Debug, PartialEq, Eq)]
pub enum Refusal {
    // Fewer than 4 bytes, or fewer than Size + 4: this refusal also carries the bytes needed.
    Short = 1,
    // Size above the frame limit; when writing, also above 4,294,967,295.
    FrameTooLarge = 2,
    // Size below 4.
    FrameTooSmall = 3,
    UnknownKey = 4,
    UnknownVersion = 5,
    // A field ends beyond its frame, or an entry beyond the data; a place reaches outside the lent source; list bytes too few for
    // the count.
    FieldCut = 6,
    // Length below -1, null not admitted, negative count; when writing, a length or count that its field does not hold.
    BadLength = 7,
    NotUtf8 = 8,
    // A reference over 256 bytes.
    ReferenceTooLong = 9,
    // Offset specification type, Active, chunk type, an entry's top bit, records, an index.
    ValueNotAdmitted = 10,
    // After the last field, or in the data after the last entry.
    BytesLeft = 11,
    // Output shorter than the frame.
    NoRoom = 12,
    NotOpen = 13,
    AlreadyOpen = 14,
    NoCredit = 15,
    // Balance or messages out would pass 1,000,000.
    OverLimit = 16,
    // More confirmed than out.
    NotOut = 17,
}

impl Refusal {
    pub fn number(self) -> u8
        ensures { result ≡ number_of self }
    {
        self as u8
    }
}
