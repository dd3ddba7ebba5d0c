// Numbers of every width, and Active.
ghost use Rattle.std.specs.Prelude.{◌≡◌, ◌-◌, ◌^◌, ◌<◌, leb};
ghost use Rattle.rules.specs.Reading.{read_number, read_unsigned};
ghost use Rattle.rules.specs.Writing.{write_unsigned};
ghost use Rattle.wire.specs.Integers.{width_of};
ghost use Rattle.byte_strings.specs.Stops.{stop, told};
ghost use Rattle.fields.specs.Passes.{length_told, measured};

use byte_strings::Fault;
use protocol::Refusal;
use wire::Width;

// After a number of a width (6).
pub fn number_end(s: &[u8], at: usize, width: Width) -> Result<usize, Fault>
    ensures { told result ≡ stop (read_number (width_of width) s.now at) }
{
    let n = width.bytes();
    if !wire::has_room(s.len(), at, n) {
        return Err(Fault {
            refusal: Refusal::FieldCut,
            at,
        });
    }
    Ok(at + n)
}

// After a number of a width (6), admitted up to a largest value (10).
pub fn unsigned_end(s: &[u8], at: usize, width: Width, most: u64) -> Result<usize, Fault>
    ensures { told result ≡ stop (read_unsigned (width_of width) most s.now at) }
{
    if most < wire::number_or_zero(s, at, width) {
        return Err(Fault {
            refusal: Refusal::ValueNotAdmitted,
            at,
        });
    }
    number_end(s, at, width)
}

// The length of c and every other unsigned number that fills its bytes: a value too wide for them gives 10.
pub fn measure_number(width: Width, value: u64) -> Result<usize, Refusal>
    ensures { length_told result ≡ measured (write_unsigned (width_of width) (256 ^ width_of width - 1) value) }
{
    measure_unsigned(width, largest(width), value)
}

// Active is 0 or 1.
pub fn measure_active(value: u64) -> Result<usize, Refusal>
    ensures { length_told result ≡ measured (write_unsigned 1 1 value) }
{
    measure_unsigned(Width::One, 1, value)
}

// Whether a number fits a width.
pub fn is_number(width: Width, value: u64) -> bool
    ensures { result ≡ leb value (256 ^ width_of width - 1) }
{
    value <= largest(width)
}

// The largest number of a width.
pub fn largest(width: Width) -> u64
    ensures { result ≡ 256 ^ width_of width - 1 }
{
    match width {
        Width::One => 0xff,
        Width::Two => 0xffff,
        Width::Three => 0xff_ffff,
        Width::Four => 0xffff_ffff,
        Width::Eight => 0xffff_ffff_ffff_ffff,
    }
}

// A number up to the largest that is admitted (10).
#[tactic(auto, using(crate::proofs::Encodings::number_measured))]
fn measure_unsigned(width: Width, most: u64, value: u64) -> Result<usize, Refusal>
    requires { most < 256 ^ width_of width }
    ensures { length_told result ≡ measured (write_unsigned (width_of width) most value) }
{
    if most < value {
        return Err(Refusal::ValueNotAdmitted);
    }
    Ok(width.bytes())
}
