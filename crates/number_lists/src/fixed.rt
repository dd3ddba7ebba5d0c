// Elements of one width need no loop: where they end is known from their count, and so is where the first begins that is cut.
ghost use Rattle.std.specs.Prelude.{◌≡◌};
ghost use Rattle.protocol.specs.Fields as F;
ghost use Rattle.protocol.specs.Refusals.{number_in};
ghost use Rattle.rules.specs.Reading.{read_field};
ghost use Rattle.rules.specs.Writing.{write_field};
ghost use Rattle.byte_strings.specs.Stops.{stop, told, refusal_of};
ghost use Rattle.number_lists.specs.Fixed.{fixed_end, numbers};

use crate::checks::{check_left, check_place};
use crate::count::list_count;
use byte_strings::Fault;
use protocol::{Elements, Refusal};
use wire::Width;

// Where so many elements of a width end, from a place of a part of len bytes on; or else where the first begins that is not all
// there.
#[tactic(auto, using(crate::proofs::FixedWidth::none_asked, crate::proofs::FixedWidth::no_width, crate::proofs::FixedWidth::outside, crate::proofs::FixedWidth::too_few, crate::proofs::FixedWidth::enough))]
pub fn fixed_end(len: usize, at: usize, width: usize, count: usize) -> Result<usize, usize>
    ensures { result ≡ fixed_end len at width count }
{
    if count == 0 {
        return Ok(at);
    }
    if width == 0 || len < at {
        return Err(at);
    }
    let whole = (len - at) / width;
    if whole < count {
        return Err(at + whole * width);
    }
    Ok(at + count * width)
}

// A list of numbers of one width: the count (6, 7), then the numbers (6).
pub fn numbers_end(s: &[u8], at: usize, width: Width) -> Result<usize, Fault>
    ensures { told result ≡ stop (read_field (numbers width) s.now at) }
{
    let count = list_count(s, at)?;
    match fixed_end(s.len(), at + 4, width.bytes(), count) {
        Ok(last) => Ok(last),
        Err(first) => Err(Fault {
            refusal: Refusal::FieldCut,
            at: first,
        }),
    }
}

// Why such a list is not written: the count (7), the place (6), the numbers (6), and no bytes left (11).
pub fn check_numbers(src: &[u8], width: Width, list: Elements) -> Result<(), Refusal>
    ensures { number_in result ≡ refusal_of (write_field (numbers width) src.now (F.elements list.count list.place)) }
{
    check_place(src, list)?;
    match fixed_end(list.place.len, 0, width.bytes(), list.count) {
        Ok(last) => check_left(last, list.place.len),
        Err(_) => Err(Refusal::FieldCut),
    }
}
