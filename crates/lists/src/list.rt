// Lists: a count, then each element in turn, read and checked.
ghost use Rattle.std.specs.Prelude.{◌≡◌};
ghost use Rattle.protocol.specs.Fields as F;
ghost use Rattle.protocol.specs.Kinds.{list_of};
ghost use Rattle.protocol.specs.Refusals.{number_in};
ghost use Rattle.rules.specs.Reading.{read_field};
ghost use Rattle.rules.specs.Writing.{write_field};
ghost use Rattle.byte_strings.specs.Stops.{stop, told, refusal_of};

use byte_strings::Fault;
use elements::elements_end;
use number_lists::{check_left, check_place, list_count};
use protocol::{Elements, ListKind, Refusal};

// Where the list at a place ends, or why it is refused: the count (6, 7), then the elements.
pub fn list_end(s: &[u8], at: usize, kind: ListKind) -> Result<usize, Fault>
    ensures { told result ≡ stop (read_field (list_of kind) s.now at) }
{
    let count = list_count(s, at)?;
    elements_end(s, at + 4, kind.element, count)
}

// Why a list is not written: the count (7), the place (6), then the elements as when read, and no bytes left (11).
pub fn check_list(src: &[u8], kind: ListKind, list: Elements) -> Result<(), Refusal>
    ensures { number_in result ≡ refusal_of (write_field (list_of kind) src.now (F.elements list.count list.place)) }
{
    check_place(src, list)?;
    let start = list.place.at;
    let end = start + list.place.len;
    let last = elements_end(&src[start..end], 0, kind.element, list.count)?;
    check_left(last, list.place.len)
}
