// Where a byte stands in a text.
ghost use Rattle.std.specs.Prelude.{◌≡◌, ◌+◌, ◌≤◌, length, drop};
ghost use Rattle.test_text.specs.Search.{index_of};

// The place of the first such byte from a place on. Where there is none it is the text's end, or the place itself if that lies
// beyond.
pub fn find(text: &[u8], from: usize, byte: u8) -> usize
    ensures value { result ≡ from + index_of byte (drop from text.now) }
    ensures lower_bound { from ≤ result }
    ensures upper_bound { from ≤ length text.now → result ≤ length text.now }
{
    for at in from..text.len() {
        if text[at] == byte {
            return at;
        }
    }
    text.len().max(from)
}
