// Where an offset stands in a text.
ghost use Rattle.std.specs.Prelude.{ℕ, ◌≡◌, ◌≢◌, ◌+◌, ◌<◌, ◌≤◌, ◌⊎◌, length, take, slice_index};
ghost use Rattle.lucy_picture.specs.Spots.{line_ends, IsSpot};

/// Where an offset stands: its line, and its column in bytes, both from 1, and the offsets, from 0, at which the line begins and
/// ends, its line feed left out.
#[derive(Clone, Copy)]
pub struct Spot {
    pub line: usize,
    pub column: usize,
    pub begin: usize,
    pub end: usize,
}

// How many lines end before an offset.
fn ends_before(text: &[u8], offset: usize) -> usize
    requires { offset ≤ length text.now }
    ensures is { result ≡ line_ends (take offset text.now) }
    ensures within { result ≤ offset }
{
    let mut ends = 0;
    'each: for i in 0..offset {
        if text[i] == b'\n' {
            ends += 1;
        }
    }
    ends
}

// Where the line of an offset begins.
fn begin_of(text: &[u8], offset: usize) -> usize
    requires { offset ≤ length text.now }
    ensures within { result ≤ offset }
    ensures front { (i : ℕ) → result ≤ i → i < offset → slice_index text.now i ≢ 10 }
    ensures behind { (result ≡ 0) ⊎ ((i : ℕ) × (result ≡ i + 1) × (slice_index text.now i ≡ 10)) }
{
    let mut begin = offset;
    'each: while begin > 0 && text[begin - 1] != b'\n' {
        begin -= 1;
    }
    begin
}

// Where it ends.
fn end_of(text: &[u8], offset: usize) -> usize
    requires { offset ≤ length text.now }
    ensures begins { offset ≤ result }
    ensures within { result ≤ length text.now }
    ensures back { (i : ℕ) → offset ≤ i → i < result → slice_index text.now i ≢ 10 }
    ensures before { (result ≡ length text.now) ⊎ (slice_index text.now result ≡ 10) }
{
    let mut end = offset;
    'each: while end < text.len() && text[end] != b'\n' {
        end += 1;
    }
    end
}

/// Where an offset stands in a text, which may be its end.
pub fn spot_of(text: &[u8], offset: usize) -> Spot
    requires { offset ≤ length text.now }
    ensures { IsSpot text.now offset result }
{
    let begin = begin_of(text, offset);
    Spot {
        line: ends_before(text, offset) + 1,
        column: offset - begin + 1,
        begin,
        end: end_of(text, offset),
    }
}
