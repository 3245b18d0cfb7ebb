// The fields of a line.
ghost use Rattle.std.specs.Prelude.{◌≡◌, ◌≤◌, ◌∷◌, [], MatchOption, length};
ghost use Rattle.std.specs.List.{prefix_len};
ghost use Rattle.lucy_lines.specs.Fields.{is_space, line_fields};

use bstr::ByteSlice;

fn is_blank(c: u8) -> bool
    ensures { result ≡ is_space c }
{
    c == b' ' || c == b'\t'
}

// How many blanks stand at the front.
fn blanks(line: &[u8]) -> usize
    ensures blanks { result ≡ prefix_len is_space line.now }
    ensures within { result ≤ length line.now }
{
    for (i, c) in line.iter().enumerate() {
        if !is_blank(*c) {
            return i;
        }
    }
    line.len()
}

/// The first field of a line, and what stands behind it. None where there are blanks alone.
pub(crate) fn field(line: &[u8]) -> Option<(&[u8], &[u8])>
    ensures { MatchOption result (line_fields line.now ≡ []) (λ r. line_fields line.now ≡ r.0.now ∷ line_fields r.1.now) }
{
    let rest = &line[blanks(line)..];
    if rest.is_empty() {
        return None;
    }
    let end = rest.find_byteset(b" \t").unwrap_or(rest.len());
    Some((&rest[..end], &rest[end..]))
}
