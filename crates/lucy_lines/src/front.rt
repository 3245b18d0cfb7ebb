// What the bytes decide of the line at their front.
ghost use Rattle.std.specs.Prelude.{◌≡◌, ◌+◌, ◌<◌, ◌≤◌, length};
ghost use Rattle.lucy_lines.specs.Fronts.{run as lines_run, judge, judged, last_line, reach, content_of, front_of, most_bytes};

use bstr::ByteSlice;
use lucy_word::Limit;

/// How many bytes a line may have before its end.
pub(crate) const LONGEST: usize = 4096;

/// How many bytes an input may have.
pub(crate) fn most_bytes() -> u64
    ensures { result ≡ most_bytes }
{
    Limit::Input.number()
}

/// What the bytes decide of the line at their front. Lengths are in bytes.
#[derive(Clone, Copy)]
pub(crate) enum Front {
    /// A line: its length before its end, and with it.
    Line { content: usize, length: usize },
    /// One that can't end any more within its longest.
    Long,
    /// One that is judged past the bytes that an input may have.
    Past,
    /// Nothing.
    Open,
}

// The length of a line before its end, where so many bytes stand before its line feed.
fn content(bytes: &[u8], run: usize) -> usize
    requires { run ≤ length bytes.now }
    ensures { result ≡ content_of bytes.now run }
{
    if bytes[..run].ends_with(b"\r") {
        run - 1
    } else {
        run
    }
}

// How many bytes may stand before the line feed.
fn reach_of(bytes: &[u8]) -> usize
    ensures { result ≡ reach bytes.now }
{
    if bytes.get(LONGEST) == Some(&b'\r') {
        LONGEST + 1
    } else {
        LONGEST
    }
}

// How many bytes stand before the line feed, which is none of the first that were seen.
fn run_of(bytes: &[u8], seen: usize) -> usize
    requires within { seen ≤ length bytes.now }
    requires seen { seen ≤ lines_run bytes.now }
    ensures { result ≡ lines_run bytes.now }
{
    let rest = &bytes[seen..];
    seen + rest.find_byte(b'\n').unwrap_or(rest.len())
}

// The last line, which has no end.
fn last(bytes: &[u8]) -> Front
    ensures { result ≡ last_line bytes.now }
{
    if bytes.is_empty() {
        Front::Open
    } else if bytes.len() > LONGEST {
        Front::Long
    } else {
        Front::Line {
            content: bytes.len(),
            length: bytes.len(),
        }
    }
}

// The line at the front, of which a byte is there that judges it.
fn judged_line(bytes: &[u8], run: usize) -> Front
    requires run { run ≡ lines_run bytes.now }
    requires some { judge bytes.now < length bytes.now }
    ensures { result ≡ judged bytes.now }
{
    if reach_of(bytes) < run {
        Front::Long
    } else {
        Front::Line {
            content: content(bytes, run),
            length: run + 1,
        }
    }
}

/// What the bytes decide of the line at their front, behind so many bytes of the same input. Where they are the last ones,
/// a line without an end is decided too. No line feed is among the first that were seen.
#[tactic(auto, unfolding(crate::specs::Fronts::front_of))]
pub(crate) fn front_at(closed: bool, used: u64, bytes: &[u8], seen: usize) -> Front
    requires some { used + length bytes.now ≤ most_bytes + 1 }
    requires seen { seen ≤ lines_run bytes.now }
    ensures { result ≡ front_of closed used bytes.now }
{
    let run = run_of(bytes, seen);
    let judge = run.min(reach_of(bytes));
    if judge < bytes.len() {
        if used + (judge as u64) < most_bytes() {
            judged_line(bytes, run)
        } else {
            Front::Past
        }
    } else if used + bytes.len() as u64 > most_bytes() {
        Front::Past
    } else if closed {
        last(bytes)
    } else {
        Front::Open
    }
}
