//! The lines of a text.

ghost use Rattle.std.specs.Prelude.{◌≡◌, ◌≢◌, ◌<◌, ◌≤◌, ◌==◌, ◌↔◌, [], ◌∷◌, length, position};
ghost use Rattle.std.specs.Prelude.{All, IsTrue, IsNone, IfNone, IfSome};
ghost use Rattle.text_parts.specs.Lines.{line_feed, raw_lines, IsCut, line_length, without_return};
ghost use Rattle.text_parts.specs.Lines.{is_blank, is_blank_line, first_solid};
ghost use Rattle.text_parts.specs.Lines.{IsComment, is_comment};

/// The first line of a text, with the carriage return that may stand at its end, and the text after
/// its line feed. `None` where the text is empty: it has no line.
pub fn split_line(text: &[u8]) -> Option<(&[u8], &[u8])>
    ensures none { IsNone result ↔ (text.now ≡ []) }
    ensures end { IfNone result (raw_lines text.now ≡ []) }
    ensures cut { IfSome result (λ r. IsCut text.now r.0.now r.1.now) }
    ensures first { IfSome result (λ r. raw_lines text.now ≡ r.0.now ∷ raw_lines r.1.now) }
    ensures shorter { IfSome result (λ r. length r.1.now < length text.now) }
    ensures within { IfSome result (λ r. length r.0.now ≤ length text.now) }
{
    if text.is_empty() {
        return None;
    }
    match first_feed(text) {
        Some(end) => Some((&text[..end], &text[end + 1..])),
        None => Some((text, &text[text.len()..])),
    }
}

/// How many bytes stand before the first line feed, or in all where there is none.
pub fn line_length(text: &[u8]) -> usize
    ensures { result ≡ line_length text.now }
{
    first_feed(text).unwrap_or(text.len())
}

/// Where the first line feed stands.
fn first_feed(text: &[u8]) -> Option<usize>
    ensures first { result ≡ position (λ byte. byte == line_feed) text.now }
    ensures none { IfNone result (All (λ byte. byte ≢ line_feed) text.now) }
{
    text.iter().position(|byte| *byte == b'\n')
}

/// The line without the one carriage return at its end, if it has one.
#[tactic(auto, unfolding(crate::specs::Lines::without_return))]
pub fn without_return(line: &[u8]) -> &[u8]
    ensures line { result.now ≡ without_return line.now }
    ensures shorter { length result.now ≤ length line.now }
{
    match line {
        [front @ .., b'\r'] => front,
        _ => line,
    }
}

/// Whether the byte is a space or a tab.
pub(crate) fn is_blank(byte: u8) -> bool
    ensures { result ≡ is_blank byte }
{
    byte == b' ' || byte == b'\t'
}

/// Whether the line holds nothing but spaces and tabs.
pub fn is_blank_line(line: &[u8]) -> bool
    ensures { result ≡ is_blank_line line.now }
{
    line.iter().all(|byte| is_blank(*byte))
}

/// Whether the first byte of the line that is no space and no tab is `#`.
pub fn is_comment(line: &[u8]) -> bool
    ensures exact { IsTrue result ↔ IsComment line.now }
    ensures test { result ≡ is_comment line.now }
{
    first_solid(line) == Some(b'#')
}

/// The first byte that is no space and no tab.
fn first_solid(line: &[u8]) -> Option<u8>
    ensures { result ≡ first_solid line.now }
{
    line.iter().copied().find(|byte| !is_blank(*byte))
}
