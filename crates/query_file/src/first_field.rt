//! The first field of a line.

ghost use Rattle.std.specs.Prelude.{◌≡◌, ◌∷◌, [], ◌<◌, ◌≤◌, ◌↔◌, not, length, IsNone, IfNone};
ghost use Rattle.std.specs.Prelude.{IfSome, ℕ, List};
ghost use Rattle.std.specs.List.{position, position_or_len};
ghost use Rattle.text_parts.specs.Lines.{is_blank};
ghost use Rattle.text_parts.specs.Fields.{fields, AreBlanks};
ghost use Rattle.query_file.specs.FirstField.{IsBehindBlanks, IsFirstField};

/// The first field of a line, which is the bytes up to a space or a tab, and what stands behind
/// it. `None` where the line has no field.
pub fn split_field(line: &[u8]) -> Option<(&[u8], &[u8])>
    ensures none { IsNone result ↔ AreBlanks line.now }
    ensures no_fields { IfNone result (fields line.now ≡ []) }
    ensures cut { IfSome result (λ r. IsFirstField line.now r.0.now r.1.now) }
    ensures first { IfSome result (λ r. fields line.now ≡ r.0.now ∷ fields r.1.now) }
    ensures shorter { IfSome result (λ r. length r.1.now < length line.now) }
    ensures not_first { IfNone result ((field rest : List ℕ) →
        ¬ (IsFirstField line.now field rest)) }
{
    let text = without_blanks(line);
    if text.is_empty() {
        return None;
    }
    let end = field_length(text);
    Some((&text[..end], &text[end..]))
}

/// The line without the spaces and tabs in front.
pub fn without_blanks(line: &[u8]) -> &[u8]
    ensures cut { IsBehindBlanks line.now result.now }
    ensures shorter { length result.now ≤ length line.now }
{
    let start = blanks_length(line);
    &line[start..]
}

/// How many spaces and tabs stand in front.
fn blanks_length(line: &[u8]) -> usize
    ensures length { result ≡ position_or_len (λ byte. not (is_blank byte)) line.now }
    ensures within { result ≤ length line.now }
{
    first_solid(line).unwrap_or(line.len())
}

/// How many bytes stand in front of the first space or tab.
fn field_length(text: &[u8]) -> usize
    ensures length { result ≡ position_or_len is_blank text.now }
    ensures within { result ≤ length text.now }
{
    first_blank(text).unwrap_or(text.len())
}

/// Where the first byte stands that is neither a space nor a tab.
fn first_solid(line: &[u8]) -> Option<usize>
    ensures first { result ≡ position (λ byte. not (is_blank byte)) line.now }
    ensures within { IfSome result (λ place. place < length line.now) }
{
    line.iter().position(|byte| !is_blank(*byte))
}

/// Where the first space or tab stands.
fn first_blank(text: &[u8]) -> Option<usize>
    ensures first { result ≡ position is_blank text.now }
    ensures within { IfSome result (λ place. place < length text.now) }
{
    text.iter().position(|byte| is_blank(*byte))
}

/// Whether the byte is a space or a tab.
fn is_blank(byte: u8) -> bool
    ensures { result ≡ is_blank byte }
{
    byte == b' ' || byte == b'\t'
}
