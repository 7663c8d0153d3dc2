//! Sorts of characters of a source.
ghost use Rattle.std.specs.Prelude.{◌≡◌, take_while};
ghost use Rattle.cob_lex.specs.Characters.{is_word_byte, is_no_space, is_separator, is_spacing, space_next, without_last, is_return};

/// Returns whether a byte is a letter A to Z, a digit or a hyphen.
pub(crate) fn is_word_byte(byte: u8) -> bool
    ensures { result ≡ is_word_byte byte }
{
    matches!(byte, b'A'..=b'Z' | b'0'..=b'9' | b'-')
}

/// Returns whether a space or the end of the line comes next.
pub(crate) fn space_next(rest: &[u8]) -> bool
    ensures { result ≡ space_next rest.now }
{
    matches!(rest, [] | [b' ', ..])
}

/// Returns whether a byte, with the rest after it, only stands between tokens.
pub(crate) fn is_spacing(byte: u8, rest: &[u8]) -> bool
    ensures { result ≡ is_spacing byte rest.now }
{
    byte == b' ' || matches!(byte, b',' | b';') && space_next(rest)
}

/// Returns the longest run of letters, digits and hyphens at the front.
pub(crate) fn word_run(bytes: &[u8]) -> &[u8]
    ensures { result.now ≡ take_while is_word_byte bytes.now }
{
    let length = bytes
        .iter()
        .position(|byte| !is_word_byte(*byte))
        .unwrap_or(bytes.len());
    &bytes[..length]
}

/// Returns the run up to a space or the end of the line.
pub(crate) fn run_to_space(bytes: &[u8]) -> &[u8]
    ensures { result.now ≡ take_while is_no_space bytes.now }
{
    let length = bytes
        .iter()
        .position(|byte| *byte == b' ')
        .unwrap_or(bytes.len());
    &bytes[..length]
}

/// Returns the bytes without a CR at their end.
pub(crate) fn without_return(bytes: &[u8]) -> &[u8]
    ensures { result.now ≡ without_last is_return bytes.now }
{
    match bytes {
        [front @ .., b'\r'] => front,
        _ => bytes,
    }
}

/// Returns the bytes without a period, comma or semicolon at their end.
pub(crate) fn without_separator(bytes: &[u8]) -> &[u8]
    ensures { result.now ≡ without_last is_separator bytes.now }
{
    match bytes {
        [front @ .., b'.' | b',' | b';'] => front,
        _ => bytes,
    }
}
