//! Words and numbers.
ghost use Rattle.std.specs.Prelude.{◌≡◌, bytes_eq, codes};
ghost use Rattle.std.specs.List.{list_all, list_any};
ghost use Rattle.com_text.specs.Name.{is_letter, is_digit};
ghost use Rattle.cob_lex.specs.Lines.{heads_comment};
ghost use Rattle.cob_lex.specs.Fronts.{is_hyphen_free, is_number, is_picture_word, is_word};

use com_text::MAX_DIGITS;

/// The characters that a word may have.
const MAX_WORD: usize = 30;

/// Returns whether a run of letters, digits and hyphens is a word.
pub(crate) fn is_word(run: &[u8]) -> bool
    ensures { result ≡ is_word run.now }
{
    has_letter(run) && run.len() <= MAX_WORD && is_hyphen_free(run)
}

/// Returns whether a run is a number.
pub(crate) fn is_number(run: &[u8]) -> bool
    ensures { result ≡ is_number run.now }
{
    has_digits(run) && run.len() <= MAX_DIGITS
}

/// Returns whether there is a letter in a run.
fn has_letter(run: &[u8]) -> bool
    ensures { result ≡ list_any is_letter run.now }
{
    run.iter().any(|byte| byte.is_ascii_uppercase())
}

/// Returns whether a run has digits alone.
fn has_digits(run: &[u8]) -> bool
    ensures { result ≡ list_all is_digit run.now }
{
    run.iter().all(|byte| byte.is_ascii_digit())
}

/// Returns whether a word is PIC or PICTURE.
pub(crate) fn is_picture_word(word: &[u8]) -> bool
    ensures { result ≡ is_picture_word word.now }
{
    word == b"PIC".as_slice() || word == b"PICTURE".as_slice()
}

/// Returns whether a word heads a comment-entry.
pub(crate) fn heads_comment(word: &[u8]) -> bool
    ensures { result ≡ heads_comment word.now }
{
    word == b"AUTHOR".as_slice()
        || word == b"INSTALLATION".as_slice()
        || word == b"DATE-WRITTEN".as_slice()
        || word == b"DATE-COMPILED".as_slice()
        || word == b"SECURITY".as_slice()
}

/// Returns whether a run neither begins nor ends with a hyphen.
fn is_hyphen_free(run: &[u8]) -> bool
    ensures { result ≡ is_hyphen_free run.now }
{
    !matches!(run, [b'-', ..] | [.., b'-'])
}

/// Returns whether a word is IS.
pub(crate) fn is_is(word: &[u8]) -> bool
    ensures { result ≡ bytes_eq word.now (codes "IS") }
{
    word == b"IS".as_slice()
}
