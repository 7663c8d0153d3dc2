//! Faults of tokens by themselves.
ghost use Rattle.std.specs.Prelude.{◌≡◌, ◌&&◌, is_none};
ghost use Rattle.cob_forms.specs.Faults.{first};
ghost use Rattle.cob_forms.specs.Sorts.{is, of_kind};
ghost use Rattle.cob_lex.specs.declared.token.TokenKind.TheVariants as kinds;
ghost use Rattle.cob_data.specs.Faults.{bad_pictures};
ghost use Rattle.cob_data.specs.Pictures.{size_of};

use crate::pictures::size_of;
use cob_forms::{first_of, is_kind, noted};
use cob_lex::{SourceFault, SourceKind, Token, TokenKind};

/// Whether a token is a picture that is not well formed.
fn is_bad_picture(token: &Token) -> bool
    ensures { result ≡ (is (of_kind kinds.Picture) token.now && is_none (size_of token.now.text)) }
{
    is_kind(token, TokenKind::Picture) && size_of(token.text.as_bytes()).is_none()
}

/// The first picture that is not well formed.
pub(crate) fn first_bad_picture(tokens: &[Token]) -> Option<SourceFault>
    ensures { result ≡ first (bad_pictures tokens.now) }
{
    let mut found = None;
    'tokens: for token in tokens {
        let is_bad = is_bad_picture(token);
        found = first_of(found, noted(is_bad, SourceKind::BadPicture, token));
    }
    found
}
