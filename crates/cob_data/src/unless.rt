//! A fault at a token, unless all is right there.
ghost use Rattle.std.specs.Prelude.{◌≡◌, option_map};
ghost use Rattle.cob_forms.specs.Faults.{first};
ghost use Rattle.cob_data.specs.Faults.{unless};

use cob_forms::fault_at;
use cob_lex::{SourceFault, SourceKind, Token};

/// A fault of this kind at the token, where there is one and not all is right.
pub(crate) fn unless(is_right: bool, kind: SourceKind, token: Option<&Token>) -> Option<SourceFault>
    ensures { result ≡ first (unless is_right kind (option_map (λ t. t.now) token.entry)) }
{
    match token {
        Some(token) if !is_right => Some(fault_at(token, kind)),
        _ => None,
    }
}
