//! Tokens in the wrong area of their line.
ghost use Rattle.std.specs.Prelude.{◌≡◌, ◌&&◌, ◌==◌, List, Bool, [], ◌++◌, false, not, if◌then◌else◌};
ghost use Rattle.cob_forms.specs.Faults.{earlier, first, noted};
ghost use Rattle.cob_lex.specs.declared.fault.SourceKind.TheVariants.{BadColumn};
ghost use Rattle.cob_lex.specs.declared.token.Token.{Token};
ghost use Rattle.cob_data.specs.Faults.{bad_columns, column_faults, is_free, is_in_place, line_behind, begin_flags, wants_area_a};

use crate::entries::Entries;
use crate::entry::{is_level, rank_of};
use cob_forms::{first_of, in_area_a, is_kind, noted};
use cob_lex::{SourceFault, SourceKind, Token, TokenKind};

/// Whether a token that begins an entry has to stand in area A: the first word of a header, CD, and
/// the levels 01 and 77.
fn wants_area_a(token: &Token) -> bool
    ensures { result ≡ wants_area_a token.now }
{
    let text = token.text.as_bytes();
    !is_kind(token, TokenKind::Number) || is_level(text) && rank_of(text) == 1
}

/// Whether a token that begins an entry may stand in either area: the levels 02 to 49.
fn is_free(token: &Token) -> bool
    ensures { result ≡ is_free token.now }
{
    let text = token.text.as_bytes();
    is_kind(token, TokenKind::Number) && is_level(text) && rank_of(text) != 1
}

/// Whether a token stands in the area where it may, by whether it begins an entry, and by the line
/// of the last token before it that is in area A.
fn is_in_place(begins: bool, line: u32, token: &Token) -> bool
    ensures { result ≡ is_in_place begins line token.now }
{
    if begins && wants_area_a(token) {
        return in_area_a(token);
    }
    begins && is_free(token) || !in_area_a(token) || token.line == line
}

/// The line of the last token in area A, behind a token.
fn line_behind(line: u32, token: &Token) -> u32
    ensures { result ≡ line_behind line token.now }
{
    if in_area_a(token) { token.line } else { line }
}

/// The line of the last token in area A, and the first token so far that stands in the wrong area.
#[derive(Clone, Copy)]
struct Columns {
    line: u32,
    found: Option<SourceFault>,
}

impl Columns {
    /// Looks at a token, which begins an entry or not.
    fn pass(self, begins: bool, token: &Token) -> Columns
        ensures line { result.line ≡ line_behind self.line token.now }
        ensures found { result.found
            ≡ earlier self.found (first (noted (not (is_in_place begins self.line token.now)) BadColumn token.now)) }
    {
        let is_wrong = !is_in_place(begins, self.line, token);
        Columns {
            line: line_behind(self.line, token),
            found: first_of(self.found, noted(is_wrong, SourceKind::BadColumn, token)),
        }
    }

    /// Looks at the tokens of an entry, or of a word that the program chooses.
    fn pass_entry(self, is_chosen: bool, entry: &[Token]) -> Columns
        ensures { (others : List (Bool × Token))
            → earlier result.found (first (column_faults result.line others))
            ≡ earlier self.found (first (column_faults self.line (begin_flags is_chosen entry.now ++ others))) }
    {
        let mut columns = self;
        let mut begins = !is_chosen;
        'tokens: for token in entry {
            columns = columns.pass(begins, token);
            begins = false;
        }
        columns
    }
}

/// The first token in the wrong area.
pub(crate) fn first_bad_column(tokens: &[Token]) -> Option<SourceFault>
    ensures { result ≡ first (bad_columns tokens.now) }
{
    let mut columns = Columns {
        line: 0,
        found: None,
    };
    let mut entries = Entries::of(tokens);
    'entries: while let Some((is_chosen, entry)) = entries.next() {
        columns = columns.pass_entry(is_chosen, entry);
    }
    columns.found
}
