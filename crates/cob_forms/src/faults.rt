//! The first of several faults.
ghost use Rattle.std.specs.Prelude.{◌≡◌, ◌≤◌, Some, drop, length, take};
ghost use Rattle.cob_lex.specs.declared.fault.SourceKind.TheVariants.{WantedWord};
ghost use Rattle.cob_forms.specs.Faults.{at_first, before_wanted, earlier, fault, first, is_before, noted, rank};

use cob_lex::{SourceFault, SourceKind, Token};

/// A fault at a token.
pub fn fault_at(token: &Token, kind: SourceKind) -> SourceFault
    ensures { result ≡ fault token.now.line token.now.column kind }
{
    SourceFault {
        line: token.line,
        column: token.column,
        kind,
    }
}

/// How many tokens stand before the place where another is wanted, by how many are left there.
fn count_before(tokens: &[Token], left: usize) -> usize
    ensures value { result ≡ before_wanted tokens.now left }
    ensures within { result ≤ length tokens.now }
{
    if left == 0 {
        return tokens.len().saturating_sub(1);
    }
    tokens.len().saturating_sub(left)
}

/// That another word or sign is wanted at the first of some tokens.
fn wanted_at(tokens: &[Token]) -> SourceFault
    ensures { result ≡ at_first WantedWord tokens.now }
{
    match tokens {
        [token, ..] => fault_at(token, SourceKind::WantedWord),
        [] => SourceFault {
            line: 1,
            column: 1,
            kind: SourceKind::WantedWord,
        },
    }
}

/// The tokens before the place where another is wanted, by how many are left there, and the fault that it is
/// wanted.
pub fn split_wanted(tokens: &[Token], left: usize) -> (&[Token], SourceFault)
    ensures front { result.0.now ≡ take (before_wanted tokens.now left) tokens.now }
    ensures wanted { result.1 ≡ at_first WantedWord (drop (before_wanted tokens.now left) tokens.now) }
{
    let (front, behind) = tokens.split_at(count_before(tokens, left));
    (front, wanted_at(behind))
}

/// A fault at a token, where there is one.
pub fn noted(is_fault: bool, kind: SourceKind, token: &Token) -> Option<SourceFault>
    ensures { result ≡ first (noted is_fault kind token.now) }
{
    if is_fault {
        return Some(fault_at(token, kind));
    }
    None
}

/// The order of kinds at one place.
fn rank(kind: SourceKind) -> u8
    ensures { result ≡ rank kind }
{
    match kind {
        SourceKind::BadCharacter => 0,
        SourceKind::BadColumn => 1,
        SourceKind::BadWord => 2,
        SourceKind::BadPicture => 3,
        SourceKind::WantedWord => 4,
        SourceKind::TwiceDeclared => 5,
        SourceKind::UnknownName => 6,
        SourceKind::WrongKind => 7,
        SourceKind::WrongLength => 8,
        SourceKind::LeavesRange => 9,
        SourceKind::PerformsItself => 10,
        SourceKind::TwoInitial => 11,
        SourceKind::OverLimit => 12,
    }
}

/// Whether a fault stands before another: in an earlier line, or column, or of an earlier kind.
pub fn is_before(fault: &SourceFault, other: &SourceFault) -> bool
    ensures { result ≡ is_before fault.now other.now }
{
    if fault.line != other.line {
        return fault.line < other.line;
    }
    if fault.column != other.column {
        return fault.column < other.column;
    }
    rank(fault.kind) < rank(other.kind)
}

/// The first of two faults, where there are any.
pub fn first_of(fault: Option<SourceFault>, other: Option<SourceFault>) -> Option<SourceFault>
    ensures { result ≡ earlier fault other }
{
    match (fault, other) {
        (None, _) => other,
        (Some(_), None) => fault,
        (Some(here), Some(there)) => {
            if is_before(&there, &here) {
                other
            } else {
                fault
            }
        }
    }
}

/// The first of a fault and another, where there is another.
pub fn first_with(fault: SourceFault, other: Option<SourceFault>) -> SourceFault
    ensures { earlier (Some fault) other ≡ Some result }
{
    match other {
        Some(there) if is_before(&there, &fault) => there,
        _ => fault,
    }
}
