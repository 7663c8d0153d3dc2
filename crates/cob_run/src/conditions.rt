//! Conditions. None is a stop for DATA.
ghost use Rattle.std.specs.Prelude.{◌≡◌, ◌≤◌, length, option_map};
ghost use Rattle.std.specs.List.{AllByRecursion, list_all, list_any};
ghost use Rattle.cob_meaning.specs.Conditions.{
  character_order,
  compared,
  is_relation,
  number_order,
  number_relation,
  own_length,
};
ghost use Rattle.cob_flat.specs.Effects.{holds_by, part_by, parts_by};
ghost use Rattle.cob_run.specs.Within.{IsPartIn, IsTestIn, sizes};
ghost use Rattle.cob_run.specs.inner.Contents.{IsReadable, shown};

use crate::area::Area;
use crate::content::{Content, character_at, own_length};
use crate::fields::{are_digits, number_in};
use crate::operands::{content, held, item};
use cob_flat::{SimpleTest, Test};
use cob_proc::{Joint, Relation};

/// How two numbers compare.
fn number_relation(left: u64, right: u64) -> Relation
    ensures { result ≡ number_relation left right }
{
    if left < right {
        Relation::Less
    } else if right < left {
        Relation::Greater
    } else {
        Relation::Equal
    }
}

/// How the numbers that digits write compare.
fn number_order(left: &[u8], right: &[u8]) -> Option<Relation>
    requires left { length left.now ≤ 18 }
    requires right { length right.now ≤ 18 }
    ensures { result ≡ number_order left.now right.now }
{
    let left = number_in(left)?;
    let right = number_in(right)?;
    Some(number_relation(left, right))
}

/// How two sides compare by characters, the shorter one filled with spaces.
fn character_order(left: Content, right: Content) -> Relation
    ensures { result ≡ character_order (shown left.entry) (shown right.entry) }
{
    let left_length = own_length(left);
    let right_length = own_length(right);
    for at in 0..left_length.max(right_length) {
        let one = character_at(left, right_length, at);
        let other = character_at(right, left_length, at);
        if one < other {
            return Relation::Less;
        }
        if other < one {
            return Relation::Greater;
        }
    }
    Relation::Equal
}

/// How two sides compare.
fn compare(left: Content, right: Content) -> Option<Relation>
    requires left { IsReadable (shown left) }
    requires right { IsReadable (shown right) }
    ensures { result ≡ compared (shown left.entry) (shown right.entry) }
{
    match (left, right) {
        (Content::Number(left), Content::Number(right)) => number_order(left, right),
        (Content::Number(left), Content::Zeros) => number_order(left, b"0"),
        (Content::Zeros, Content::Number(right)) => number_order(b"0", right),
        (left, right) => Some(character_order(left, right)),
    }
}

/// Whether two relations are the same.
fn is_relation(found: Relation, relation: Relation) -> bool
    ensures { result ≡ is_relation found relation }
{
    found == relation
}

/// Whether a simple condition holds.
fn part_holds(areas: &[Area], part: &SimpleTest) -> Option<bool>
    requires { IsPartIn (sizes areas.now) part.now }
    ensures { result ≡ part_by part.now areas.now }
{
    match part {
        SimpleTest::Compares {
            left,
            denied,
            relation,
            right,
        } => {
            let one = content(areas, left)?;
            let other = content(areas, right)?;
            let found = compare(one, other)?;
            Some(is_relation(found, *relation) != *denied)
        }
        SimpleTest::Numeric { spot, denied } => {
            let item = item(areas, *spot)?;
            Some(are_digits(held(areas, item)) != *denied)
        }
    }
}

/// Whether all parts hold. Each is evaluated, also if one before it does not hold.
fn all_hold(areas: &[Area], parts: &[SimpleTest]) -> Option<bool>
    requires { AllByRecursion (IsPartIn (sizes areas.now)) parts.now }
    ensures { result ≡ option_map (list_all (λ holds. holds)) (parts_by parts.now areas.now) }
{
    let mut all = true;
    'parts: for part in parts {
        let holds = part_holds(areas, part)?;
        all = all && holds;
    }
    Some(all)
}

/// Whether some part holds. Each is evaluated, also if one before it holds.
fn any_holds(areas: &[Area], parts: &[SimpleTest]) -> Option<bool>
    requires { AllByRecursion (IsPartIn (sizes areas.now)) parts.now }
    ensures { result ≡ option_map (list_any (λ holds. holds)) (parts_by parts.now areas.now) }
{
    let mut any = false;
    'parts: for part in parts {
        let holds = part_holds(areas, part)?;
        any = any || holds;
    }
    Some(any)
}

/// Whether a condition holds.
pub(crate) fn holds(areas: &[Area], test: &Test) -> Option<bool>
    requires { IsTestIn (sizes areas.now) test.now }
    ensures { result ≡ holds_by test.now areas.now }
{
    match test.joint {
        Joint::Or => any_holds(areas, test.parts.as_slice()),
        Joint::And | Joint::Alone => all_hold(areas, test.parts.as_slice()),
    }
}
