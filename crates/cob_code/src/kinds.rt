//! Names and kinds: which names a statement may use where, and how long items are.
ghost use Rattle.std.specs.Prelude.{◌≡◌, ◌++◌, ◌&&◌, [], flat_map, length, map, nat_le};
ghost use Rattle.cob_lex.specs.declared.fault.SourceKind.TheVariants.{WrongKind, WrongLength};
ghost use Rattle.cob_proc.specs.Trees.{moves, paragraph_tree};
ghost use Rattle.std.specs.List.{list_any};
ghost use Rattle.cob_forms.specs.Faults.{first};
ghost use Rattle.cob_meaning.specs.Names.{addend_faults, advancing_faults, condition_faults, ending_faults, fault_at, fault_unless, identifier_faults, indicator_faults, input_faults, is_number_operand, is_numeric, is_single, key_faults, lines_faults, names_number, operand_faults, output_faults, paragraph_faults, plain_faults, repetition_faults, simple_faults, some_identifier_faults, some_paragraph_faults, spaces_faults, subscript_faults, subscript_position, subscripted_faults};
ghost use Rattle.cob_code.specs.inner.Rules.{input_by, number_by, output_by, rule_by, rule_of, shape_by, subscript_item_faults};
ghost use Rattle.cob_code.specs.inner.Statements.{own_faults};
ghost use Rattle.cob_code.specs.inner.Written.{written};

use crate::digits::{is_at_most, is_between};
use crate::names::Names;
use crate::paragraphs::Paragraphs;
use crate::referent::{ItemRule, Referent, Shape};
use cob_data::ItemSort;
use cob_forms::{Literal, Name, Position, first_of};
use cob_lex::{SourceFault, SourceKind};
use cob_proc::{
    Addend, Advancing, Condition, Ending, Identifier, Indicator, Key, Lines, Operand, Repetition,
    Simple, Statement, Subscript,
};
use com_events::MAX_KEY_LENGTH;
use com_msg::MAX_LINES;

/// The fault at a place.
pub(crate) fn fault_at(position: Position, kind: SourceKind) -> SourceFault
    ensures { result ≡ fault_at position kind }
{
    SourceFault {
        line: position.line,
        column: position.column,
        kind,
    }
}

/// A fault, unless something holds.
pub(crate) fn fault_unless(holds: bool, position: Position, kind: SourceKind) -> Option<SourceFault>
    ensures { result ≡ first (fault_unless holds position kind) }
{
    if holds {
        return None;
    }
    Some(fault_at(position, kind))
}

/// Whether items of a sort are numbers.
fn is_numeric(sort: ItemSort) -> bool
    ensures { result ≡ is_numeric sort }
{
    match sort {
        ItemSort::Numeric => true,
        ItemSort::Alphanumeric | ItemSort::Group => false,
    }
}

/// The fault of an item by a rule.
fn rule_fault(rule: ItemRule, position: Position, shape: Shape) -> Option<SourceFault>
    ensures { result ≡ first (rule_by rule position shape.length shape.sort) }
{
    match rule {
        ItemRule::Any => None,
        ItemRule::Numeric => {
            fault_unless(is_numeric(shape.sort), position, SourceKind::WrongKind)
        }
        ItemRule::OfLength(least, most) => {
            let fits = least <= shape.length && shape.length <= most;
            fault_unless(fits, position, SourceKind::WrongLength)
        }
    }
}

/// The shape of data, or the fault of a name that is wanted for data.
fn shape_of(referent: Option<Referent>, position: Position) -> Result<Shape, SourceFault>
    ensures { result ≡ shape_by referent position }
{
    match referent {
        None => Err(fault_at(position, SourceKind::UnknownName)),
        Some(Referent::Item(shape)) => Ok(shape),
        Some(Referent::InputCd) | Some(Referent::OutputCd) => {
            Err(fault_at(position, SourceKind::WrongKind))
        }
    }
}

/// The fault of an item that holds the number of an occurrence.
fn subscript_item_fault(names: &Names, name: &Name) -> Option<SourceFault>
    ensures { result ≡ first (subscript_item_faults names.now name.now) }
{
    match shape_of(names.referent(name), name.position) {
        Err(fault) => Some(fault),
        Ok(shape) => single_number_fault(shape, name.position),
    }
}

/// The fault of an item that is no number or occurs in a table.
fn single_number_fault(shape: Shape, position: Position) -> Option<SourceFault>
    ensures { result ≡ first (fault_unless (is_single shape.occurs && is_numeric shape.sort) position WrongKind) }
{
    let fits = shape.occurs.is_none() && is_numeric(shape.sort);
    fault_unless(fits, position, SourceKind::WrongKind)
}

/// The fault of a subscript of a table.
fn subscript_fault(names: &Names, occurs: u32, subscript: &Subscript) -> Option<SourceFault>
    ensures { result ≡ first (subscript_faults names.now occurs subscript.now) }
{
    match subscript {
        Subscript::Number { number, .. } => {
            let fits = is_between(number, 1, occurs);
            fault_unless(fits, number.position, SourceKind::WrongKind)
        }
        Subscript::Item { name, .. } => subscript_item_fault(names, name),
    }
}

/// The place of a subscript's parenthesis.
fn subscript_position(subscript: &Subscript) -> Position
    ensures { result ≡ subscript_position subscript.now }
{
    match subscript {
        Subscript::Number { position, .. } | Subscript::Item { position, .. } => *position,
    }
}

/// The fault of a subscript that is written or is not.
fn subscripted_fault(
    names: &Names,
    position: Position,
    occurs: Option<u32>,
    subscript: &Option<Subscript>,
) -> Option<SourceFault>
    ensures { result ≡ first (subscripted_faults names.now position occurs subscript.now) }
{
    match (occurs, subscript) {
        (None, None) => None,
        (None, Some(subscript)) => {
            let place = subscript_position(subscript);
            Some(fault_at(place, SourceKind::WrongKind))
        }
        (Some(_), None) => Some(fault_at(position, SourceKind::WrongKind)),
        (Some(occurs), Some(subscript)) => subscript_fault(names, occurs, subscript),
    }
}

/// The fault of an item that is named, by a rule.
fn shape_fault(
    names: &Names,
    rule: ItemRule,
    identifier: &Identifier,
    shape: Shape,
) -> Option<SourceFault>
    ensures { result ≡ first (rule_by rule identifier.now.name.position shape.length shape.sort ++ subscripted_faults names.now identifier.now.name.position shape.occurs identifier.now.subscript) }
{
    let position = identifier.name.position;
    let ruled = rule_fault(rule, position, shape);
    let subscript = subscripted_fault(names, position, shape.occurs, &identifier.subscript);
    first_of(ruled, subscript)
}

/// The fault of an identifier, with a rule for its item.
fn identifier_fault(names: &Names, rule: ItemRule, identifier: &Identifier) -> Option<SourceFault>
    ensures { result ≡ first (identifier_faults names.now (rule_of rule) identifier.now) }
{
    match shape_of(names.referent(&identifier.name), identifier.name.position) {
        Err(fault) => Some(fault),
        Ok(shape) => shape_fault(names, rule, identifier, shape),
    }
}

/// The fault of what is added, subtracted or counted.
fn addend_fault(names: &Names, addend: &Addend) -> Option<SourceFault>
    ensures { result ≡ first (addend_faults names.now addend.now) }
{
    match addend {
        Addend::Item(identifier) => identifier_fault(names, ItemRule::Numeric, identifier),
        Addend::Number(_) => None,
    }
}

/// The fault of what is moved or compared.
fn operand_fault(names: &Names, operand: &Operand) -> Option<SourceFault>
    ensures { result ≡ first (operand_faults names.now operand.now) }
{
    match operand {
        Operand::Item(identifier) => identifier_fault(names, ItemRule::Any, identifier),
        Operand::Literal(_) | Operand::Number(_) | Operand::Spaces(_) | Operand::Zeros(_) => None,
    }
}

/// Whether a name stands for a numeric item.
fn is_number(referent: Option<Referent>) -> bool
    ensures { result ≡ number_by referent }
{
    match referent {
        Some(Referent::Item(shape)) => is_numeric(shape.sort),
        None | Some(Referent::InputCd) | Some(Referent::OutputCd) => false,
    }
}

/// Whether an identifier names a numeric item.
fn names_number(names: &Names, identifier: &Identifier) -> bool
    ensures { result ≡ names_number names.now identifier.now }
{
    is_number(names.referent(&identifier.name))
}

/// Whether an operand is a numeric item.
fn is_number_operand(names: &Names, operand: &Operand) -> bool
    ensures { result ≡ is_number_operand names.now operand.now }
{
    match operand {
        Operand::Item(identifier) => names_number(names, identifier),
        Operand::Literal(_) | Operand::Number(_) | Operand::Spaces(_) | Operand::Zeros(_) => false,
    }
}

/// The fault of SPACES beside a numeric item.
fn spaces_fault(operand: &Operand, beside_number: bool) -> Option<SourceFault>
    ensures { result ≡ first (spaces_faults operand.now beside_number) }
{
    match operand {
        Operand::Spaces(position) => {
            fault_unless(!beside_number, *position, SourceKind::WrongKind)
        }
        Operand::Item(_) | Operand::Literal(_) | Operand::Number(_) | Operand::Zeros(_) => None,
    }
}

/// The fault of a comparison.
#[tactic(auto, using(crate::proofs::Joined::of_four))]
fn comparison_fault(names: &Names, left: &Operand, right: &Operand) -> Option<SourceFault>
    ensures { result ≡ first (operand_faults names.now left.now ++ operand_faults names.now right.now
        ++ spaces_faults left.now (is_number_operand names.now right.now) ++ spaces_faults right.now (is_number_operand names.now left.now)) }
{
    let of_left = operand_fault(names, left);
    let of_right = operand_fault(names, right);
    let left_spaces = spaces_fault(left, is_number_operand(names, right));
    let right_spaces = spaces_fault(right, is_number_operand(names, left));
    first_of(
        first_of(first_of(of_left, of_right), left_spaces),
        right_spaces,
    )
}

/// The fault of a simple condition.
fn simple_fault(names: &Names, simple: &Simple) -> Option<SourceFault>
    ensures { result ≡ first (simple_faults names.now simple.now) }
{
    match simple {
        Simple::Compares { left, right, .. } => comparison_fault(names, left, right),
        Simple::Numeric { item, .. } => identifier_fault(names, ItemRule::Any, item),
    }
}

/// The first fault of a condition.
fn condition_fault(names: &Names, condition: &Condition) -> Option<SourceFault>
    ensures { result ≡ first (condition_faults names.now condition.now) }
{
    let mut found = None;
    'parts: for simple in condition.parts.as_slice() {
        found = first_of(found, simple_fault(names, simple));
    }
    found
}

/// The fault of a name that is wanted for an input CD.
fn input_fault_of(referent: Option<Referent>, position: Position) -> Option<SourceFault>
    ensures { result ≡ input_by referent position }
{
    match referent {
        None => Some(fault_at(position, SourceKind::UnknownName)),
        Some(Referent::InputCd) => None,
        Some(Referent::OutputCd) | Some(Referent::Item(_)) => {
            Some(fault_at(position, SourceKind::WrongKind))
        }
    }
}

/// The fault of the name of an input CD.
fn input_fault(names: &Names, cd: &Name) -> Option<SourceFault>
    ensures { result ≡ first (input_faults names.now cd.now) }
{
    input_fault_of(names.referent(cd), cd.position)
}

/// The fault of a name that is wanted for an output CD.
fn output_fault_of(referent: Option<Referent>, position: Position) -> Option<SourceFault>
    ensures { result ≡ output_by referent position }
{
    match referent {
        None => Some(fault_at(position, SourceKind::UnknownName)),
        Some(Referent::OutputCd) => None,
        Some(Referent::InputCd) | Some(Referent::Item(_)) => {
            Some(fault_at(position, SourceKind::WrongKind))
        }
    }
}

/// The fault of the name of an output CD.
fn output_fault(names: &Names, cd: &Name) -> Option<SourceFault>
    ensures { result ≡ first (output_faults names.now cd.now) }
{
    output_fault_of(names.referent(cd), cd.position)
}

/// The fault of a key.
fn key_fault(names: &Names, key: &Key) -> Option<SourceFault>
    ensures { result ≡ first (key_faults names.now key.now) }
{
    match key {
        Key::Item(identifier) => {
            let rule = ItemRule::OfLength(1, MAX_KEY_LENGTH as u32);
            identifier_fault(names, rule, identifier)
        }
        Key::Literal(literal) => literal_key_fault(literal),
    }
}

/// The fault of a key that is written.
fn literal_key_fault(literal: &Literal) -> Option<SourceFault>
    ensures { result ≡ first (fault_unless (nat_le 1 (length literal.now.characters) && nat_le (length literal.now.characters) MAX_KEY_LENGTH) literal.now.position WrongLength) }
{
    let length = literal.characters.as_bytes().len();
    let fits = 1 <= length && length <= MAX_KEY_LENGTH;
    fault_unless(fits, literal.position, SourceKind::WrongLength)
}

/// The fault of an identifier, if there is one.
fn some_identifier_fault(names: &Names, identifier: &Option<Identifier>) -> Option<SourceFault>
    ensures { result ≡ first (some_identifier_faults names.now identifier.now) }
{
    match identifier {
        Some(identifier) => identifier_fault(names, ItemRule::Any, identifier),
        None => None,
    }
}

/// The fault of what a SEND ends.
fn indicator_fault(names: &Names, indicator: &Indicator) -> Option<SourceFault>
    ensures { result ≡ first (indicator_faults names.now indicator.now) }
{
    match indicator {
        Indicator::Item(identifier) => {
            identifier_fault(names, ItemRule::OfLength(1, 1), identifier)
        }
        Indicator::Esi | Indicator::Emi | Indicator::Egi => None,
    }
}

/// The fault of a number of lines.
fn lines_fault(names: &Names, lines: &Lines) -> Option<SourceFault>
    ensures { result ≡ first (lines_faults names.now lines.now) }
{
    match lines {
        Lines::Count(Addend::Number(number)) => {
            let fits = is_at_most(number, u32::from(MAX_LINES));
            fault_unless(fits, number.position, SourceKind::OverLimit)
        }
        Lines::Count(Addend::Item(identifier)) => {
            identifier_fault(names, ItemRule::Numeric, identifier)
        }
        Lines::Page => None,
    }
}

/// The fault of ADVANCING, if it is written.
fn advancing_fault(names: &Names, advancing: &Option<Advancing>) -> Option<SourceFault>
    ensures { result ≡ first (advancing_faults names.now advancing.now) }
{
    match advancing {
        Some(advancing) => lines_fault(names, &advancing.lines),
        None => None,
    }
}

/// The fault of the end of a SEND, if it is written.
#[tactic(auto, using(crate::proofs::Joined::of_two))]
fn ending_fault(names: &Names, ending: &Option<Ending>) -> Option<SourceFault>
    ensures { result ≡ first (ending_faults names.now ending.now) }
{
    match ending {
        Some(ending) => {
            let indicator = indicator_fault(names, &ending.indicator);
            first_of(indicator, advancing_fault(names, &ending.advancing))
        }
        None => None,
    }
}

/// The fault of the name of a paragraph.
fn paragraph_fault(text: &Paragraphs, name: &Name) -> Option<SourceFault>
    ensures { result ≡ first (paragraph_faults (map paragraph_tree text.now.paragraphs.now) name.now) }
{
    fault_unless(text.has(name), name.position, SourceKind::UnknownName)
}

/// The fault of the paragraph after THRU, if it is written.
fn some_paragraph_fault(text: &Paragraphs, name: &Option<Name>) -> Option<SourceFault>
    ensures { result ≡ first (some_paragraph_faults (map paragraph_tree text.now.paragraphs.now) name.now) }
{
    match name {
        Some(name) => paragraph_fault(text, name),
        None => None,
    }
}

/// The fault of how often a PERFORM goes through its range.
fn repetition_fault(names: &Names, repetition: &Repetition) -> Option<SourceFault>
    ensures { result ≡ first (repetition_faults names.now repetition.now) }
{
    match repetition {
        Repetition::Once => None,
        Repetition::Times(counted) => addend_fault(names, counted),
        Repetition::Until(condition) => condition_fault(names, condition),
    }
}

/// The first fault of the targets of a MOVE.
fn targets_fault(names: &Names, targets: &[Identifier]) -> Option<SourceFault>
    ensures { result ≡ first (flat_map (identifier_faults names.now (rule_of ItemRule.Any)) targets.now) }
{
    let mut found = None;
    'targets: for target in targets {
        found = first_of(found, identifier_fault(names, ItemRule::Any, target));
    }
    found
}

/// Whether a target of a MOVE is a numeric item.
fn any_number(names: &Names, targets: &[Identifier]) -> bool
    ensures { result ≡ list_any (names_number names.now) targets.now }
{
    'targets: for target in targets {
        if names_number(names, target) {
            return true;
        }
    }
    false
}

/// The first fault of a MOVE.
#[tactic(auto, using(crate::proofs::Joined::of_three))]
fn move_fault(names: &Names, source: &Operand, targets: &[Identifier]) -> Option<SourceFault>
    ensures { result ≡ first (plain_faults names.now [] (moves source.now targets.now)) }
{
    let of_source = operand_fault(names, source);
    let of_targets = targets_fault(names, targets);
    let spaces = spaces_fault(source, any_number(names, targets));
    first_of(first_of(of_source, of_targets), spaces)
}

/// The first fault of an ADD or a SUBTRACT.
#[tactic(auto, using(crate::proofs::Joined::of_two))]
fn sum_fault(names: &Names, addend: &Addend, target: &Identifier) -> Option<SourceFault>
    ensures { result ≡ first (addend_faults names.now addend.now ++ identifier_faults names.now (rule_of ItemRule.Numeric) target.now) }
{
    let of_addend = addend_fault(names, addend);
    first_of(
        of_addend,
        identifier_fault(names, ItemRule::Numeric, target),
    )
}

/// The first fault of a PERFORM.
#[tactic(auto, using(crate::proofs::Joined::of_three))]
fn perform_fault(
    names: &Names,
    text: &Paragraphs,
    begin: &Name,
    last: &Option<Name>,
    repetition: &Repetition,
) -> Option<SourceFault>
    ensures { result ≡ first (paragraph_faults (map paragraph_tree text.now.paragraphs.now) begin.now ++ some_paragraph_faults (map paragraph_tree text.now.paragraphs.now) last.now ++ repetition_faults names.now repetition.now) }
{
    let of_first = paragraph_fault(text, begin);
    let of_last = some_paragraph_fault(text, last);
    let of_repetition = repetition_fault(names, repetition);
    first_of(first_of(of_first, of_last), of_repetition)
}

/// The first fault of a RECEIVE apart from its NO DATA.
#[tactic(auto, using(crate::proofs::Joined::of_two))]
fn receive_fault(names: &Names, cd: &Name, into: &Identifier) -> Option<SourceFault>
    ensures { result ≡ first (input_faults names.now cd.now ++ identifier_faults names.now (rule_of ItemRule.Any) into.now) }
{
    let of_cd = input_fault(names, cd);
    first_of(of_cd, identifier_fault(names, ItemRule::Any, into))
}

/// The first fault of a SEND.
#[tactic(auto, using(crate::proofs::Joined::of_three))]
fn send_fault(
    names: &Names,
    cd: &Name,
    from: &Option<Identifier>,
    ending: &Option<Ending>,
) -> Option<SourceFault>
    ensures { result ≡ first (output_faults names.now cd.now ++ some_identifier_faults names.now from.now ++ ending_faults names.now ending.now) }
{
    let of_cd = output_fault(names, cd);
    let of_from = some_identifier_fault(names, from);
    first_of(first_of(of_cd, of_from), ending_fault(names, ending))
}

/// The first fault of ENABLE or DISABLE INPUT.
#[tactic(auto, using(crate::proofs::Joined::of_two))]
fn switch_input_fault(names: &Names, cd: &Name, key: &Key) -> Option<SourceFault>
    ensures { result ≡ first (input_faults names.now cd.now ++ key_faults names.now key.now) }
{
    let of_cd = input_fault(names, cd);
    first_of(of_cd, key_fault(names, key))
}

/// The first fault of ENABLE or DISABLE OUTPUT.
#[tactic(auto, using(crate::proofs::Joined::of_two))]
fn switch_output_fault(names: &Names, cd: &Name, key: &Key) -> Option<SourceFault>
    ensures { result ≡ first (output_faults names.now cd.now ++ key_faults names.now key.now) }
{
    let of_cd = output_fault(names, cd);
    first_of(of_cd, key_fault(names, key))
}

/// The first fault of a statement apart from those in it.
pub(crate) fn own_fault(
    names: &Names,
    text: &Paragraphs,
    statement: &Statement,
) -> Option<SourceFault>
    ensures { result ≡ first (own_faults names.now (map paragraph_tree text.now.paragraphs.now) (written statement.now)) }
{
    match statement {
        Statement::Move { source, targets } => move_fault(names, source, targets.as_slice()),
        Statement::Add { addend, target } | Statement::Subtract { addend, target } => {
            sum_fault(names, addend, target)
        }
        Statement::If { condition, .. } => condition_fault(names, condition),
        Statement::Perform {
            first,
            last,
            repetition,
        } => perform_fault(names, text, first, last, repetition),
        Statement::Go { target } => paragraph_fault(text, target),
        Statement::Exit | Statement::Stop => None,
        Statement::Receive { cd, into, .. } => receive_fault(names, cd, into),
        Statement::Send { cd, from, ending } => send_fault(names, cd, from, ending),
        Statement::SwitchInput { cd, key, .. } => switch_input_fault(names, cd, key),
        Statement::SwitchOutput { cd, key, .. } => switch_output_fault(names, cd, key),
        Statement::Accept { cd } => input_fault(names, cd),
    }
}
