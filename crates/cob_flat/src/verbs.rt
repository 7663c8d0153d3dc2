//! Statements that make a call.
ghost use Rattle.std.specs.Prelude.{◌≡◌, IfOk, IfSome, Some};
ghost use Rattle.cob_meaning.specs.Checked.{
  AreCheckedLines,
  IsCheckedEnding,
  IsCheckedIdentifier,
  IsCheckedIndicator,
  IsCheckedKey,
  IsInputCd,
  IsOutputCd,
};
ghost use Rattle.cob_meaning.specs.Layouts.{cd_of};
ghost use Rattle.cob_meaning.specs.Verbs.{accept, receive, send, switch_input, switch_output};
ghost use Rattle.cob_flat.specs.inner.Operands.{
  AreLinesOf,
  HasNumeral,
  IsAdvancementOf,
  IsEndOf,
  IsIndicatorOf,
  IsKeyOf,
  IsTextOf,
  IsVerbFor,
};

use crate::code::Verb;
use crate::names::Names;
use crate::operands::{Advancement, Amount, EndSource, KeySource, LinesSource, SendEnd, Spot};
use crate::resolve::{number, spot};
use cob_forms::Name;
use cob_proc::{Addend, Advancing, Ending, Identifier, Indicator, Key, Lines};
use std::alloc::AllocError;

/// The area of an input CD.
fn input_area(names: &Names, cd: &Name) -> u32
    requires { IsInputCd names.now cd.now }
    ensures { cd_of names.now cd.now ≡ Some result }
{
    // The name is that of a CD, so that there is an area.
    names.cd(cd).unwrap_or(0)
}

/// The area of an output CD.
fn output_area(names: &Names, cd: &Name) -> u32
    requires { IsOutputCd names.now cd.now }
    ensures { cd_of names.now cd.now ≡ Some result }
{
    // The name is that of a CD, so that there is an area.
    names.cd(cd).unwrap_or(0)
}

/// What a password is taken from.
#[tactic(auto, using(crate::proofs::Acting::has_numeral))]
fn key_source(names: &Names, key: &Key) -> Result<KeySource, AllocError>
    requires { IsCheckedKey names.now key.now }
    ensures { IfOk result (λ source. IsKeyOf names.now key.now source) }
{
    match key {
        Key::Item(identifier) => Ok(KeySource::Item(spot(names, identifier))),
        Key::Literal(literal) => Ok(KeySource::Literal(literal.characters.copy()?)),
    }
}

/// What is sent.
#[tactic(auto, using(crate::proofs::Acting::has_numeral))]
fn text_spot(names: &Names, from: &Option<Identifier>) -> Option<Spot>
    requires { IfSome from.now (IsCheckedIdentifier names.now) }
    ensures { IsTextOf names.now from.now result }
{
    match from {
        Some(identifier) => Some(spot(names, identifier)),
        None => None,
    }
}

/// How far is advanced.
#[tactic(auto, using(crate::proofs::Acting::has_numeral))]
fn lines_source(names: &Names, lines: &Lines) -> LinesSource
    requires { AreCheckedLines names.now lines.now }
    ensures { AreLinesOf names.now lines.now result }
{
    match lines {
        Lines::Count(Addend::Item(identifier)) => {
            LinesSource::Count(Amount::Item(spot(names, identifier)))
        }
        Lines::Count(Addend::Number(written)) => {
            LinesSource::Count(Amount::Number(number(written)))
        }
        Lines::Page => LinesSource::Page,
    }
}

/// How a text is advanced.
fn advancement(names: &Names, advancing: &Option<Advancing>) -> Option<Advancement>
    requires { IfSome advancing.now (λ advancing. AreCheckedLines names.now advancing.lines) }
    ensures { IsAdvancementOf names.now advancing.now result }
{
    match advancing {
        Some(advancing) => Some(Advancement {
            after: advancing.after,
            lines: lines_source(names, &advancing.lines),
        }),
        None => None,
    }
}

/// What a SEND ends, by its indicator.
#[tactic(auto, using(crate::proofs::Acting::has_numeral, crate::proofs::Asking::indicates_so))]
fn end_source(names: &Names, indicator: &Indicator) -> EndSource
    requires { IsCheckedIndicator names.now indicator.now }
    ensures { IsIndicatorOf names.now indicator.now result }
{
    match indicator {
        Indicator::Item(identifier) => EndSource::Item(spot(names, identifier)),
        Indicator::Esi => EndSource::Esi,
        Indicator::Emi => EndSource::Emi,
        Indicator::Egi => EndSource::Egi,
    }
}

/// What a SEND ends.
#[tactic(auto, using(crate::proofs::Asking::ends_so))]
fn send_end(names: &Names, ending: &Option<Ending>) -> Option<SendEnd>
    requires { IfSome ending.now (IsCheckedEnding names.now) }
    ensures { IsEndOf names.now ending.now result }
{
    match ending {
        Some(ending) => Some(SendEnd {
            end: end_source(names, &ending.indicator),
            advancement: advancement(names, &ending.advancing),
        }),
        None => None,
    }
}

/// RECEIVE.
#[tactic(auto, using(crate::proofs::Acting::has_numeral))]
pub(crate) fn receive_verb(
    names: &Names,
    cd: &Name,
    segment: bool,
    into: &Identifier,
    no_data: bool,
) -> Verb
    requires cd { IsInputCd names.now cd.now }
    requires into { IsCheckedIdentifier names.now into.now }
    ensures { IsVerbFor (receive names.now cd.now segment into.now no_data) result }
{
    Verb::Receive {
        area: input_area(names, cd),
        segment,
        into: spot(names, into),
        no_data,
    }
}

/// SEND.
pub(crate) fn send_verb(
    names: &Names,
    cd: &Name,
    from: &Option<Identifier>,
    ending: &Option<Ending>,
) -> Verb
    requires cd { IsOutputCd names.now cd.now }
    requires from { IfSome from.now (IsCheckedIdentifier names.now) }
    requires ending { IfSome ending.now (IsCheckedEnding names.now) }
    ensures { IsVerbFor (send names.now cd.now from.now ending.now) result }
{
    Verb::Send {
        area: output_area(names, cd),
        from: text_spot(names, from),
        ending: send_end(names, ending),
    }
}

/// ENABLE and DISABLE INPUT.
pub(crate) fn switch_input_verb(
    names: &Names,
    on: bool,
    terminal: bool,
    cd: &Name,
    key: &Key,
) -> Result<Verb, AllocError>
    requires cd { IsInputCd names.now cd.now }
    requires key { IsCheckedKey names.now key.now }
    ensures { IfOk result (IsVerbFor (switch_input names.now on terminal cd.now key.now)) }
{
    Ok(Verb::SwitchInput {
        on,
        terminal,
        area: input_area(names, cd),
        key: key_source(names, key)?,
    })
}

/// ENABLE and DISABLE OUTPUT.
pub(crate) fn switch_output_verb(
    names: &Names,
    on: bool,
    cd: &Name,
    key: &Key,
) -> Result<Verb, AllocError>
    requires cd { IsOutputCd names.now cd.now }
    requires key { IsCheckedKey names.now key.now }
    ensures { IfOk result (IsVerbFor (switch_output names.now on cd.now key.now)) }
{
    Ok(Verb::SwitchOutput {
        on,
        area: output_area(names, cd),
        key: key_source(names, key)?,
    })
}

/// ACCEPT.
pub(crate) fn accept_verb(names: &Names, cd: &Name) -> Verb
    requires { IsInputCd names.now cd.now }
    ensures { IsVerbFor (accept names.now cd.now) result }
{
    Verb::Accept {
        area: input_area(names, cd),
    }
}
