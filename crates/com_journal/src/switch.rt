//! ENABLE and DISABLE.
ghost use Rattle.std.specs.Prelude.{◌≡◌, OnOk};
ghost use Rattle.com_text.specs.Counted.{IsCountable};
ghost use Rattle.com_journal.specs.Lines.{call_fields};
ghost use Rattle.com_journal.specs.inner.Writing.{written};
ghost use Rattle.com_journal.specs.inner.Outcomes.{Gives};
ghost use Rattle.com_journal.specs.inner.Reading.{switch_output_at, switch_input_at, input_at, switch_at};

use crate::line::{Line, Unread};
use crate::put::{put_field, put_word};
use crate::words::{input_of, input_word, switch_word};
use com_cd::{InArea, OutArea};
use com_events::{Call, MAX_KEY_LENGTH};
use com_text::{Rows, Text};
use std::alloc::{AllocError, Global};

/// Takes an ENABLE (`on`) or DISABLE, after its verb.
#[tactic(auto, unfolding(crate::specs::inner::Reading::switch_at))]
pub(crate) fn read_call(alloc: Global, on: bool, line: &mut Line<'_>) -> Result<Call, Unread>
    ensures { Gives (λ call. (call, line.new)) result (switch_at on line.old) }
{
    let word = line.word()?;
    if word == b"OUTPUT".as_slice() {
        return output(alloc, on, line);
    }
    input(alloc, on, word, line)
}

#[tactic(auto, unfolding(crate::specs::inner::Reading::switch_output_at))]
fn output(alloc: Global, on: bool, line: &mut Line<'_>) -> Result<Call, Unread>
    ensures { Gives (λ call. (call, line.new)) result (switch_output_at on line.old) }
{
    let key = line.text(alloc, 0, MAX_KEY_LENGTH)?;
    let area = line.out_area()?;
    Ok(Call::SwitchOutput { on, area, key })
}

/// INPUT or INPUT TERMINAL, after its word.
#[tactic(auto, unfolding(crate::specs::inner::Reading::input_at, crate::specs::inner::Reading::switch_input_at))]
fn input(alloc: Global, on: bool, word: &[u8], line: &mut Line<'_>) -> Result<Call, Unread>
    ensures { Gives (λ call. (call, line.new)) result (input_at on word.now line.old) }
{
    let terminal = input_of(word)?;
    let key = line.text(alloc, 0, MAX_KEY_LENGTH)?;
    let area = line.in_area()?;
    Ok(Call::SwitchInput {
        on,
        terminal,
        area,
        key,
    })
}

/// Adds an ENABLE (`on`) or DISABLE of INPUT or INPUT TERMINAL.
pub(crate) fn put_input(
    out: &mut Rows<u8>,
    on: bool,
    terminal: bool,
    area: &InArea,
    key: &Text,
) -> Result<(), AllocError>
    requires { IsCountable key.now }
    ensures { OnOk result (out.new ≡ written out.old
        (call_fields (Call.SwitchInput on terminal area.now key.now))) }
{
    put_word(out, switch_word(on))?;
    put_word(out, input_word(terminal))?;
    put_field(out, key.as_bytes())?;
    put_field(out, area.as_bytes())
}

/// Adds an ENABLE (`on`) or DISABLE of OUTPUT.
pub(crate) fn put_output(
    out: &mut Rows<u8>,
    on: bool,
    area: &OutArea,
    key: &Text,
) -> Result<(), AllocError>
    requires { IsCountable key.now }
    ensures { OnOk result
        (out.new ≡ written out.old (call_fields (Call.SwitchOutput on area.now key.now))) }
{
    put_word(out, switch_word(on))?;
    put_word(out, b"OUTPUT")?;
    put_field(out, key.as_bytes())?;
    put_field(out, area.as_bytes())
}
