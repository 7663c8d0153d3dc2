//! What a run writes.
ghost use Rattle.std.specs.Prelude.{◌≡◌, ◌∷◌, [], All, IfOk, IfErr, OnOk, string_bytes};
ghost use Rattle.std.specs.List.{flat_map};
ghost use Rattle.com_msg.specs.Rendering.{rendered_message, IsRenderable};
ghost use Rattle.com_io.specs.Stores.{output_name};
ghost use Rattle.mcs_top.specs.Outputs.{transcript_name, writing};
ghost use Rattle.mcs_top.specs.Running.{IsReached, transcript, transcripts_in, summary_of, writes_of, AreWritten, IsCutIn};

use crate::run::Run;
use crate::summary::summary;
use com_io::{OUTPUT_NAME, Store, StoreFault};
use com_lines::render;
use com_msg::OutMessage;
use com_state::State;
use com_text::{Name, Rows};
use std::alloc::{AllocError, Global};

/// The name that a journal is written under.
const JOURNAL_NAME: &str = "journal.txt";

/// Writes the journal, the transcript of each terminal and the summary, up to the first write that
/// is not done.
pub fn write_outputs<S: Store>(alloc: Global, run: &Run, store: &mut S) -> Result<(), StoreFault>
    requires reached { IsReached run.now.state }
    ensures ok { OnOk result
        (AreWritten (writes_of run.now) (S.shows store.old) (S.shows store.new)) }
    ensures err { IfErr result
        (IsCutIn (writes_of run.now) (S.shows store.old) (S.shows store.new)) }
{
    write_one(JOURNAL_NAME, run.journal.as_slice(), store)?;
    write_transcripts(alloc, &run.state, store)?;
    write_summary(alloc, run, store)
}

/// Writes these bytes under a name.
fn write_one<S: Store>(name: &str, bytes: &[u8], store: &mut S) -> Result<(), StoreFault>
    ensures ok { OnOk result (AreWritten (writing name.now bytes.now ∷ [])
        (S.shows store.old) (S.shows store.new)) }
    ensures err { IfErr result (IsCutIn (writing name.now bytes.now ∷ [])
        (S.shows store.old) (S.shows store.new)) }
{
    store.write(name, bytes)
}

/// Writes the transcript of each terminal.
fn write_transcripts<S: Store>(
    alloc: Global,
    state: &State,
    store: &mut S,
) -> Result<(), StoreFault>
    ensures ok { OnOk result (AreWritten (transcripts_in state.now 0 state.now.net.terminals)
        (S.shows store.old) (S.shows store.new)) }
    ensures err { IfErr result (IsCutIn (transcripts_in state.now 0 state.now.net.terminals)
        (S.shows store.old) (S.shows store.new)) }
{
    let terminals = state.net().terminals.as_slice();
    for number in 0..terminals.len() {
        let messages = state.transmitted(number as u32);
        write_transcript(alloc, &terminals[number].name, messages, store)?;
    }
    Ok(())
}

/// Writes the transcript of a terminal.
fn write_transcript<S: Store>(
    alloc: Global,
    name: &Name,
    messages: &[OutMessage],
    store: &mut S,
) -> Result<(), StoreFault>
    requires renderable { All IsRenderable messages.now }
    ensures ok { OnOk result (AreWritten (transcript name.now messages.now ∷ [])
        (S.shows store.old) (S.shows store.new)) }
    ensures err { IfErr result (IsCutIn (transcript name.now messages.now ∷ [])
        (S.shows store.old) (S.shows store.new)) }
{
    let name = transcript_name(alloc, name)?;
    let text = rendered(alloc, messages)?;
    write_one(name.as_str(), text.as_slice(), store)
}

/// Writes the summary.
fn write_summary<S: Store>(alloc: Global, run: &Run, store: &mut S) -> Result<(), StoreFault>
    requires reached { IsReached run.now.state }
    ensures ok { OnOk result (AreWritten (writing output_name (summary_of run.now) ∷ [])
        (S.shows store.old) (S.shows store.new)) }
    ensures err { IfErr result (IsCutIn (writing output_name (summary_of run.now) ∷ [])
        (S.shows store.old) (S.shows store.new)) }
{
    let text = summary(alloc, run)?;
    write_one(OUTPUT_NAME, text.as_slice(), store)
}

/// What a terminal is sent, one message behind another.
fn rendered(alloc: Global, messages: &[OutMessage]) -> Result<Rows<u8>, AllocError>
    requires { All IsRenderable messages.now }
    ensures { IfOk result (λ text. text ≡ flat_map rendered_message messages.now) }
{
    let mut out = Rows::new(alloc);
    for message in messages {
        render(message, &mut out)?;
    }
    Ok(out)
}

/// The name that a terminal's transcript is written under.
fn transcript_name(alloc: Global, terminal: &Name) -> Result<String, AllocError>
    ensures { IfOk result (λ name. string_bytes name ≡ transcript_name terminal.now) }
{
    let mut name = String::new(alloc);
    for byte in terminal.as_bytes() {
        name.push(char::from(*byte))?;
    }
    name.push_str(".out")?;
    Ok(name)
}
