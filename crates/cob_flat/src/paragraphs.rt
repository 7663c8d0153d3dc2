//! Code of paragraphs, and of a whole program.
ghost use Rattle.std.specs.Prelude.{◌≡◌, ℕ, List, [], IfOk, OnOk, length, map};
ghost use Rattle.cob_data.specs.Occurrences.{HasOccurrences};
ghost use Rattle.cob_proc.specs.Trees.{paragraph_tree, procedure_trees};
ghost use Rattle.cob_meaning.specs.Sources.{IsProgramOf, layout_of};
ghost use Rattle.cob_flat.specs.Compiled.{IsCompiled};
ghost use Rattle.cob_flat.specs.inner.Emitted.{BelowEmitted, Extends, IsParagraphEmitted};
ghost use Rattle.cob_flat.specs.inner.Written.{AreSoundParagraphs, IsSoundParagraph};

use crate::code::Instruction;
use crate::emit::put;
use crate::laws::programs_stay_in_ranges;
use crate::names::Names;
use crate::statements::emit_statements;
use cob_data::DataDivision;
use cob_meaning::laws::{programs_are_checked, sources_have_sound_layouts};
use cob_proc::{Paragraph, Procedure};
use com_text::Rows;
use std::alloc::{AllocError, Global};

/// The code of a text, with the place at which each paragraph begins.
#[derive(Debug, Drop)]
pub struct Flat {
    pub code: Vec<Instruction>,
    pub starts: Vec<usize>,
}

/// Adds a paragraph, and answers where its code begins.
fn emit_paragraph(
    alloc: Global,
    names: &Names,
    paragraph: &Paragraph,
    text: &[Paragraph],
    code: &mut Vec<Instruction>,
) -> Result<usize, AllocError>
    requires { IsSoundParagraph names.now (map paragraph_tree text.now) paragraph.now }
    ensures extends { OnOk result (Extends code.old.items code.new.items) }
    ensures does { IfOk result (λ place. IsParagraphEmitted names.now (map paragraph_tree text.now)
        code.new.items (paragraph_tree paragraph.now) place) }
{
    let end = put(code, Instruction::End)?;
    let mut place = end;
    let sentences = paragraph.sentences.as_slice();
    let mut left = sentences.len();
    'sentences: while 0 < left {
        left -= 1;
        place = emit_statements(alloc, names, &sentences[left], text, place, code)?;
    }
    Ok(place)
}

/// Returns the code of a text.
pub(crate) fn flatten_text(
    alloc: Global,
    names: &Names,
    text: &[Paragraph],
) -> Result<Flat, AllocError>
    requires { AreSoundParagraphs names.now (map paragraph_tree text.now) text.now }
    ensures as_long { IfOk result (λ flat. length flat.starts.items ≡ length text.now) }
    ensures does { IfOk result (λ flat. BelowEmitted names.now (map paragraph_tree text.now)
        flat.code.items flat.starts.items (length text.now)) }
{
    let mut code = Vec::new(alloc);
    let mut starts = Vec::new(alloc);
    'paragraphs: for paragraph in text {
        let start = emit_paragraph(alloc, names, paragraph, text, &mut code)?;
        starts.push(start)?;
    }
    Ok(Flat { code, starts })
}

/// Returns the code of a program.
pub fn flatten(
    alloc: Global,
    divisions: &DataDivision,
    procedure: &Procedure,
) -> Result<Flat, AllocError>
    requires tables { HasOccurrences divisions.now }
    requires program { (source : List ℕ) × IsProgramOf source (record {
      layout = layout_of divisions.now;
      text = procedure_trees procedure.now;
    }) }
    ensures { IfOk result (λ flat. IsCompiled (record {
      layout = layout_of divisions.now;
      text = procedure_trees procedure.now;
    }) flat.code.items flat.starts.items) }
{
    programs_are_checked();
    sources_have_sound_layouts();
    programs_stay_in_ranges();
    let names = Names::of(alloc, divisions)?;
    flatten_text(alloc, &names, procedure.paragraphs.as_slice())
}
