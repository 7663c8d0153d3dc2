//! The pass names and kinds over a whole program.
ghost use Rattle.std.specs.Prelude.{◌≡◌, IfOk, flat_map, map};
ghost use Rattle.cob_forms.specs.Faults.{first};
ghost use Rattle.cob_proc.specs.Trees.{paragraph_tree};
ghost use Rattle.cob_meaning.specs.Names.{sentences_faults};
ghost use Rattle.cob_code.specs.inner.Statements.{all_trees, own_faults};
ghost use Rattle.cob_code.specs.inner.Written.{shown};

use crate::kinds::own_fault;
use crate::names::Names;
use crate::paragraphs::Paragraphs;
use crate::statements::statements_of;
use cob_forms::first_of;
use cob_lex::SourceFault;
use cob_proc::{Paragraph, Statement};
use std::alloc::{AllocError, Global};

/// The first fault of statements.
fn statements_fault(
    names: &Names,
    text: &Paragraphs,
    statements: &[&Statement],
) -> Option<SourceFault>
    ensures { result ≡ first (flat_map (own_faults names.now (map paragraph_tree text.now.paragraphs.now)) (shown statements.now)) }
{
    let mut found = None;
    let mut at = 0;
    'statements: while at < statements.len() {
        found = first_of(found, own_fault(names, text, statements[at]));
        at += 1;
    }
    found
}

/// The first fault of a paragraph.
fn paragraph_fault(
    alloc: Global,
    names: &Names,
    text: &Paragraphs,
    paragraph: &Paragraph,
) -> Result<Option<SourceFault>, AllocError>
    ensures { IfOk result (λ found. found ≡ first (sentences_faults names.now (map paragraph_tree text.now.paragraphs.now) (paragraph_tree paragraph.now))) }
{
    let statements = statements_of(alloc, paragraph)?;
    Ok(statements_fault(names, text, &statements))
}

/// The first fault of names and kinds.
pub(crate) fn first_names_fault(
    alloc: Global,
    names: &Names,
    text: &Paragraphs,
) -> Result<Option<SourceFault>, AllocError>
    ensures { IfOk result (λ found. found ≡ first (flat_map (sentences_faults names.now (map paragraph_tree text.now.paragraphs.now)) (map paragraph_tree text.now.paragraphs.now))) }
{
    let mut found = None;
    'paragraphs: for paragraph in text.paragraphs {
        found = first_of(found, paragraph_fault(alloc, names, text, paragraph)?);
    }
    Ok(found)
}
