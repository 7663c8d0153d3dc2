//! The paragraphs of a program by their names.
ghost use Rattle.std.specs.Prelude.{◌≡◌, ◌≤◌, IfOk, bytes_eq, length, map};
ghost use Rattle.std.specs.List.{list_any};
ghost use Rattle.cob_proc.specs.Trees.{paragraph_tree, procedure_trees};
ghost use Rattle.cob_meaning.specs.Meaning.{paragraph_number};
ghost use Rattle.cob_code.specs.inner.Numbers.{AreNumbered, number_in};

use crate::numbers::{number_in, numbers_of};
use cob_forms::Name;
use cob_proc::{Paragraph, Procedure};
use indexmap::IndexMap;
use std::alloc::{AllocError, Global};

/// The paragraphs of a program.
#[derive(Drop)]
pub(crate) struct Paragraphs<'a> {
    pub(crate) paragraphs: &'a [Paragraph],
    numbers: IndexMap<&'a [u8], usize>,
    ghost numbered: { AreNumbered numbers (map (λ paragraph. paragraph.name.text) paragraphs.now) },
}

/// The names of paragraphs.
fn names_of<'a>(alloc: Global, paragraphs: &'a [Paragraph]) -> Result<Vec<&'a [u8]>, AllocError>
    ensures { IfOk result (λ names. map (λ name. name.now) names.items ≡ map (λ paragraph. paragraph.name.text) paragraphs.now) }
{
    let mut names = Vec::new(alloc);
    'paragraphs: for paragraph in paragraphs {
        names.push(paragraph.name.text.as_bytes())?;
    }
    Ok(names)
}

impl<'a> Paragraphs<'a> {
    /// The paragraphs of a Procedure Division.
    pub(crate) fn of(alloc: Global, procedure: &'a Procedure) -> Result<Paragraphs<'a>, AllocError>
        ensures { IfOk result (λ text. map paragraph_tree text.paragraphs.now ≡ procedure_trees procedure.now) }
    {
        let paragraphs = procedure.paragraphs.as_slice();
        let numbers = numbers_of(alloc, &names_of(alloc, paragraphs)?)?;
        Ok(Paragraphs {
            paragraphs,
            numbers,
        })
    }

    /// The number of the paragraph with a name.
    fn find(&self, name: &Name) -> Option<usize>
        ensures { result ≡ number_in (map (λ paragraph. paragraph.name.text) (map paragraph_tree self.now.paragraphs.now)) name.now.text }
    {
        number_in(name.text.as_bytes(), &self.numbers)
    }

    /// Whether a paragraph has a name.
    pub(crate) fn has(&self, name: &Name) -> bool
        ensures { result ≡ list_any (λ paragraph. bytes_eq paragraph.name.text name.now.text) (map paragraph_tree self.now.paragraphs.now) }
    {
        self.find(name).is_some()
    }

    /// How many paragraphs there are.
    pub(crate) fn len(&self) -> usize
        ensures { result ≡ length self.now.paragraphs.now }
    {
        self.paragraphs.len()
    }

    /// The number of the paragraph with a name, or how many there are.
    pub(crate) fn number(&self, name: &Name) -> usize
        ensures { result ≡ paragraph_number (map paragraph_tree self.now.paragraphs.now) name.now }
    {
        match self.find(name) {
            Some(number) => number,
            None => self.paragraphs.len(),
        }
    }
}
