//! What is moved or compared.
ghost use Rattle.std.specs.Prelude.{◌≡◌, length, slice_index_or};
ghost use Rattle.cob_meaning.specs.Conditions.{own_length, side_characters};
ghost use Rattle.cob_meaning.specs.Moves.{content_of};
ghost use Rattle.cob_run.specs.inner.Contents.{shown};

use cob_data::ItemSort;

/// The characters of an operand, with what they are used as.
#[derive(Clone, Copy, Debug)]
pub(crate) enum Content<'a> {
    Number(&'a [u8]),
    Text(&'a [u8]),
    Group(&'a [u8]),
    Spaces,
    Zeros,
}

/// What an item of a sort gives that holds these characters.
pub(crate) fn content_of<'a>(sort: ItemSort, held: &'a [u8]) -> Content<'a>
    ensures { shown result ≡ content_of sort held.now }
{
    match sort {
        ItemSort::Alphanumeric => Content::Text(held),
        ItemSort::Numeric => Content::Number(held),
        ItemSort::Group => Content::Group(held),
    }
}

/// How many characters a side of a comparison has by itself.
pub(crate) fn own_length(side: Content) -> usize
    ensures { result ≡ own_length (shown side.entry) }
{
    match side {
        Content::Number(own) | Content::Text(own) | Content::Group(own) => own.len(),
        Content::Spaces | Content::Zeros => 0,
    }
}

/// The character at a place of a side, which spaces follow. The other side has this length.
pub(crate) fn character_at(side: Content, other: usize, at: usize) -> u8
    ensures { result ≡ slice_index_or (side_characters other (shown side.entry)) at 32 }
{
    match side {
        Content::Number(own) | Content::Text(own) | Content::Group(own) => {
            if at < own.len() { own[at] } else { b' ' }
        }
        Content::Spaces => b' ',
        Content::Zeros => { if at < other { b'0' } else { b' ' } }
    }
}
