//! What statements put into fields. None is a stop for DATA.
ghost use Rattle.std.specs.Prelude.{◌≡◌, ◌≤◌, None, Some, MatchOption, length};
ghost use Rattle.cob_meaning.specs.Moves.{a_number, a_text, moved};
ghost use Rattle.cob_run.specs.inner.Contents.{IsReadable, shown};

use crate::content::Content;
use crate::fields::{
    are_digits, number_in, write_left, write_number, write_right, write_spaces, write_zeros,
};
use cob_data::ItemSort;

/// Fills a field with the characters of a text.
fn move_text(field: &mut [u8], sort: ItemSort, characters: &[u8]) -> Option<()>
    ensures { let put = moved (a_text characters.now) sort (length field.old) in
        MatchOption result (put ≡ None) (λ _. put ≡ Some field.new) }
{
    match sort {
        ItemSort::Numeric => {
            if !are_digits(characters) {
                return None;
            }
            write_right(field, characters);
            Some(())
        }
        ItemSort::Alphanumeric | ItemSort::Group => {
            write_left(field, characters);
            Some(())
        }
    }
}

/// Fills a field with a number.
fn move_number(field: &mut [u8], sort: ItemSort, digits: &[u8]) -> Option<()>
    requires { length digits.now ≤ 18 }
    ensures { let put = moved (a_number digits.now) sort (length field.old) in
        MatchOption result (put ≡ None) (λ _. put ≡ Some field.new) }
{
    match sort {
        ItemSort::Numeric => {
            let number = number_in(digits)?;
            write_number(field, number);
            Some(())
        }
        ItemSort::Alphanumeric | ItemSort::Group => {
            write_left(field, digits);
            Some(())
        }
    }
}

/// Fills a field with what is moved to it.
pub(crate) fn move_content(field: &mut [u8], sort: ItemSort, content: Content) -> Option<()>
    requires { IsReadable (shown content) }
    ensures { let put = moved (shown content.entry) sort (length field.old) in
        MatchOption result (put ≡ None) (λ _. put ≡ Some field.new) }
{
    match content {
        Content::Number(digits) => move_number(field, sort, digits),
        Content::Text(characters) => move_text(field, sort, characters),
        Content::Group(characters) => {
            write_left(field, characters);
            Some(())
        }
        Content::Spaces => {
            write_spaces(field);
            Some(())
        }
        Content::Zeros => {
            write_zeros(field);
            Some(())
        }
    }
}
