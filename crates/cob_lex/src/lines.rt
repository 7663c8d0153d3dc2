//! The lines of a source in reference format.
ghost use Rattle.std.specs.Prelude.{◌≡◌, ◌+◌, ◌<◌, ◌≤◌, length};
ghost use Rattle.cob_lex.specs.Lines.{IsFirstLine, begins_paragraph, behind_spacing, is_area_a_blank, is_comment_heading, line_kind, paragraph_behind, period_next, text_kind, text_of};

use crate::characters::{is_spacing, space_next, without_return, word_run};
use crate::words::heads_comment;

/// Where a line is in the source.
#[derive(Clone, Copy, Debug)]
pub(crate) struct Place {
    /// The line's number, from 1.
    pub(crate) line: u32,
    /// The place of its first byte in the source, from 0.
    pub(crate) start: u32,
}

/// What is done with a line.
#[derive(Clone, Copy, Debug)]
pub(crate) enum LineKind {
    /// It has fewer than seven columns, or is a comment.
    Comment,
    /// It is a comment, and begins a comment-entry.
    CommentParagraph,
    /// Its column 7 holds something other than a space, `*` and `/`.
    BadColumn,
    /// Its columns 8 to 72 are read.
    Text,
}

/// The column that tells what a line is, from 0.
pub(crate) const INDICATOR: usize = 6;
/// The column with which the text of a line begins, from 0.
pub(crate) const TEXT_START: usize = 7;
/// How many columns of a line are read.
const READ_COLUMNS: usize = 72;
/// How many columns area A has.
const AREA_A: usize = 4;

/// Returns the first line of bytes, without its end, and how many bytes it has with it.
pub(crate) fn first_line(bytes: &[u8]) -> (&[u8], usize)
    requires { 1 ≤ length bytes.now }
    ensures first { IsFirstLine bytes.now result.0.now result.1 }
    ensures not_empty { 1 ≤ result.1 }
    ensures within { result.1 ≤ length bytes.now }
    ensures line { length result.0.now ≤ result.1 }
{
    match bytes.iter().position(|byte| *byte == b'\n') {
        Some(length) => (without_return(&bytes[..length]), length + 1),
        None => (bytes, bytes.len()),
    }
}

/// Returns what a line is, where it may come after a heading of a comment-entry.
pub(crate) fn line_kind(in_paragraph: bool, line: &[u8]) -> LineKind
    ensures { result ≡ line_kind in_paragraph line.now }
{
    if line.len() <= INDICATOR {
        return LineKind::Comment;
    }
    match line[INDICATOR] {
        b'*' | b'/' => LineKind::Comment,
        b' ' => text_kind(in_paragraph, text_of(line)),
        _ => LineKind::BadColumn,
    }
}

/// Returns whether a comment-entry goes on after a line.
pub(crate) fn paragraph_behind(in_paragraph: bool, kind: LineKind) -> bool
    ensures { result ≡ paragraph_behind in_paragraph kind }
{
    match kind {
        LineKind::Comment => in_paragraph,
        LineKind::CommentParagraph => true,
        LineKind::BadColumn | LineKind::Text => false,
    }
}

/// Columns 8 to 72.
pub(crate) fn text_of(line: &[u8]) -> &[u8]
    ensures text { result.now ≡ text_of line.now }
    ensures short { length result.now ≤ 65 }
{
    let read = &line[..READ_COLUMNS.min(line.len())];
    &read[TEXT_START.min(read.len())..]
}

/// Returns what a line with a space in column 7 is, by its columns 8 to 72.
fn text_kind(in_paragraph: bool, text: &[u8]) -> LineKind
    ensures { result ≡ text_kind in_paragraph text.now }
{
    if in_paragraph && is_area_a_blank(text) {
        LineKind::Comment
    } else if begins_paragraph(text) {
        LineKind::CommentParagraph
    } else {
        LineKind::Text
    }
}

/// Returns whether columns 8 to 11 hold spaces alone.
fn is_area_a_blank(text: &[u8]) -> bool
    ensures { result ≡ is_area_a_blank text.now }
{
    text.iter().take(AREA_A).all(|byte| *byte == b' ')
}

/// Returns whether a text begins, in area A, with a word that heads a comment-entry, and its next
/// token is a period.
fn begins_paragraph(text: &[u8]) -> bool
    ensures { result ≡ begins_paragraph text.now }
{
    let rest = behind_spacing(text);
    text.len() - rest.len() < AREA_A && is_comment_heading(rest)
}

/// Returns whether a rest begins with a word that heads a comment-entry, and the next token is a
/// period.
fn is_comment_heading(rest: &[u8]) -> bool
    ensures { result ≡ is_comment_heading rest.now }
{
    let word = word_run(rest);
    heads_comment(word) && period_next(behind_spacing(&rest[word.len()..]))
}

/// Returns what is left after spaces, and commas and semicolons that are like one.
fn behind_spacing(bytes: &[u8]) -> &[u8]
    ensures behind { result.now ≡ behind_spacing bytes.now }
    ensures within { length result.now ≤ length bytes.now }
{
    let mut rest = bytes;
    while let Some((byte, behind)) = rest.split_first() {
        if !is_spacing(*byte, behind) {
            return rest;
        }
        rest = behind;
    }
    rest
}

/// Returns whether a separator period comes next.
fn period_next(rest: &[u8]) -> bool
    ensures { result ≡ period_next rest.now }
{
    match rest {
        [b'.', behind @ ..] => space_next(behind),
        _ => false,
    }
}
