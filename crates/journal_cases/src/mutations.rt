//! Lines that differ from a right line in one place.
ghost use Rattle.std.specs.Prelude.{◌≤◌, length};

use case_lines::Quoted;
use com_journal::{JournalError, JournalKind, read, read_calls};
use com_text::number_of;
use std::alloc::{AllocError, Global};

/// Returns how many lines a right line is changed to, how many of them are refused, and which are
/// not.
pub fn mutations(alloc: Global, line: &[u8]) -> Result<String, AllocError> {
    if is_refused(alloc, line)? {
        return String::from_str(alloc, "not a right line");
    }
    let lines = changed_lines(alloc, line)?;
    let mut refused = lines.len();
    let mut others = String::new(alloc);
    for line in &lines {
        if !is_refused(alloc, line)? {
            refused = refused.saturating_sub(1);
            let other = format!(in alloc; ", but not {}", Quoted(line))?;
            others.push_str(&other)?;
        }
    }
    format!(in alloc; "{} lines, {refused} refused{others}", lines.len())
}

/// Returns whether a script and a journal that have this line after their header are refused at it.
fn is_refused(alloc: Global, line: &[u8]) -> Result<bool, AllocError> {
    Ok(is_no_call(alloc, line)? && is_no_entry(alloc, line)?)
}

fn is_no_call(alloc: Global, line: &[u8]) -> Result<bool, AllocError> {
    let script = text_of(alloc, b"MCS-SCRIPT 1\n", line)?;
    match read_calls(alloc, &script) {
        Ok(_) => Ok(false),
        Err(error) => is_of_line(error),
    }
}

fn is_no_entry(alloc: Global, line: &[u8]) -> Result<bool, AllocError> {
    let journal = text_of(alloc, b"MCS-JOURNAL 1\n", line)?;
    match read(alloc, &journal) {
        Ok(_) => Ok(false),
        Err(error) => is_of_line(error),
    }
}

/// Returns a header, and a line after it.
fn text_of(alloc: Global, header: &[u8], line: &[u8]) -> Result<Vec<u8>, AllocError> {
    let mut text = Vec::from_slice(alloc, header)?;
    text.extend_from_slice(line)?;
    text.extend_from_slice(b"\n")?;
    Ok(text)
}

/// Returns whether a fault is that of the line after the header.
fn is_of_line(error: JournalError) -> Result<bool, AllocError> {
    match error {
        JournalError::Refused(fault) => Ok(fault.line == 2 && fault.kind == JournalKind::BadLine),
        JournalError::Memory(error) => Err(error),
    }
}

/// Returns every line that a line is changed to.
fn changed_lines(alloc: Global, line: &[u8]) -> Result<Vec<Vec<u8>>, AllocError> {
    let mut changed = Changed::new(alloc);
    changed.add_ends(line)?;
    let mut left = line;
    for _field in 0..line.len() {
        let (field, behind) = left.split_at(field_length(left));
        changed.pass_field(field, behind)?;
        match behind {
            [b' ', after @ ..] => {
                changed.pass_space(after)?;
                left = after;
            }
            _ => break,
        }
    }
    Ok(changed.lines)
}

/// Returns how long the field at the front is: a counted field with its content, or a word.
fn field_length(left: &[u8]) -> usize
    ensures { result ≤ length left.now }
{
    let (digits, behind) = left.split_at(digit_count(left));
    match behind {
        [b':', ..] => {
            let count = number_of(digits).unwrap_or(0) as usize;
            count.saturating_add(digits.len() + 1).min(left.len())
        }
        _ => word_length(left),
    }
}

fn word_length(left: &[u8]) -> usize
    ensures { result ≤ length left.now }
{
    left.iter()
        .take_while(|byte| **byte != b' ')
        .count()
        .min(left.len())
}

/// Returns how many digits stand at the front.
fn digit_count(left: &[u8]) -> usize
    ensures { result ≤ length left.now }
{
    left.iter()
        .take_while(|byte| byte.is_ascii_digit())
        .count()
        .min(left.len())
}

/// What was passed of a right line, and the lines that it was changed to.
#[derive(Drop)]
struct Changed {
    alloc: Global,
    passed: Vec<u8>,
    lines: Vec<Vec<u8>>,
}

impl Changed {
    fn new(alloc: Global) -> Changed {
        Changed {
            alloc,
            passed: Vec::new(alloc),
            lines: Vec::new(alloc),
        }
    }

    /// Adds what was passed with these parts after it.
    fn add(&mut self, parts: &[&[u8]]) -> Result<(), AllocError> {
        let mut line = Vec::from_slice(self.alloc, &self.passed)?;
        for part in parts {
            line.extend_from_slice(part)?;
        }
        self.lines.push(line)?;
        Ok(())
    }

    /// Adds a space in front and after, and the other sort of party.
    fn add_ends(&mut self, line: &[u8]) -> Result<(), AllocError> {
        self.add(&[b" ", line])?;
        self.add(&[line, b" "])?;
        match line {
            [b'U', behind @ ..] => self.add(&[b"T", behind]),
            [b'T', behind @ ..] => self.add(&[b"U", behind]),
            _ => Ok(()),
        }
    }

    /// Passes a space between fields: two spaces, and none.
    fn pass_space(&mut self, behind: &[u8]) -> Result<(), AllocError> {
        self.add(&[b"  ", behind])?;
        self.add(&[behind])?;
        self.passed.extend_from_slice(b" ")
    }

    fn pass_field(&mut self, field: &[u8], behind: &[u8]) -> Result<(), AllocError> {
        let (digits, content) = field.split_at(digit_count(field));
        match content {
            [b':', ..] => self.add_counts(digits, &[content, behind])?,
            _ => self.add_number(field, behind)?,
        }
        self.passed.extend_from_slice(field)
    }

    /// Adds the count of a counted field with a leading zero, and one more and one less.
    fn add_counts(&mut self, digits: &[u8], behind: &[&[u8]; 2]) -> Result<(), AllocError> {
        self.add(&[b"0", digits, behind[0], behind[1]])?;
        let count = number_of(digits).unwrap_or(0);
        let more = format!(in self.alloc; "{}", count.saturating_add(1))?;
        self.add(&[more.as_bytes(), behind[0], behind[1]])?;
        if let Some(less) = count.checked_sub(1) {
            let less = format!(in self.alloc; "{less}")?;
            self.add(&[less.as_bytes(), behind[0], behind[1]])?;
        }
        Ok(())
    }

    /// Adds a leading zero of the digits at the end of a field.
    fn add_number(&mut self, field: &[u8], behind: &[u8]) -> Result<(), AllocError> {
        let digits = field
            .iter()
            .rev()
            .take_while(|byte| byte.is_ascii_digit())
            .count();
        if digits == 0 {
            return Ok(());
        }
        let (front, number) = field.split_at(field.len().saturating_sub(digits));
        self.add(&[front, b"0", number, behind])
    }
}
