//! Bytes as they are printed.
use std::fmt;

/// Bytes in quotes, as a word of a line has them.
#[derive(Clone, Copy, Debug)]
pub struct Quoted<'a>(pub &'a [u8]);

impl fmt::Display for Quoted<'_> {
    fn fmt<W: fmt::Write>(&self, f: &mut fmt::Formatter<W>) -> fmt::Result {
        f.write_str("\"")?;
        for byte in self.0 {
            write_byte(f, *byte)?;
        }
        f.write_str("\"")
    }
}

/// Writes one byte, escaped where it is no printing character, a quote or a backslash.
fn write_byte<W: fmt::Write>(f: &mut fmt::Formatter<W>, byte: u8) -> fmt::Result {
    match byte {
        b'\n' => f.write_str("\\n"),
        b'\r' => f.write_str("\\r"),
        b'\t' => f.write_str("\\t"),
        b'"' => f.write_str("\\\""),
        b'\\' => f.write_str("\\\\"),
        0x20..=0x7E => f.write_char(byte as char),
        _ => write!(f, "\\x{byte:02x}"),
    }
}
