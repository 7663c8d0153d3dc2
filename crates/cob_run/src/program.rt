//! A program as flat code.
use cob_flat::Instruction;
use com_text::Rows;

/// A program as flat code: its instructions, the place at which each paragraph begins, its areas as
/// they begin, and the area of the CD that has INITIAL.
#[derive(Debug, Drop)]
pub struct FlatProgram {
    pub code: Rows<Instruction>,
    pub starts: Rows<usize>,
    pub opening: Rows<Rows<u8>>,
    pub initial: Option<u32>,
}
