//! Flat code: instructions, each with the places of those that may come next.
use crate::operands::{Amount, KeySource, SendEnd, Source, Spot, Test};
use com_text::Rows;

/// A statement that only changes the storage.
#[derive(Debug, Drop)]
pub enum Action {
    Move { source: Source, targets: Rows<Spot> },
    Add { amount: Amount, target: Spot },
    Subtract { amount: Amount, target: Spot },
    /// EXIT.
    Exit,
}

/// A verb that makes a call. The area is that of its CD.
#[derive(Debug, Drop)]
pub enum Verb {
    Receive {
        area: u32,
        segment: bool,
        into: Spot,
        /// Whether NO DATA is written.
        no_data: bool,
    },
    Send {
        area: u32,
        from: Option<Spot>,
        ending: Option<SendEnd>,
    },
    SwitchInput {
        on: bool,
        terminal: bool,
        area: u32,
        key: KeySource,
    },
    SwitchOutput {
        on: bool,
        area: u32,
        key: KeySource,
    },
    Accept {
        area: u32,
    },
}

/// How often a range is performed.
#[derive(Debug, Drop)]
pub enum Turns {
    Once,
    Times(Amount),
    Until(Test),
}

/// One instruction. All but `End` begin a statement, which is counted.
#[derive(Debug, Drop)]
pub enum Instruction {
    /// Changes the storage.
    Act {
        action: Action,
        next: usize,
    },
    /// IF: one way if the condition holds, and the other if not.
    Choose {
        test: Test,
        one: usize,
        other: usize,
    },
    /// PERFORM of the paragraphs `first` to `last`.
    Perform {
        first: usize,
        last: usize,
        turns: Turns,
        next: usize,
    },
    /// A verb, with where the run goes on if there is no data, and if there is.
    Ask {
        verb: Verb,
        no_data: usize,
        next: usize,
    },
    /// GO TO a paragraph.
    Go {
        paragraph: usize,
    },
    /// STOP RUN.
    Halt,
    /// The end of a paragraph.
    End,
}
