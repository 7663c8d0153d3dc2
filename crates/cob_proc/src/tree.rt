//! What a Procedure Division is made of. Each form has a variant, and each of its parts a field, in
//! written order.
use cob_forms::{Literal, Name, Number, Position};
use com_text::Rows;

/// A Procedure Division.
#[derive(Debug, Drop)]
pub struct Procedure {
    pub paragraphs: Rows<Paragraph>,
}

/// A paragraph: its name, and its sentences one after another, each a list of statements.
#[derive(Debug, Drop)]
pub struct Paragraph {
    pub name: Name,
    pub sentences: Rows<Vec<Statement>>,
}

/// A statement. A list of statements is empty where it is not written.
#[derive(Debug, Drop)]
pub enum Statement {
    /// MOVE source TO targets.
    Move {
        source: Operand,
        targets: Rows<Identifier>,
    },
    /// ADD addend TO target.
    Add {
        addend: Addend,
        target: Identifier,
    },
    /// SUBTRACT addend FROM target.
    Subtract {
        addend: Addend,
        target: Identifier,
    },
    /// IF condition, and then what is done where it holds and where it does not. The position is
    /// that of IF.
    If {
        position: Position,
        condition: Condition,
        holds: Vec<Statement>,
        otherwise: Vec<Statement>,
    },
    /// PERFORM first THRU last, and how often.
    Perform {
        first: Name,
        last: Option<Name>,
        repetition: Repetition,
    },
    /// GO TO target.
    Go {
        target: Name,
    },
    /// EXIT.
    Exit,
    /// STOP RUN.
    Stop,
    /// RECEIVE cd MESSAGE or SEGMENT INTO item, and what is done if no data waits.
    Receive {
        cd: Name,
        segment: bool,
        into: Identifier,
        no_data: Vec<Statement>,
    },
    /// SEND cd FROM item, with its end.
    Send {
        cd: Name,
        from: Option<Identifier>,
        ending: Option<Ending>,
    },
    /// ENABLE or DISABLE INPUT cd WITH KEY, of a terminal or of a queue.
    SwitchInput {
        on: bool,
        terminal: bool,
        cd: Name,
        key: Key,
    },
    /// ENABLE or DISABLE OUTPUT cd WITH KEY.
    SwitchOutput {
        on: bool,
        cd: Name,
        key: Key,
    },
    /// ACCEPT cd MESSAGE COUNT.
    Accept {
        cd: Name,
    },
}

/// An item, by its name and the subscript that it may have.
#[derive(Debug, Drop)]
pub struct Identifier {
    pub name: Name,
    pub subscript: Option<Subscript>,
}

/// A subscript: a number, or the item that holds it. The position is that of its opening
/// parenthesis.
#[derive(Debug, Drop)]
pub enum Subscript {
    Number { position: Position, number: Number },
    Item { position: Position, name: Name },
}

/// What is moved or compared.
#[derive(Debug, Drop)]
pub enum Operand {
    Item(Identifier),
    Literal(Literal),
    Number(Number),
    /// SPACE or SPACES.
    Spaces(Position),
    /// ZERO, ZEROS or ZEROES.
    Zeros(Position),
}

/// What is added, subtracted or counted.
#[derive(Debug, Drop)]
pub enum Addend {
    Item(Identifier),
    Number(Number),
}

/// What a password is taken from.
#[derive(Debug, Drop)]
pub enum Key {
    Item(Identifier),
    Literal(Literal),
}

/// Simple conditions, all joined by AND or all by OR. One alone is joined by nothing.
#[derive(Debug, Drop)]
pub struct Condition {
    pub joint: Joint,
    pub parts: Rows<Simple>,
}

/// How simple conditions are joined.
#[derive(Clone, Copy, Debug, PartialEq, Eq)]
pub enum Joint {
    Alone,
    And,
    Or,
}

/// A simple condition.
#[derive(Debug, Drop)]
pub enum Simple {
    /// Two operands are compared, or it is denied that they compare so.
    Compares {
        left: Operand,
        denied: bool,
        relation: Relation,
        right: Operand,
    },
    /// An item is NUMERIC, or it is denied.
    Numeric {
        item: Identifier,
        denied: bool,
    },
}

/// How two operands compare.
#[derive(Clone, Copy, Debug, PartialEq, Eq)]
pub enum Relation {
    Equal,
    Greater,
    Less,
}

/// How often a range is performed.
#[derive(Debug, Drop)]
pub enum Repetition {
    Once,
    Times(Addend),
    Until(Condition),
}

/// What a SEND ends, and how the text is advanced.
#[derive(Debug, Drop)]
pub struct Ending {
    pub indicator: Indicator,
    pub advancing: Option<Advancing>,
}

/// What a SEND ends.
#[derive(Debug, Drop)]
pub enum Indicator {
    /// What the character of an item says.
    Item(Identifier),
    Esi,
    Emi,
    Egi,
}

/// BEFORE or AFTER ADVANCING a number of lines, or a page.
#[derive(Debug, Drop)]
pub struct Advancing {
    pub after: bool,
    pub lines: Lines,
}

/// How far is advanced.
#[derive(Debug, Drop)]
pub enum Lines {
    Count(Addend),
    Page,
}
