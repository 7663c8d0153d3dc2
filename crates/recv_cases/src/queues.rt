//! Queues: what units are given, in which order, and what stays.
//!
//! A line has the number of its nodes and, for each, a depth, a name, and `ordered`, `oldest` or
//! `leaf`; the number of its messages and, for each, a leaf, an end and a text; and then calls,
//! each of which answers something.
ghost use Rattle.std.specs.Prelude.{◌≡◌, ◌<◌, ◌+◌, [], IfOk, IfSome, length};
ghost use Rattle.std.specs.List.{All};
ghost use Rattle.com_recv.specs.Incoming.{IsTreeOf};

use case_lines::{Quoted, Words};
use com_cd::InArea;
use com_msg::{End, Kind, Message, Stamp};
use com_recv::{Queues, Taken};
use com_text::{Name, Rows, Text, TextError};
use com_tree::{Choose, Leaf, Node, Tree, TreeError, TreeRow, is_outline};
use std::alloc::{AllocError, Global};

/// What the calls of a line answer.
pub fn answer(alloc: Global, words: &mut Words<'_>) -> Result<String, AllocError> {
    let mut answer = String::new(alloc);
    let rows = rows_of(alloc, words)?;
    if !is_outline(&rows) {
        answer.push_str("no outline")?;
        return Ok(answer);
    }
    match Tree::build(alloc, &rows) {
        Ok(tree) => {
            of_tree(alloc, &tree, words, &mut answer)?;
            Ok(answer)
        }
        Err(TreeError::Refused { .. }) => {
            answer.push_str("no trees")?;
            Ok(answer)
        }
        Err(TreeError::Memory(error)) => Err(error),
    }
}

/// The nodes of a line, without those that are none.
fn rows_of(alloc: Global, words: &mut Words<'_>) -> Result<Vec<TreeRow>, AllocError> {
    let mut rows = Vec::new(alloc);
    for _row in 0..words.number() {
        if let Some(row) = row_of(words) {
            rows.push(row)?;
        }
    }
    Ok(rows)
}

/// The node that three words write: None where they write none.
fn row_of(words: &mut Words<'_>) -> Option<TreeRow> {
    let depth = words.number().min(9) as u32;
    let name = Name::new(words.bytes())?;
    let choose = match words.bytes() {
        b"ordered" => Some(Choose::Ordered),
        b"oldest" => Some(Choose::Oldest),
        _ => None,
    };
    Some(TreeRow {
        depth,
        name,
        choose,
    })
}

/// What the calls of a line answer, over these trees.
fn of_tree(
    alloc: Global,
    tree: &Tree,
    words: &mut Words<'_>,
    answer: &mut String,
) -> Result<(), AllocError> {
    let mut queues = Queues::new(alloc, tree, 9)?;
    put_all(alloc, tree, &mut queues, words)?;
    let mut area = InArea::opening();
    for _call in 0..words.len() {
        if words.is_empty() {
            break;
        }
        call(tree, &mut queues, &mut area, words, answer)?;
    }
    Ok(())
}

/// The messages of a line come to wait, one behind another.
fn put_all(
    alloc: Global,
    tree: &Tree,
    queues: &mut Queues,
    words: &mut Words<'_>,
) -> Result<(), AllocError>
    requires tree { IsTreeOf tree.now queues.old }
    requires none { queues.old.waiting ≡ [] }
    ensures { IsTreeOf tree.now queues.new }
{
    for at in 0..words.number() {
        let leaf = words.number();
        if let Some(message) = message_of(alloc, at + 1, words)? {
            put(tree, queues, leaf, message)?;
        }
    }
    Ok(())
}

/// A message comes to wait on the leaf of this number, where there is one.
fn put(tree: &Tree, queues: &mut Queues, leaf: u64, message: Message) -> Result<(), AllocError>
    requires tree { IsTreeOf tree.now queues.old }
    requires segments { length message.segments ≡ 1 }
    requires later { All (λ w. w.message.arrival < message.arrival) queues.old.waiting }
    ensures tree { IsTreeOf tree.now queues.new }
    ensures all { All (λ w. w.message.arrival < message.arrival + 1) queues.new.waiting }
{
    if leaf >= u64::from(tree.leaves()) {
        return Ok(());
    }
    let leaf = Leaf {
        number: leaf as u32,
    };
    queues.put(tree, leaf, message).map_err(|(_, error)| error)
}

/// The message that two words write: its end, and its only segment.
fn message_of(
    alloc: Global,
    arrival: u64,
    words: &mut Words<'_>,
) -> Result<Option<Message>, AllocError>
    ensures { IfOk result (λ made. IfSome made (λ message.
        (message.arrival ≡ arrival) × (length message.segments ≡ 1))) }
{
    let end = match words.bytes() {
        b"Egi" => End::Egi,
        _ => End::Emi,
    };
    let text = text_of(alloc, words.bytes())?;
    let (Some(source), Some(stamp)) = (Name::new(b"T1"), Stamp::new(b"740131", b"12345678")) else {
        return Ok(None);
    };
    let mut segments = Rows::new(alloc);
    segments.push(text).map_err(|(_, error)| error)?;
    Ok(Some(Message {
        source,
        arrival,
        stamp,
        segments,
        end,
    }))
}

/// The text of a word, and an empty one where it is none.
fn text_of(alloc: Global, word: &[u8]) -> Result<Text, AllocError> {
    match Text::read(alloc, word) {
        Ok(text) => Ok(text),
        Err(TextError::BadByte { .. }) => Ok(Text::of_vec(Vec::new(alloc))),
        Err(TextError::Memory(error)) => Err(error),
    }
}

/// What one call answers.
fn call(
    tree: &Tree,
    queues: &mut Queues,
    area: &mut InArea,
    words: &mut Words<'_>,
    answer: &mut String,
) -> Result<(), AllocError>
    requires { IsTreeOf tree.now queues.old }
    ensures { IsTreeOf tree.now queues.new }
{
    match words.bytes() {
        b"area" => write_names(area, words.bytes()),
        b"show" => write!(answer, "{} ", Quoted(area.as_bytes()))?,
        b"receive" => receive(tree, queues, area, words, answer)?,
        b"count" => queues.count(tree, area),
        b"drop" => queues.drop_unit(unit_of(words)),
        _ => tell(tree, queues, words, answer)?,
    }
    Ok(())
}

/// The number of a unit that a word writes.
fn unit_of(words: &mut Words<'_>) -> u32 {
    words.number().min(9) as u32
}

/// An opening area with these names, and spaces behind them.
fn write_names(area: &mut InArea, names: &[u8]) {
    let mut bytes =
        *b"                                                00000000000000            0000000000000";
    for (place, byte) in bytes.iter_mut().take(48).zip(names) {
        *place = *byte;
    }
    if let Some(read) = InArea::read(&bytes) {
        *area = read;
    }
}

/// What a RECEIVE of a unit gives: its kind, the unit, and the size.
fn receive(
    tree: &Tree,
    queues: &mut Queues,
    area: &mut InArea,
    words: &mut Words<'_>,
    answer: &mut String,
) -> Result<(), AllocError>
    requires { IsTreeOf tree.now queues.old }
    ensures { IsTreeOf tree.now queues.new }
{
    let kind = match words.bytes() {
        b"segment" => Kind::Segment,
        _ => Kind::Message,
    };
    let unit = unit_of(words);
    let size = words.number().max(1).min(2000) as u32;
    match queues.receive(tree, unit, area, kind, size)? {
        Taken::Given(text) => write!(answer, "{} ", Quoted(text.as_bytes())),
        Taken::NoData => answer.push_str("no-data "),
        Taken::Unknown => answer.push_str("unknown "),
    }
}

/// What a question about a node answers: the node's row, and for `data` the unit before it.
fn tell(
    tree: &Tree,
    queues: &Queues,
    words: &mut Words<'_>,
    answer: &mut String,
) -> Result<(), AllocError>
    requires { IsTreeOf tree.now queues.now }
{
    let unit = unit_of(words);
    let row = words.number().min(999) as u32;
    if row as usize >= tree.rows().len() {
        return answer.push_str("no-node ");
    }
    let node = Node { row };
    let choice = queues.choice(tree, node).map(|leaf| leaf.number);
    write!(
        answer,
        "{} {} {:?} ",
        queues.has_data(tree, unit, node),
        queues.has_message(tree, node),
        choice
    )
}
