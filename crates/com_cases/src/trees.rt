//! Queue trees: building them, looking for nodes and leaves, choosing a leaf.
use case_lines::Words;
use com_text::{Name, NamePath};
use com_tree::{Choose, Leaf, Tree, TreeError, TreeRow, is_outline};
use std::alloc::{AllocError, Global};

/// Returns what a call on trees answers: None for any other call.
pub fn answer(
    alloc: Global,
    tree: &mut Option<Tree>,
    call: &[u8],
    words: &mut Words<'_>,
) -> Result<Option<String>, AllocError> {
    if call == b"Tree::build".as_slice() {
        return Ok(Some(build(alloc, tree, words)?));
    }
    match tree {
        Some(tree) => of_tree(alloc, tree, call, words),
        None => Ok(None),
    }
}

/// Returns what a call on this tree answers: None for any other call.
fn of_tree(
    alloc: Global,
    tree: &Tree,
    call: &[u8],
    words: &mut Words<'_>,
) -> Result<Option<String>, AllocError> {
    let answer = match call {
        b"Tree::copy" => copy(alloc, tree)?,
        b"Tree::node" => node(alloc, tree, words.rest())?,
        b"Tree::path" => path(alloc, tree, words.number())?,
        b"Tree::next" => next(alloc, tree, words)?,
        _ => return Ok(None),
    };
    Ok(Some(answer))
}

/// Returns the row that three words write: None where they write none.
fn row_of(words: &mut Words<'_>) -> Option<TreeRow> {
    let depth = words.number().min(9) as u32;
    let name = Name::new(words.bytes())?;
    let choose = match words.bytes() {
        b"ordered" => Some(Choose::Ordered),
        b"oldest" => Some(Choose::Oldest),
        _ => None,
    };
    Some(TreeRow {
        depth,
        name,
        choose,
    })
}

/// Builds the tree of rows, each a depth, a name, and `ordered`, `oldest` or `leaf`.
fn build(
    alloc: Global,
    tree: &mut Option<Tree>,
    words: &mut Words<'_>,
) -> Result<String, AllocError> {
    let mut rows = Vec::new(alloc);
    for _row in 0..words.len() / 3 {
        if let Some(row) = row_of(words) {
            rows.push(row)?;
        }
    }
    if !is_outline(&rows) {
        return String::from_str(alloc, "no outline");
    }
    match Tree::build(alloc, &rows) {
        Ok(built) => {
            let answer = format!(in alloc; "{} nodes, {} leaves", rows.len(), built.leaves())?;
            *tree = Some(built);
            Ok(answer)
        }
        Err(TreeError::Refused { row, fault }) => format!(in alloc; "{fault:?} at {row}"),
        Err(TreeError::Memory(error)) => Err(error),
    }
}

fn copy(alloc: Global, tree: &Tree) -> Result<String, AllocError> {
    let copy = tree.copy()?;
    format!(in alloc; "{} nodes", copy.rows().len())
}

/// Returns the path of some names: None where they are no path.
fn path_of(words: &[Vec<u8>]) -> Option<NamePath> {
    let (first, below) = words.split_first()?;
    let mut path = NamePath::new(Name::new(first)?);
    for word in below {
        path = path.then(Name::new(word)?)?;
    }
    Some(path)
}

/// Returns the node with a path: its row, what leaf it is, the number of its tree, and the leaves
/// under it.
fn node(alloc: Global, tree: &Tree, words: &[Vec<u8>]) -> Result<String, AllocError> {
    let Some(path) = path_of(words) else {
        return String::from_str(alloc, "no path");
    };
    let Some(node) = tree.node(&path) else {
        return String::from_str(alloc, "None");
    };
    let leaf = tree.leaf(node).map(|leaf| leaf.number);
    let (first, past) = tree.leaves_under(node);
    let top = tree.top(node);
    format!(in alloc;
        "row {}, leaf {leaf:?}, tree {top}, leaves {first} to {past}",
        node.row
    )
}

fn path(alloc: Global, tree: &Tree, number: u64) -> Result<String, AllocError> {
    if number >= u64::from(tree.leaves()) {
        return String::from_str(alloc, "no leaf");
    }
    let number = number as u32;
    let mut answer = String::new(alloc);
    for name in tree.path(Leaf { number }).names() {
        answer.push('/')?;
        answer.push_str(name.as_str())?;
    }
    Ok(answer)
}

/// Returns the leaf that the node with a path chooses, by the first arrival number of each leaf, or
/// `-`.
fn next(alloc: Global, tree: &Tree, words: &mut Words<'_>) -> Result<String, AllocError> {
    let mut heads = Vec::new(alloc);
    for _leaf in 0..tree.leaves() {
        let number = words.number();
        heads.push(if number == 0 { None } else { Some(number) })?;
    }
    let Some(path) = path_of(words.rest()) else {
        return String::from_str(alloc, "no path");
    };
    let Some(node) = tree.node(&path) else {
        return String::from_str(alloc, "no node");
    };
    if heads.len() != tree.leaves() as usize {
        return String::from_str(alloc, "not a head for each leaf");
    }
    let leaf = tree.next(node, &heads).map(|leaf| leaf.number);
    format!(in alloc; "{leaf:?}")
}
