//! Networks and faults as they are printed.
use com_msg::Framing;
use com_net::{Feed, Net, NetFault, NetKind, Terminal, UnitRow};
use com_text::Text;
use com_tree::{Choose, TreeRow};
use std::alloc::{AllocError, Global};

/// Returns the kind of a fault and its path.
pub fn fault_text(alloc: Global, fault: &NetFault) -> Result<String, AllocError> {
    let path = str::from_utf8(fault.path.as_bytes()).unwrap_or("?");
    match fault.kind {
        NetKind::BadTree(tree) => format!(in alloc; "BadTree {tree:?} {path}"),
        kind => format!(in alloc; "{kind:?} {path}"),
    }
}

/// Returns the parts of a network: terminals, nodes, the queues' passwords, the leaves' flags,
/// units.
pub fn network_text(alloc: Global, net: &Net) -> Result<String, AllocError> {
    let mut text = String::new(alloc);
    for terminal in net.terminals.as_slice() {
        text.push_str(terminal_text(alloc, terminal)?.as_str())?;
    }
    text.push_str("|")?;
    for row in net.tree.rows() {
        text.push_str(row_text(alloc, row)?.as_str())?;
    }
    text.push_str(" |")?;
    push_passwords(net.queue_passwords.as_slice(), &mut text)?;
    text.push_str(" |")?;
    for is_on in net.leaf_on.as_slice() {
        text.push_str(if *is_on { " on" } else { " off" })?;
    }
    text.push_str(" |")?;
    for unit in net.units.as_slice() {
        text.push_str(unit_text(alloc, unit)?.as_str())?;
    }
    Ok(text)
}

fn terminal_text(alloc: Global, terminal: &Terminal) -> Result<String, AllocError> {
    let name = terminal.name.as_str();
    let password = terminal.password.as_str();
    let feed = feed_text(alloc, &terminal.feed)?;
    let input = on_or_off(terminal.input_on);
    let output = on_or_off(terminal.output_on);
    format!(in alloc; "{name} {password} {} {input} {output}; ", feed.as_str())
}

fn feed_text(alloc: Global, feed: &Option<Feed>) -> Result<String, AllocError> {
    match feed {
        Some(feed) => {
            let framing = match feed.framing {
                Framing::Marks => "marks",
                Framing::Lines => "lines",
            };
            let file = feed.file.as_str();
            let leaf = feed.leaf.number;
            format!(in alloc; "{file} {framing} leaf {leaf}")
        }
        None => String::from_str(alloc, "-"),
    }
}

fn on_or_off(is_on: bool) -> &'static str {
    if is_on { "on" } else { "off" }
}

fn row_text(alloc: Global, row: &TreeRow) -> Result<String, AllocError> {
    let depth = row.depth;
    let name = row.name.as_str();
    let choose = match row.choose {
        Some(Choose::Ordered) => " ordered",
        Some(Choose::Oldest) => " oldest",
        None => "",
    };
    format!(in alloc; " {depth} {name}{choose};")
}

fn push_passwords(passwords: &[Text], text: &mut String) -> Result<(), AllocError> {
    for password in passwords {
        text.push_str(" ")?;
        text.push_str(password.as_str())?;
    }
    Ok(())
}

fn unit_text(alloc: Global, unit: &UnitRow) -> Result<String, AllocError> {
    let name = unit.name.as_str();
    let source = unit.source.as_str();
    match unit.schedule {
        Some(node) => format!(in alloc; " {name} {source} node {};", node.row),
        None => format!(in alloc; " {name} {source};"),
    }
}
