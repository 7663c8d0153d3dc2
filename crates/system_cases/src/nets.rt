//! The networks of the cases.

/// One terminal, one queue and one unit.
const ONE: &[u8] = b"version = 1
terminal = [{ name = \"T1\", password = \"TPASS\", input = \"t1.in\", framing = \"marks\", route = [\"Q1\"] }]
queue = [{ name = \"Q1\", password = \"QPASS\" }]
unit = [{ name = \"U1\", source = \"u1.cob\" }]
";

/// Two units over a tree, two terminals of which the second is closed for output, and a unit that
/// a message starts.
const TREE: &[u8] = b"version = 1
terminal = [
  { name = \"T1\", password = \"P1\", input = \"t1.in\", framing = \"marks\", route = [\"Q\", \"A\"] },
  { name = \"T2\", password = \"P2\", input = \"t2.in\", framing = \"lines\", route = [\"Q\", \"B\"], output-enabled = false },
]
queue = [{ name = \"Q\", password = \"QPASS\", choose = \"ordered\", sub = [{ name = \"A\" }, { name = \"B\", enabled = false }] }]
unit = [
  { name = \"U1\", source = \"u1.cob\" },
  { name = \"U2\", source = \"u2.cob\" },
  { name = \"S1\", source = \"s1.cob\", schedule = [\"Q\"] },
]
";

/// Returns the description with a name, and an empty one where there is none.
pub fn description(name: &[u8]) -> &'static [u8] {
    match name {
        b"one" => ONE,
        b"tree" => TREE,
        _ => b"",
    }
}
