//! What holds of every description.
ghost use Rattle.std.specs.Prelude.{◌≡◌, ◌↔◌, ◌<◌, ◌^◌, ℕ, List, length, Some, None, is_some, is_none, IfSome, codes};
ghost use Rattle.toml.specs.Data.{Members};
ghost use Rattle.com_net.specs.declared.fault.NetKind.TheVariants as kind;
ghost use Rattle.com_net.specs.Network.{IsNet};
ghost use Rattle.com_net.specs.Description.{document_fault, parts_of, net_of, net_fault_of};

/// A description is refused as too long exactly if it has more than 1,048,576 bytes, whatever
/// they are.
pub fn a_description_is_too_long_by_its_length_alone()
    ensures { (bytes : List ℕ)
        → ((net_fault_of bytes ≡ Some (kind.OverLimit, codes "file")) ↔ (2 ^ 20 < length bytes)) }
{}

/// A description gives a network or has a fault, and never both.
pub fn a_description_gives_a_network_or_a_fault()
    ensures { (bytes : List ℕ) → is_some (net_of bytes) ≡ is_none (net_fault_of bytes) }
{}

/// The parts that a document without a fault gives are those of a network.
pub fn a_document_without_a_fault_gives_a_network()
    ensures document { (document : Members)
        → document_fault document ≡ None → IsNet (parts_of document) }
    ensures bytes { (bytes : List ℕ) → IfSome (net_of bytes) IsNet }
{}
