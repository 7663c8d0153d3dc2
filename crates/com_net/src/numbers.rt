//! Laws of the numbers of terminals and units. A function here does nothing; its contract is the law.
ghost use Rattle.std.specs.Prelude.{◌≡◌, ℕ, Some, slice_get};
ghost use Rattle.com_net.specs.declared.net.Net.{Net as NetOf};
ghost use Rattle.com_net.specs.declared.net.Terminal.{Terminal as TerminalOf};
ghost use Rattle.com_net.specs.declared.net.UnitRow.{UnitRow as UnitOf};
ghost use Rattle.com_net.specs.Network.{IsNet};
ghost use Rattle.com_net.specs.Numbers.{unit_number, terminal_number};

/// The name of the k-th unit has the number k, and so has that of the k-th terminal.
pub fn a_name_has_its_place()
    ensures units { (net : NetOf) (k : ℕ) (unit : UnitOf) → IsNet net →
        slice_get net.units k ≡ Some unit → unit_number net unit.name ≡ Some k }
    ensures terminals { (net : NetOf) (k : ℕ) (terminal : TerminalOf) → IsNet net →
        slice_get net.terminals k ≡ Some terminal → terminal_number net terminal.name ≡ Some k }
{}
