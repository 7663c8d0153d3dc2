//! Laws of logs. A function here does nothing; its contract is the law.
ghost use Rattle.std.specs.Prelude.{◌≡◌, ℕ, List};
ghost use Rattle.com_events.specs.declared.entry.Entry.{Entry};
ghost use Rattle.com_disk.specs.Logs.{Stands};
ghost use Rattle.com_disk.specs.Refusals.{IsNoLog};

/// An image stands for one list of entries at most.
pub fn an_image_has_one_list()
    ensures { (image : List ℕ) (version other : ℕ) (entries others : List Entry)
        → Stands image version entries → Stands image other others
        → (version ≡ other) × (entries ≡ others) }
{}

/// An image that stands for entries is no log because of no place.
pub fn a_log_has_no_fault()
    ensures { (image : List ℕ) (version at : ℕ) (entries : List Entry)
        → Stands image version entries → IsNoLog image at → ⊥ }
{}

/// An image that is no log has one place because of which it is none.
pub fn a_fault_has_one_place()
    ensures { (image : List ℕ) (at other : ℕ)
        → IsNoLog image at → IsNoLog image other → at ≡ other }
{}
