//! Why a description gives no network.
ghost use Rattle.std.specs.Prelude.{◌≡◌};

use com_text::Text;
use com_tree::TreeFault;
use std::alloc::AllocError;
use thiserror::Error;

/// How many bytes a description has at most.
pub const MAX_DESCRIPTION: usize = 1_048_576;

/// The kinds of faults of a description, in the order in which they are looked for. But a
/// description that is too long is `OverLimit` before anything else.
#[derive(Clone, Copy, Debug, PartialEq, Eq)]
pub enum NetKind {
    /// It is no TOML document.
    NotToml,
    /// A key that is needed is absent.
    MissingKey,
    /// A value is not of its key's kind.
    WrongKind,
    /// The table has no such key at this place.
    UnknownKey,
    /// A name, a part of a path or a file name is malformed.
    BadName,
    /// Two terminals, two units, or a terminal and a top queue have one name.
    TwiceNamed,
    /// The queues do not make trees.
    BadTree(TreeFault),
    /// A route leads to no leaf, or a schedule to no node.
    BadRoute,
    /// A password is malformed.
    BadPassword,
    /// There are too many terminals or units, or none, or the description is too long.
    OverLimit,
}

/// The first kind of fault that occurs, and its first place.
#[derive(Debug, Drop)]
pub struct NetFault {
    pub kind: NetKind,
    /// Keys and numbers from 1, joined by periods, as `queue.1.sub.2.choose`.
    pub path: Text,
}

/// Why no network was read.
#[derive(Debug, Drop, Error)]
pub enum NetError {
    /// The description is refused.
    #[error("the description is refused: {0:?}")]
    Refused(NetFault),
    /// Memory ran out.
    #[error("memory ran out")]
    Memory(AllocError),
}

impl From<AllocError> for NetError {
    ghost use Rattle.com_net.specs.declared.fault.NetError.TheVariants.{Memory};

    ghost from_gives = { λ error net_error. net_error ≡ Memory error };

    fn from(error: AllocError) -> NetError {
        NetError::Memory(error)
    }
}
