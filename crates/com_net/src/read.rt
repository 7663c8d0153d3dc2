//! Reading a description.
ghost use Rattle.std.specs.Prelude.{◌≡◌, true, false, Some, None, map, option_map, IsSome, IsErr, IfOk, IfErr, OnOk, codes};
ghost use Rattle.std.specs.List.{list_all};
ghost use Rattle.toml.specs.View.{table_view};
ghost use Rattle.com_net.specs.Description.{document_of, document_fault, is_too_long, parts_of, net_of, net_fault_of, IsRefusalBy, IsRefusalOf, IsMemory};
ghost use Rattle.com_net.specs.inner.Checks.{early_fault, late_fault};
ghost use Rattle.com_net.specs.inner.Sound.{has_names};
ghost use Rattle.com_net.specs.inner.Seen.{seen};

use crate::fault::{MAX_DESCRIPTION, NetError, NetFault, NetKind};
use crate::gather::gather;
use crate::key_faults::{Check, first_fault};
use crate::name_faults::{over_limit, twice_named};
use crate::net::Net;
use crate::paths::below;
use crate::places::{TableAt, places};
use crate::routes::bad_route;
use crate::tree_faults::tree_of;
use com_text::Text;
use com_tree::Tree;
use std::alloc::{AllocError, Global};
use toml::Table;

impl Net {
    /// Returns the network that a description gives, where it has no fault. Refused with the first
    /// kind of fault that there is, at its first place. Memory: memory ran out.
    pub fn read(alloc: Global, bytes: &[u8]) -> Result<Net, NetError>
        // A network is the description's, and then no fault is reported.
        ensures net { IfOk result (λ net. net_of bytes.now ≡ Some net) }
        ensures only_net { IsSome (net_of bytes.now) → IfErr result IsMemory }

        // A fault is the description's, and where there is one, no network is given.
        ensures refused { IfErr result (IsRefusalOf bytes.now) }
        ensures only_refused { IsSome (net_fault_of bytes.now) → IsErr result }
    {
        let document = document_of(alloc, bytes)?;
        net_of(alloc, &document)
    }
}

/// Returns the document that bytes write.
fn document_of(alloc: Global, bytes: &[u8]) -> Result<Table, NetError>
    ensures short { OnOk result (is_too_long bytes.now ≡ false) }
    ensures document { IfOk result
        (λ document. document_of bytes.now ≡ Some (table_view document)) }
    ensures refused { IfErr result (IsRefusalOf bytes.now) }
{
    if bytes.len() > MAX_DESCRIPTION {
        return Err(refusal_of_file(alloc, NetKind::OverLimit)?);
    }
    match toml::table_from_slice(alloc, bytes) {
        Ok(document) => Ok(document),
        Err(error) => if error.is_memory() {
            Err(NetError::Memory(AllocError))
        } else {
            Err(refusal_of_file(alloc, NetKind::NotToml)?)
        },
    }
}

/// Returns the refusal of a description as a whole.
fn refusal_of_file(alloc: Global, kind: NetKind) -> Result<NetError, AllocError>
    ensures { IfOk result (IsRefusalBy (Some (kind, codes "file"))) }
{
    let path = below(alloc, b"", b"file")?;
    Ok(NetError::Refused(NetFault { kind, path }))
}

/// Returns the network of a document, or its first fault.
fn net_of(alloc: Global, document: &Table) -> Result<Net, NetError>
    ensures sound { OnOk result (document_fault (table_view document.now) ≡ None) }
    ensures net { IfOk result (λ net. net ≡ parts_of (table_view document.now)) }
    ensures refused { IfErr result (IsRefusalBy (document_fault (table_view document.now))) }
{
    let places = places(alloc, document)?;
    if let Some(fault) = early_fault(alloc, &places)? {
        return Err(NetError::Refused(fault));
    }
    let tree = tree_of(alloc, &places)?;
    if let Some(fault) = late_fault(alloc, &tree, &places, document)? {
        return Err(NetError::Refused(fault));
    }
    let gathered = gather(alloc, &tree, &places)?;
    let net = gathered.into_net(alloc, tree)?;
    Ok(net)
}

/// Returns the first fault of the kinds before those of the trees.
fn early_fault(alloc: Global, places: &[TableAt<'_>]) -> Result<Option<NetFault>, AllocError>
    ensures { IfOk result (λ found. option_map (λ fault. (fault.kind, fault.path)) found
        ≡ early_fault (map seen places.now)) }
{
    if let Some(path) = first_fault(alloc, Check::MissingKey, places)? {
        return Ok(told(NetKind::MissingKey, path));
    }
    if let Some(path) = first_fault(alloc, Check::WrongKind, places)? {
        return Ok(told(NetKind::WrongKind, path));
    }
    if let Some(path) = first_fault(alloc, Check::UnknownKey, places)? {
        return Ok(told(NetKind::UnknownKey, path));
    }
    if let Some(path) = first_fault(alloc, Check::BadName, places)? {
        return Ok(told(NetKind::BadName, path));
    }
    if let Some(path) = twice_named(alloc, places)? {
        return Ok(told(NetKind::TwiceNamed, path));
    }
    Ok(None)
}

/// Returns the first fault of the kinds after those of the trees.
fn late_fault(
    alloc: Global,
    tree: &Tree,
    places: &[TableAt<'_>],
    document: &Table,
) -> Result<Option<NetFault>, AllocError>
    requires { list_all has_names (map seen places.now) ≡ true }
    ensures { IfOk result (λ found. option_map (λ fault. (fault.kind, fault.path)) found
        ≡ late_fault tree.now (map seen places.now) (table_view document.now)) }
{
    if let Some(path) = bad_route(alloc, tree, places)? {
        return Ok(told(NetKind::BadRoute, path));
    }
    if let Some(path) = first_fault(alloc, Check::BadPassword, places)? {
        return Ok(told(NetKind::BadPassword, path));
    }
    if let Some(path) = over_limit(document) {
        let path = below(alloc, b"", path.as_bytes())?;
        return Ok(told(NetKind::OverLimit, path));
    }
    Ok(None)
}

/// Returns a fault of a kind at a path.
fn told(kind: NetKind, path: Text) -> Option<NetFault>
    ensures { result ≡ Some (record { kind = kind; path = path }) }
{
    Some(NetFault { kind, path })
}
