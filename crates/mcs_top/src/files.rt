//! Reading the files that a command names, and writing what it answers.
ghost use Rattle.std.specs.Prelude.{◌≡◌, IfOk, IfErr, OnOk};
ghost use Rattle.com_io.specs.Files.{file_limit, IsRead};
ghost use Rattle.mcs_top.specs.Failing.{IsNetFailure};
ghost use Rattle.mcs_top.specs.Files.{IsNotReadFor};
ghost use Rattle.mcs_top.specs.Replay.{IsNetRead};
ghost use Rattle.mcs_top.specs.Reports.{IsWritten};
ghost use Rattle.mcs_top.specs.Showing.{IsUnwrittenFor};

use crate::report::{Failure, Refusal};
use com_io::{FILE_LIMIT, OUTPUT_NAME, ReadFault, Store, StoreFault, read_file};
use com_net::{Net, NetError};
use std::alloc::Global;

/// The bytes of a file to its end, or to one past the limit.
pub fn read_named<'a, S: Store>(
    alloc: Global,
    name: &'a str,
    store: &mut S,
) -> Result<Vec<u8>, Failure<'a>>
    ensures ok { IfOk result
        (λ bytes. IsRead file_limit name.now bytes.items (S.shows store.old) (S.shows store.new)) }
    ensures err { IfErr result (IsNotReadFor name.now (S.shows store.old) (S.shows store.new)) }
    ensures pending { (S.shows store.new).pending ≡ (S.shows store.old).pending }
{
    match read_file(alloc, store, name, FILE_LIMIT) {
        Ok(bytes) => Ok(bytes),
        Err(ReadFault::NotOpened | ReadFault::Failed) => Err(Failure::Refused(Refusal::Unread(
            name,
        ))),
        Err(ReadFault::Memory) => Err(Failure::Memory),
    }
}

/// Reads a description, and answers the network that it describes.
pub fn read_net<'a, S: Store>(
    alloc: Global,
    net_file: &'a str,
    store: &mut S,
) -> Result<Net, Failure<'a>>
    ensures ok { IfOk result (IsNetRead net_file.now (S.shows store.old) (S.shows store.new)) }
    ensures err { IfErr result (IsNetFailure net_file.now (S.shows store.old) (S.shows store.new)) }
    ensures pending { (S.shows store.new).pending ≡ (S.shows store.old).pending }
{
    let bytes = read_named(alloc, net_file, store)?;
    match Net::read(alloc, &bytes) {
        Ok(net) => Ok(net),
        Err(NetError::Refused(fault)) => Err(Failure::Refused(Refusal::Description(fault))),
        Err(NetError::Memory(_)) => Err(Failure::Memory),
    }
}

/// Writes a text to standard output, in one write.
pub fn write_output<'a, S: Store>(text: &[u8], store: &mut S) -> Result<(), Failure<'a>>
    ensures ok { OnOk result (IsWritten (S.shows store.new) (S.shows store.old) text.now) }
    ensures err { IfErr result (IsUnwrittenFor text.now (S.shows store.old) (S.shows store.new)) }
    ensures pending { (S.shows store.new).pending ≡ (S.shows store.old).pending }
{
    match store.write(OUTPUT_NAME, text) {
        Ok(()) => Ok(()),
        Err(StoreFault::Failed) => Err(Failure::Write),
        Err(StoreFault::Memory) => Err(Failure::Memory),
    }
}
