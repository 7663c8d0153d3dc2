//! Why a command is not done, and the line that it then writes.
ghost use Rattle.std.specs.Prelude.{◌≡◌, ◌++◌, IfOk, OnOk};
ghost use Rattle.mcs_top.specs.Reports.{usage_report, description_report, unreadable_report, source_report, fault_words, script_report, net_kind_words, source_kind_word, reason_word, report_of, status_of, IsAnswerTo, IsRefusedWith};

use crate::script::Reason;
use cob_lex::{SourceFault, SourceKind};
use com_io::{OUTPUT_NAME, Store, StoreFault};
use com_net::{NetFault, NetKind};
use com_text::{Name, Rows, put_number};
use com_tree::TreeFault;
use std::alloc::{AllocError, Global};

/// Why a command is not done.
#[derive(Debug, Drop)]
pub enum Failure<'a> {
    Refused(Refusal<'a>),
    /// A write of the outputs failed.
    Write,
    Memory,
}

/// Why a command is refused. Each is reported in one write.
#[derive(Debug, Drop)]
pub enum Refusal<'a> {
    /// The words are no command.
    Usage,
    /// The description gives no network.
    Description(NetFault),
    /// The file of this name could not be read.
    Unread(&'a str),
    /// The source of the unit of this name is refused.
    Source { unit: &'a Name, fault: SourceFault },
    /// The script is refused at this line, from 1.
    Script { line: u64, reason: Reason },
    /// The input that is shown has a fault. Its report is all that is shown of it.
    Input(Rows<u8>),
}

const OUT_OF_MEMORY: u8 = 1;

const USAGE: u8 = 2;

const DESCRIPTION_REFUSED: u8 = 3;

const SOURCE_REFUSED: u8 = 4;

const FILE_UNREAD: u8 = 5;

const WRITE_FAILED: u8 = 7;

const SCRIPT_REFUSED: u8 = 8;

const INPUT_FAULTY: u8 = 9;

/// The exit status of a command that is not done. A refusal's report is written first.
pub fn answer<S: Store>(alloc: Global, failure: Failure<'_>, store: &mut S) -> u8
    ensures { IsAnswerTo failure.entry result (S.shows store.old) (S.shows store.new) }
{
    match failure {
        Failure::Refused(refusal) => refuse(alloc, refusal, store),
        Failure::Write => WRITE_FAILED,
        Failure::Memory => OUT_OF_MEMORY,
    }
}

/// Writes the report of a refusal, and answers its status. A failure of the write leaves it.
pub fn refuse<S: Store>(alloc: Global, refusal: Refusal<'_>, store: &mut S) -> u8
    ensures { IsRefusedWith refusal.entry result (S.shows store.old) (S.shows store.new) }
{
    let status = status_of(&refusal);
    let Ok(report) = report_of(alloc, refusal) else {
        return OUT_OF_MEMORY;
    };
    match store.write(OUTPUT_NAME, report.as_slice()) {
        Ok(()) | Err(StoreFault::Failed) => status,
        Err(StoreFault::Memory) => OUT_OF_MEMORY,
    }
}

fn status_of(refusal: &Refusal<'_>) -> u8
    ensures { result ≡ status_of refusal.now }
{
    match refusal {
        Refusal::Usage => USAGE,
        Refusal::Description(_) => DESCRIPTION_REFUSED,
        Refusal::Unread(_) => FILE_UNREAD,
        Refusal::Source { .. } => SOURCE_REFUSED,
        Refusal::Script { .. } => SCRIPT_REFUSED,
        Refusal::Input(_) => INPUT_FAULTY,
    }
}

fn report_of(alloc: Global, refusal: Refusal<'_>) -> Result<Rows<u8>, AllocError>
    ensures { IfOk result (λ text. text ≡ report_of refusal.entry) }
{
    match refusal {
        Refusal::Usage => usage_report(alloc),
        Refusal::Description(fault) => description_report(alloc, &fault),
        Refusal::Unread(name) => unreadable_report(alloc, name),
        Refusal::Source { unit, fault } => source_report(alloc, unit, fault),
        Refusal::Script { line, reason } => script_report(alloc, line, reason),
        Refusal::Input(text) => Ok(text),
    }
}

fn usage_report(alloc: Global) -> Result<Rows<u8>, AllocError>
    ensures { IfOk result (λ text. text ≡ usage_report) }
{
    let mut out = Rows::new(alloc);
    out.extend_from_slice(
        b"usage: mcs run NET, replay NET SCRIPT, check NET, show MODE FILE, load N\n",
    )?;
    Ok(out)
}

fn description_report(alloc: Global, fault: &NetFault) -> Result<Rows<u8>, AllocError>
    ensures { IfOk result (λ text. text ≡ description_report fault.now.kind fault.now.path) }
{
    let mut out = Rows::new(alloc);
    out.extend_from_slice(b"description refused: ")?;
    out.extend_from_slice(net_kind_words(fault.kind))?;
    out.extend_from_slice(b" ")?;
    out.extend_from_slice(fault.path.as_bytes())?;
    out.extend_from_slice(b"\n")?;
    Ok(out)
}

fn unreadable_report(alloc: Global, name: &str) -> Result<Rows<u8>, AllocError>
    ensures { IfOk result (λ text. text ≡ unreadable_report name.now) }
{
    let mut out = Rows::new(alloc);
    out.extend_from_slice(b"cannot read ")?;
    out.extend_from_slice(name.as_bytes())?;
    out.extend_from_slice(b"\n")?;
    Ok(out)
}

fn source_report(alloc: Global, unit: &Name, fault: SourceFault) -> Result<Rows<u8>, AllocError>
    ensures { IfOk result (λ text. text ≡ source_report unit.now fault) }
{
    let mut out = Rows::new(alloc);
    out.extend_from_slice(b"source refused: ")?;
    out.extend_from_slice(unit.as_bytes())?;
    put_fault(&mut out, fault)?;
    out.extend_from_slice(b"\n")?;
    Ok(out)
}

/// Adds the place and the kind of a source's fault.
fn put_fault(out: &mut Rows<u8>, fault: SourceFault) -> Result<(), AllocError>
    ensures { OnOk result (out.new ≡ out.old ++ fault_words fault) }
{
    out.extend_from_slice(b" line ")?;
    put_number(out, u64::from(fault.line))?;
    out.extend_from_slice(b" column ")?;
    put_number(out, u64::from(fault.column))?;
    out.extend_from_slice(b" ")?;
    out.extend_from_slice(source_kind_word(fault.kind))
}

fn script_report(alloc: Global, line: u64, reason: Reason) -> Result<Rows<u8>, AllocError>
    ensures { IfOk result (λ text. text ≡ script_report line reason) }
{
    let mut out = Rows::new(alloc);
    out.extend_from_slice(b"script refused: line ")?;
    put_number(&mut out, line)?;
    out.extend_from_slice(b" ")?;
    out.extend_from_slice(reason_word(reason))?;
    out.extend_from_slice(b"\n")?;
    Ok(out)
}

fn net_kind_words(kind: NetKind) -> &'static [u8]
    ensures { result.now ≡ net_kind_words kind }
{
    match kind {
        NetKind::NotToml => b"NotToml",
        NetKind::MissingKey => b"MissingKey",
        NetKind::WrongKind => b"WrongKind",
        NetKind::UnknownKey => b"UnknownKey",
        NetKind::BadName => b"BadName",
        NetKind::TwiceNamed => b"TwiceNamed",
        NetKind::BadTree(TreeFault::TwiceNamed) => b"BadTree TwiceNamed",
        NetKind::BadTree(TreeFault::TooDeep) => b"BadTree TooDeep",
        NetKind::BadTree(TreeFault::TooMany) => b"BadTree TooMany",
        NetKind::BadTree(TreeFault::Empty) => b"BadTree Empty",
        NetKind::BadRoute => b"BadRoute",
        NetKind::BadPassword => b"BadPassword",
        NetKind::OverLimit => b"OverLimit",
    }
}

fn source_kind_word(kind: SourceKind) -> &'static [u8]
    ensures { result.now ≡ source_kind_word kind }
{
    match kind {
        SourceKind::BadCharacter => b"BadCharacter",
        SourceKind::BadColumn => b"BadColumn",
        SourceKind::BadWord => b"BadWord",
        SourceKind::BadPicture => b"BadPicture",
        SourceKind::WantedWord => b"WantedWord",
        SourceKind::TwiceDeclared => b"TwiceDeclared",
        SourceKind::UnknownName => b"UnknownName",
        SourceKind::WrongKind => b"WrongKind",
        SourceKind::WrongLength => b"WrongLength",
        SourceKind::LeavesRange => b"LeavesRange",
        SourceKind::PerformsItself => b"PerformsItself",
        SourceKind::TwoInitial => b"TwoInitial",
        SourceKind::OverLimit => b"OverLimit",
    }
}

fn reason_word(reason: Reason) -> &'static [u8]
    ensures { result.now ≡ reason_word reason }
{
    match reason {
        Reason::Size => b"SIZE",
        Reason::Text => b"TEXT",
        Reason::NotAllowed => b"CALL",
    }
}
