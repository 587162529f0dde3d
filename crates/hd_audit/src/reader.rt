// A pruning certificate that comes in pieces.
ghost use Rattle.std.specs.Prelude.{◌≡◌, ◌⊎◌, ◌≤◌, ◌<◌, ◌+◌, ◌^◌, ℕ, Err, length};
ghost use Rattle.hd_audit.specs.Pieces.{Feeds, size_of};

use crate::Audit;
use crate::part::PartAudit;
use hd_check::CertificateError;
use hd_list::Memory;
use std::alloc::Global;
use std::mem::replace;

/// What has come of a certificate.
#[derive(Drop)]
pub enum AuditState {
    /// Lines that have their form, and a part of the next.
    Reading(PartAudit),
    /// An offence, or want of memory.
    Refused(CertificateError),
}

/// Reads a pruning certificate that comes in pieces, cut anywhere.
///
/// A reader stands for the bytes that it was fed, and keeps of them only the line that is not whole
/// yet and what the lines before it say.
#[derive(Drop)]
pub struct AuditReader {
    fed: u64,
    state: AuditState,
    ghost counted: { size_of state ≤ fed + 1 },
    ghost few: { fed < 2 ^ 63 },
}

impl AuditReader {
    ghost use Rattle.std.specs.Prelude.{◌++◌, [], List as Items, OnErr, OnOk};
    ghost use Rattle.std.specs.Result.{IsErr};
    ghost use Rattle.hd_audit.specs.Reader.{IsRefusedWith, IsSpent, StandsFor, StaysRefused, fed_of};
    ghost use Rattle.hd_audit.specs.Reading.{audit_of};

    /// A reader before the first piece.
    pub fn new(alloc: Global) -> AuditReader
        ensures stands { StandsFor result [] }
        ensures fed { fed_of result ≡ 0 }
    {
        AuditReader {
            fed: 0,
            state: AuditState::Reading(PartAudit::new(alloc)),
        }
    }

    /// Reads on in the next piece. An offence is kept whatever comes after it, and told at the end. After
    /// `Memory` each later call answers `Memory`.
    pub fn feed(&mut self, alloc: Global, piece: &[u8]) -> Result<(), Memory>
        requires { fed_of self.old + length piece.now < 2 ^ 63 }
        ensures ok { OnOk result ((bytes : Items ℕ) → StandsFor self.old bytes
            → StandsFor self.new (bytes ++ piece.now)) }
        ensures err { OnErr result (IsSpent self.new) }
        ensures again { IsSpent self.old → IsErr result }
        ensures stays { StaysRefused self.old self.new }
        ensures fed { fed_of self.new ≡ fed_of self.old + length piece.now }
    {
        let old = replace(
            &mut self.state,
            AuditState::Refused(CertificateError::Memory),
        );
        let new = read_on(alloc, old, piece);
        let is_spent = matches!(&new, AuditState::Refused(CertificateError::Memory));
        drop(replace(&mut self.state, new));
        self.fed += piece.len() as u64;
        if is_spent { Err(Memory) } else { Ok(()) }
    }

    /// The certificate of all pieces joined, as [`read_audit`](crate::read_audit) answers it.
    ///
    /// # Errors
    ///
    /// `BadLine` with the number of the first line that has not its form in its place. `Memory` may come
    /// in place of any other answer but that of an offence that is kept.
    pub fn finish(self, alloc: Global) -> Result<Audit, CertificateError>
        ensures text { (bytes : Items ℕ) → StandsFor self bytes
            → (result ≡ Err CertificateError.Memory) ⊎ (result ≡ audit_of bytes) }
        ensures again { (error : CertificateError) → IsRefusedWith self error → result ≡ Err error }
    {
        let AuditReader { state, .. } = self;
        match state {
            AuditState::Reading(part) => part.ended(alloc),
            AuditState::Refused(error) => Err(error),
        }
    }
}

// Reads on in the next piece.
fn read_on(alloc: Global, state: AuditState, piece: &[u8]) -> AuditState
    requires { size_of state + length piece.now < 2 ^ 64 }
    ensures text { Feeds state piece.now result }
    ensures again { (error : _) → state ≡ AuditState.Refused error → result ≡ AuditState.Refused error }
    ensures size { size_of result ≤ size_of state + length piece.now }
{
    match state {
        AuditState::Reading(part) => match part.fed(alloc, piece) {
            Ok(part) => AuditState::Reading(part),
            Err(error) => AuditState::Refused(error),
        },
        AuditState::Refused(error) => AuditState::Refused(error),
    }
}
