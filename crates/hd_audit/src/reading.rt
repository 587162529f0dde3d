// Reading a pruning certificate.
ghost use Rattle.std.specs.Prelude.{◌≡◌, ◌⊎◌, Err};
ghost use Rattle.hd_audit.specs.Reading.{audit_of};

use crate::{Audit, AuditReader};
use hd_check::CertificateError;
use std::alloc::Global;

/// The pruning certificate that a text holds: `pruning S P N`, then `points M` and M lines
/// `INDEX PARENT CUT`, then `end`; after it only lines without words.
///
/// `BadLine` comes exactly where a line has not its form in its place, with the number of the first
/// such line; where the text ends too early, with one more than the number of its lines.
pub fn read_audit(alloc: Global, bytes: &[u8]) -> Result<Audit, CertificateError>
    ensures { (result ≡ Err CertificateError.Memory) ⊎ (result ≡ audit_of bytes.now) }
{
    let mut reader = AuditReader::new(alloc);
    reader.feed(alloc, bytes)?;
    reader.finish(alloc)
}
