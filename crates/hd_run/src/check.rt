// The check of a certificate against a surface.
ghost use Rattle.std.specs.Prelude.{◌≡◌, ◌≢◌, ◌⊎◌, ℕ, List as Items, Some, Ok, Err, IfErr, IfOk, IsTrue};
ghost use Rattle.std.specs.Io.KnownBytes.{Keeps};
ghost use Rattle.hd_audit.specs.Rules as pruning;
ghost use Rattle.hd_check.specs.Reading.{certificate_of};
ghost use Rattle.hd_check.specs.Rules.{IsVerdict};
ghost use Rattle.hd_map.specs.Surface.{map_of};
ghost use Rattle.hd_sdf_read.specs.FileOf.{file_of};
ghost use Rattle.hd_run.specs.CertificateReader.{StandsFor};
ghost use Rattle.hd_run.specs.FaultCounts.{Count, RoseIn, SourceFailed, Stays, over};
ghost use Rattle.hd_run.specs.Limits.{certificate_limit, surface_limit};
ghost use Rattle.hd_run.specs.Outcome.{IsOutcomeOfReading, surface_of};
ghost use Rattle.hd_run.specs.ReadOrder.{IsNotOfSurface, IsOfSurface, SecondComesLast, StopsWithin, reading};
ghost use Rattle.hd_run.specs.RunResult.{HasRunStop, IsCheck, IsJudged, IsJudgedAs, stop_at, stop_of};

use crate::certificate_reader::{CertificateReader, begins_pruning};
use crate::inputs::{read_certificate, read_surface};
use crate::stop::{Refusal, Stop};
use crate::texts::ACCEPTED;
use hd_audit::{Audit, check_audit, pruning_verdict_is_determined, read_audit};
use hd_base::{Sink, Source, write_all};
use hd_check::{Certificate, CertificateError, Verdict, check, verdict_is_determined};
use hd_list::Memory;
use hd_map::Surface;
use hd_sdf_read::SdfFile;
use hd_words::CheckJob;
use std::alloc::Global;

/// Reads the surface, then the certificate, and writes that it is accepted, where all rules hold of
/// it on the surface. A certificate that cannot be read, or by which a rule fails, is a refusal.
pub fn check_certificate<S: Source, R: Source, W: Sink>(
    alloc: Global,
    job: &CheckJob<'_>,
    surface: &mut S,
    script: &mut R,
    out: &mut W,
) -> Result<bool, Stop>
    requires open { IsTrue (W.is_open out.old) }
    requires surface { IsTrue (S.allows surface.old job.now.surface.now) }
    requires certificate { IsTrue (R.allows script.old job.now.certificate.now) }
    ensures open { IsTrue (W.is_open out.new) }
    ensures told { (bytes second : Items ℕ) → S.files surface.old job.now.surface.now ≡ Some bytes
        → R.files script.old job.now.certificate.now ≡ Some second
        → IsCheck bytes second result (W.written out.old) (W.written out.new) }
    ensures unwritten { result ≡ Err Stop.ReadFault → Keeps (W.written out.old) (W.written out.new) }
    ensures order { SecondComesLast (Some job.now.certificate.now) (S.files surface.old job.now.surface.now)
        (over (S.faults surface.old) (S.faults surface.new)) script.old script.new }
    ensures unread { (refusal : Refusal) → result ≡ Err (Stop.Refused refusal) → IsOfSurface refusal
        → script.new ≡ script.old }
    ensures surface_left { StopsWithin surface_limit job.now.surface.now
        (reading (S.files surface.old) (S.left surface.old)
        (S.left surface.new) (over (S.faults surface.old) (S.faults surface.new))) }
    ensures certificate_left { (script.new ≡ script.old)
        ⊎ StopsWithin certificate_limit job.now.certificate.now (reading (R.files script.old) (R.left script.old)
        (R.left script.new) (over (R.faults script.old) (R.faults script.new))) }
    ensures failed { (bytes : Items ℕ) → S.files surface.old job.now.surface.now ≡ Some bytes
        → result ≡ Err Stop.ReadFault
        → SourceFailed (surface_of bytes) (over (S.faults surface.old) (S.faults surface.new))
        (over (R.faults script.old) (R.faults script.new)) }
    ensures cause { (saved : Count) → Stays saved
        → HasRunStop (over (S.faults surface.old) (S.faults surface.new))
        (over (R.faults script.old) (R.faults script.new)) (over (W.faults out.old) (W.faults out.new)) saved result }
{
    let file = match read_surface(alloc, surface, job.surface) {
        Ok(file) => file,
        Err(stop) => return Err(stop),
    };
    let checked = check_second(alloc, job, &file, script, out);
    drop(file);
    checked
}

// Reads the certificate, and writes that it is accepted, where all rules hold of it on the surface of
// a file.
fn check_second<R: Source, W: Sink>(
    alloc: Global,
    job: &CheckJob<'_>,
    file: &SdfFile,
    script: &mut R,
    out: &mut W,
) -> Result<bool, Stop>
    requires open { IsTrue (W.is_open out.old) }
    requires certificate { IsTrue (R.allows script.old job.now.certificate.now) }
    ensures open { IsTrue (W.is_open out.new) }
    ensures told { (bytes second : Items ℕ) → surface_of bytes ≡ Ok (file_of file.now)
        → R.files script.old job.now.certificate.now ≡ Some second
        → IsCheck bytes second result (W.written out.old) (W.written out.new) }
    ensures unwritten { result ≡ Err Stop.ReadFault → Keeps (W.written out.old) (W.written out.new) }
    ensures certificate_left { StopsWithin certificate_limit job.now.certificate.now
        (reading (R.files script.old)
        (R.left script.old) (R.left script.new) (over (R.faults script.old) (R.faults script.new))) }
    ensures failed { result ≡ Err Stop.ReadFault → RoseIn (over (R.faults script.old) (R.faults script.new)) }
    ensures later { IfErr result IsNotOfSurface }
    ensures cause { (surface saved : Count) → Stays surface → Stays saved → HasRunStop surface
        (over (R.faults script.old) (R.faults script.new)) (over (W.faults out.old) (W.faults out.new)) saved result }
{
    verdict_is_determined();
    pruning_verdict_is_determined();
    let reader = match read_certificate(alloc, script, job.certificate) {
        Ok(reader) => reader,
        Err(stop) => return Err(stop),
    };
    match judge(alloc, &file.surface, reader) {
        Ok(()) => {}
        Err(stop) => return Err(stop),
    }
    if write_all(out, ACCEPTED.as_bytes()).is_err() {
        return Err(Stop::WriteFault);
    }
    Ok(true)
}

// Tries the rules of the certificate of all bytes that were read on a surface. Ok says that all of them hold.
fn judge(alloc: Global, surface: &Surface, reader: CertificateReader) -> Result<(), Stop>
    ensures judged { (bytes : Items ℕ) → StandsFor reader bytes → IsJudged (map_of surface.now) bytes result }
    ensures no_fault { result ≢ Err Stop.ReadFault }
    ensures no_write { result ≢ Err Stop.WriteFault }
    ensures later { IfErr result IsNotOfSurface }
{
    match reader {
        CertificateReader::FirstLine(text) => judge_line(alloc, surface, text.as_slice()),
        CertificateReader::Saddle(text) => judge_saddle(alloc, surface, text.as_slice()),
        CertificateReader::Pruning(reader) => judge_pruning(alloc, surface, reader.finish(alloc)),
    }
}

// The same of one line.
fn judge_line(alloc: Global, surface: &Surface, text: &[u8]) -> Result<(), Stop>
    ensures judged { IsJudged (map_of surface.now) text.now result }
    ensures later { IfErr result IsNotOfSurface }
{
    if begins_pruning(text) {
        judge_pruning(alloc, surface, read_audit(alloc, text))
    } else {
        judge_saddle(alloc, surface, text)
    }
}

// The same of a saddle certificate.
fn judge_saddle(alloc: Global, surface: &Surface, text: &[u8]) -> Result<(), Stop>
    ensures judged { IsJudgedAs (IsOutcomeOfReading (IsVerdict (map_of surface.now))
        (certificate_of text.now)) result }
    ensures later { IfErr result IsNotOfSurface }
{
    match hd_check::read_certificate(alloc, text) {
        Ok(certificate) => stop_at(verdict_on(alloc, surface, &certificate)),
        Err(error) => Err(stop_of(error)),
    }
}

// The same of what was read of a pruning certificate.
fn judge_pruning(
    alloc: Global,
    surface: &Surface,
    read: Result<Audit, CertificateError>,
) -> Result<(), Stop>
    ensures judged { IsJudgedAs (IsOutcomeOfReading (pruning.IsVerdict (map_of surface.now)) read) result }
    ensures later { IfErr result IsNotOfSurface }
{
    match read {
        Ok(audit) => match audit_verdict_on(alloc, surface, &audit) {
            Ok(verdict) => stop_at(verdict),
            Err(Memory) => Err(Stop::Memory),
        },
        Err(error) => Err(stop_of(error)),
    }
}

// Why a check stops where a certificate is not read.
fn stop_of(error: CertificateError) -> Stop
    ensures stop { result ≡ stop_of error }
    ensures later { IsNotOfSurface result }
{
    match error {
        CertificateError::Memory => Stop::Memory,
        CertificateError::BadLine(line) => Stop::Refused(Refusal::Unreadable(line)),
    }
}

// Whether a check stops at a verdict.
fn stop_at(verdict: Verdict) -> Result<(), Stop>
    ensures stop { result ≡ stop_at verdict }
    ensures later { IfErr result IsNotOfSurface }
{
    match verdict {
        Verdict::Yes => Ok(()),
        Verdict::No { rule, at } => Err(Stop::Refused(Refusal::RuleFails { rule, at })),
    }
}

// Whether a certificate is right on a surface, by the layout of the surface.
fn verdict_on(alloc: Global, surface: &Surface, certificate: &Certificate) -> Verdict
    ensures { IsVerdict (map_of surface.now) certificate.now result }
{
    match surface {
        Surface::Narrow(grid) => check(alloc, grid, certificate),
        Surface::Wide(grid) => check(alloc, grid, certificate),
    }
}

// The same of a pruning certificate.
fn audit_verdict_on(alloc: Global, surface: &Surface, audit: &Audit) -> Result<Verdict, Memory>
    ensures { IfOk result (pruning.IsVerdict (map_of surface.now) audit.now) }
{
    match surface {
        Surface::Narrow(grid) => check_audit(alloc, grid, audit),
        Surface::Wide(grid) => check_audit(alloc, grid, audit),
    }
}
