// Reading the surface file, the script and the certificate.
ghost use Rattle.std.specs.Prelude.{◌≡◌, ◌≢◌, ◌≤◌, ◌<◌, ◌+◌, ◌-◌, ◌^◌, ◌++◌, [], ℕ, List as Items, length, Some, Err, IsTrue, IfErr, IfOk, OnOk};
ghost use Rattle.hd_base.specs.Told.{TakesFew};
ghost use Rattle.hd_sdf_read.specs.Reader.{StandsFor, fed_of};
ghost use Rattle.hd_run.specs.FaultCounts.{over};
ghost use Rattle.hd_run.specs.Inputs.{HasReadStop, IsCertificateRead, IsFed, IsScriptRead, IsSurfaceRead};
ghost use Rattle.hd_run.specs.Limits.{certificate_limit, script_limit, surface_limit};
ghost use Rattle.hd_run.specs.ReadOrder.{IsNotOfSurface, StopsWithin, reading};

use crate::certificate_reader::CertificateReader;
use crate::limits::{CERTIFICATE_LIMIT, SCRIPT_LIMIT, SURFACE_LIMIT};
use crate::stop::{Refusal, Stop};
use hd_base::{ReadError, Source, read_all};
use hd_list::{List, Memory};
use hd_sdf_read::{SdfError, SdfFile, SdfReader};
use std::alloc::Global;

/// The surface file under this name. Its bytes are read piece by piece, to their end or to one past
/// the limit, also after an offence: a fault or too many bytes behind it come first.
pub fn read_surface<S: Source>(alloc: Global, source: &mut S, name: &str) -> Result<SdfFile, Stop>
    requires { IsTrue (S.allows source.old name.now) }
    ensures told { (bytes : Items ℕ) → S.files source.old name.now ≡ Some bytes → IsSurfaceRead bytes result }
    ensures left { StopsWithin surface_limit name.now
        (reading (S.files source.old) (S.left source.old) (S.left source.new)
        (over (S.faults source.old) (S.faults source.new))) }
    ensures cause { HasReadStop (S.faults source.old) (S.faults source.new) result }
{
    if source.open(name).is_err() {
        return Err(Stop::ReadFault);
    }
    read_open_surface(alloc, source)
}

// The same of the open file.
fn read_open_surface<S: Source>(alloc: Global, source: &mut S) -> Result<SdfFile, Stop>
    requires { IsTrue (S.is_open source.old) }
    ensures told { (bytes : Items ℕ) → S.left source.old ≡ Some bytes → IsSurfaceRead bytes result }
    ensures few { (bytes : Items ℕ) → S.left source.old ≡ Some bytes
        → TakesFew bytes surface_limit (S.left source.new) }
    ensures cause { HasReadStop (S.faults source.old) (S.faults source.new) result }
{
    let Ok(mut reader) = SdfReader::new(alloc) else {
        return Err(Stop::Memory);
    };
    match feed_all(alloc, source, &mut reader) {
        Ok(()) => finished(alloc, reader),
        Err(stop) => {
            drop(reader);
            Err(stop)
        }
    }
}

// Feeds the open file to a new reader, to its end or to one byte past the limit.
fn feed_all<S: Source>(alloc: Global, source: &mut S, reader: &mut SdfReader) -> Result<(), Stop>
    requires open { IsTrue (S.is_open source.old) }
    requires fresh { StandsFor reader.old [] }
    requires unfed { fed_of reader.old ≡ 0 }
    ensures told { IsFed (S.left source.old) reader.new result }
    ensures few { (bytes : Items ℕ) → S.left source.old ≡ Some bytes
        → TakesFew bytes surface_limit (S.left source.new) }
    ensures cause { HasReadStop (S.faults source.old) (S.faults source.new) result }
{
    let mut piece = [0u8; 65536];
    let mut count = 0usize;
    'pieces: loop {
        let room = (SURFACE_LIMIT + 1 - count).min(piece.len());
        let Ok(taken) = source.read(&mut piece[..room]) else {
            return Err(Stop::ReadFault);
        };
        if taken == 0 {
            return Ok(());
        }
        if feed_piece(alloc, reader, &piece[..taken]).is_err() {
            return Err(Stop::Memory);
        }
        count += taken;
        if count > SURFACE_LIMIT {
            return Err(Stop::Refused(Refusal::SurfaceTooLong));
        }
    }
}

// Feeds one piece. After an offence the reader stays with it.
fn feed_piece(alloc: Global, reader: &mut SdfReader, piece: &[u8]) -> Result<(), Memory>
    requires { fed_of reader.old + length piece.now < 2 ^ 63 }
    ensures stands { OnOk result ((bytes : Items ℕ) → StandsFor reader.old bytes
        → StandsFor reader.new (bytes ++ piece.now)) }
    ensures fed { fed_of reader.new ≤ fed_of reader.old + length piece.now }
{
    match reader.feed(alloc, piece) {
        Ok(()) => Ok(()),
        Err(refusal) => match refusal {
            SdfError::Memory => Err(Memory),
            _ => Ok(()),
        },
    }
}

// The file of a reader that was fed all bytes.
fn finished(alloc: Global, reader: SdfReader) -> Result<SdfFile, Stop>
    ensures told { (bytes : Items ℕ) → length bytes ≤ surface_limit → StandsFor reader bytes
        → IsSurfaceRead bytes result }
    ensures no_fault { result ≢ Err Stop.ReadFault }
    ensures no_write { result ≢ Err Stop.WriteFault }
{
    match reader.finish(alloc) {
        Ok(file) => Ok(file),
        Err(SdfError::Memory) => Err(Stop::Memory),
        Err(error) => Err(Stop::Refused(Refusal::Surface(error))),
    }
}

/// What is read of the certificate under this name. Its bytes are read piece by piece, to their end or to
/// one past the limit, also after an offence: a fault or too many bytes behind it come first.
pub fn read_certificate<R: Source>(
    alloc: Global,
    source: &mut R,
    name: &str,
) -> Result<CertificateReader, Stop>
    requires { IsTrue (R.allows source.old name.now) }
    ensures told { (bytes : Items ℕ) → R.files source.old name.now ≡ Some bytes
        → IsCertificateRead bytes result }
    ensures later { IfErr result IsNotOfSurface }
    ensures left { StopsWithin certificate_limit name.now
        (reading (R.files source.old) (R.left source.old) (R.left source.new)
        (over (R.faults source.old) (R.faults source.new))) }
    ensures cause { HasReadStop (R.faults source.old) (R.faults source.new) result }
{
    if source.open(name).is_err() {
        return Err(Stop::ReadFault);
    }
    read_open_certificate(alloc, source)
}

// The same of the open file. Its piece is not to stand on the stack beside that of a surface.
#[inline(never)]
fn read_open_certificate<R: Source>(
    alloc: Global,
    source: &mut R,
) -> Result<CertificateReader, Stop>
    requires { IsTrue (R.is_open source.old) }
    ensures told { (bytes : Items ℕ) → R.left source.old ≡ Some bytes → IsCertificateRead bytes result }
    ensures later { IfErr result IsNotOfSurface }
    ensures few { (bytes : Items ℕ) → R.left source.old ≡ Some bytes
        → TakesFew bytes certificate_limit (R.left source.new) }
    ensures cause { HasReadStop (R.faults source.old) (R.faults source.new) result }
{
    let mut reader = CertificateReader::new(alloc);
    let mut piece = [0u8; 65536];
    let mut count = 0usize;
    'pieces: loop {
        let room = (CERTIFICATE_LIMIT + 1 - count).min(piece.len());
        let Ok(length) = source.read(&mut piece[..room]) else {
            return Err(Stop::ReadFault);
        };
        if length == 0 {
            return Ok(reader);
        }
        reader = match reader.fed(alloc, &piece[..length]) {
            Ok(reader) => reader,
            Err(Memory) => return Err(Stop::Memory),
        };
        count += length;
        if count > CERTIFICATE_LIMIT {
            return Err(Stop::Refused(Refusal::SecondTooLong));
        }
    }
}

/// The script under this name: whole, or read to one byte past the limit.
pub fn read_script<R: Source>(alloc: Global, source: &mut R, name: &str) -> Result<List<u8>, Stop>
    requires { IsTrue (R.allows source.old name.now) }
    ensures told { (bytes : Items ℕ) → R.files source.old name.now ≡ Some bytes → IsScriptRead bytes result }
    ensures within { IfOk result (λ read. length read ≤ script_limit) }
    ensures later { IfErr result IsNotOfSurface }
    ensures left { StopsWithin script_limit name.now
        (reading (R.files source.old) (R.left source.old) (R.left source.new)
        (over (R.faults source.old) (R.faults source.new))) }
    ensures cause { HasReadStop (R.faults source.old) (R.faults source.new) result }
{
    match read_all(alloc, source, name, SCRIPT_LIMIT) {
        Ok(bytes) => Ok(bytes),
        Err(ReadError::Memory) => Err(Stop::Memory),
        Err(ReadError::ReadFault) => Err(Stop::ReadFault),
        Err(ReadError::TooLong(_)) => Err(Stop::Refused(Refusal::SecondTooLong)),
    }
}
