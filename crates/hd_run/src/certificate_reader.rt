// A certificate that comes in pieces.
ghost use Rattle.std.specs.Prelude.{◌≡◌, ◌<◌, ◌+◌, ◌++◌, ◌^◌, [], ℕ, List as Items, IfOk, length};
ghost use Rattle.hd_num.specs.Lines.{lines_of};
ghost use Rattle.hd_run.specs.CertificateReader.{IsOfKind, StandsFor, fed_of};
ghost use Rattle.hd_run.specs.Outcome.{begins_pruning};

use bstr::ByteSlice;
use hd_audit::AuditReader;
use hd_list::{List, Memory};
use hd_num::{first_word, next_line};
use std::alloc::Global;

/// Reads a certificate of either kind that comes in pieces, cut anywhere. Its first line tells the kind.
#[derive(Drop)]
pub enum CertificateReader {
    /// All bytes, where the first line is not whole yet.
    FirstLine(List<u8>),
    /// All bytes of a saddle certificate.
    Saddle(List<u8>),
    /// A pruning certificate, line by line.
    Pruning(AuditReader),
}

impl CertificateReader {
    /// A reader before the first piece.
    pub fn new(alloc: Global) -> CertificateReader
        ensures stands { StandsFor result [] }
        ensures fed { fed_of result ≡ 0 }
    {
        CertificateReader::FirstLine(List::new(alloc))
    }

    /// The reader with the next piece.
    pub fn fed(self, alloc: Global, piece: &[u8]) -> Result<CertificateReader, Memory>
        requires { fed_of self + length piece.now < 2 ^ 63 }
        ensures stands { IfOk result (λ reader. (bytes : Items ℕ) → StandsFor self bytes
            → StandsFor reader (bytes ++ piece.now)) }
        ensures fed { IfOk result (λ reader. fed_of reader ≡ fed_of self + length piece.now) }
    {
        match self {
            CertificateReader::FirstLine(text) => feed_first_line(alloc, text, piece),
            CertificateReader::Saddle(text) => {
                let mut text = text;
                text.extend_from_slice(piece)?;
                Ok(CertificateReader::Saddle(text))
            }
            CertificateReader::Pruning(reader) => {
                let mut reader = reader;
                reader.feed(alloc, piece)?;
                Ok(CertificateReader::Pruning(reader))
            }
        }
    }
}

// The same in the first line.
fn feed_first_line(alloc: Global, text: List<u8>, piece: &[u8]) -> Result<CertificateReader, Memory>
    requires { length text + length piece.now < 2 ^ 63 }
    ensures stands { IfOk result (λ reader. StandsFor reader (text ++ piece.now)) }
    ensures fed { IfOk result (λ reader. fed_of reader ≡ length text + length piece.now) }
{
    let mut text = text;
    text.extend_from_slice(piece)?;
    match piece.find_byte(b'\n') {
        Some(_) => begin(alloc, text),
        None => Ok(CertificateReader::FirstLine(text)),
    }
}

// The reader of a certificate whose first line is whole.
fn begin(alloc: Global, text: List<u8>) -> Result<CertificateReader, Memory>
    requires kind { IsOfKind (begins_pruning (lines_of text)) text }
    requires few { length text < 2 ^ 63 }
    ensures stands { IfOk result (λ reader. StandsFor reader text) }
    ensures fed { IfOk result (λ reader. fed_of reader ≡ length text) }
{
    if begins_pruning(text.as_slice()) {
        let mut reader = AuditReader::new(alloc);
        reader.feed(alloc, text.as_slice())?;
        Ok(CertificateReader::Pruning(reader))
    } else {
        Ok(CertificateReader::Saddle(text))
    }
}

/// Whether the first word of the first line of a text is `pruning`.
pub fn begins_pruning(text: &[u8]) -> bool
    ensures { result ≡ begins_pruning (lines_of text.now) }
{
    let Some((line, _)) = next_line(text, 0) else {
        return false;
    };
    match first_word(&text[line.start..line.end]) {
        Some((word, _)) => word == b"pruning".as_slice(),
        None => false,
    }
}
