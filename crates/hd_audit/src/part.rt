// What has come of a pruning certificate that comes in pieces.
ghost use Rattle.std.specs.Prelude.{◌≡◌, ◌⊎◌, ◌≤◌, ◌<◌, ◌+◌, ◌++◌, ◌^◌, [], Err, IfOk, IfSome, length};
ghost use Rattle.hd_audit.specs.Pieces.{EndsLine, FeedsPart, IsCutAfterLine, part_ends, part_size};

use crate::Audit;
use crate::stage::{Stage, take_lines};
use bstr::ByteSlice;
use hd_check::CertificateError;
use hd_list::List;
use std::alloc::Global;

/// How far a certificate is read, the number of the line that is not whole yet, and what has come of
/// that line.
#[derive(Drop)]
pub struct PartAudit {
    pub stage: Stage,
    pub number: u64,
    pub rest: List<u8>,
}

impl PartAudit {
    /// Before the first piece.
    pub fn new(alloc: Global) -> PartAudit
        ensures stage { result.stage ≡ Stage.Nothing }
        ensures number { result.number ≡ 1 }
        ensures rest { result.rest ≡ [] }
    {
        PartAudit {
            stage: Stage::Nothing,
            number: 1,
            rest: List::new(alloc),
        }
    }

    /// Reads on in the next piece. Of the piece the first line alone is copied, and what comes after
    /// its last line feed.
    ///
    /// `BadLine` comes with the number of the first line that has not its form in its place.
    pub fn fed(self, alloc: Global, piece: &[u8]) -> Result<PartAudit, CertificateError>
        requires { part_size self + length piece.now < 2 ^ 64 }
        ensures text { FeedsPart self piece.now result }
        ensures size { IfOk result (λ part. part_size part ≤ part_size self + length piece.now) }
    {
        let PartAudit {
            stage,
            number,
            rest,
        } = self;
        let mut line = rest;
        let Some((first, others)) = first_line(piece) else {
            line.extend_from_slice(piece)?;
            let rest = line;
            return Ok(PartAudit {
                stage,
                number,
                rest,
            });
        };
        line.extend_from_slice(first)?;
        let (stage, number) = take_lines(alloc, stage, number, line.as_slice())?;
        let (lines, end) = whole_lines(others);
        let (stage, number) = take_lines(alloc, stage, number, lines)?;
        let rest = List::from_slice(alloc, end)?;
        Ok(PartAudit {
            stage,
            number,
            rest,
        })
    }

    /// The certificate that ends here.
    pub fn ended(self, alloc: Global) -> Result<Audit, CertificateError>
        requires { part_size self < 2 ^ 64 }
        ensures { (result ≡ Err CertificateError.Memory) ⊎ (result ≡ part_ends self) }
    {
        let PartAudit {
            stage,
            number,
            rest,
        } = self;
        let (stage, number) = take_lines(alloc, stage, number, rest.as_slice())?;
        match stage {
            Stage::End(audit) => Ok(audit),
            _ => Err(CertificateError::BadLine(number)),
        }
    }
}

// A text up to its first line feed, this included, and what comes after it.
fn first_line(text: &[u8]) -> Option<(&[u8], &[u8])>
    ensures { IfSome result (λ parts. IsCutAfterLine text.now parts.0.now parts.1.now) }
{
    let place = text.find_byte(b'\n')?;
    Some(text.split_at(place + 1))
}

// A text up to its last line feed, this included, and what comes after it.
fn whole_lines(text: &[u8]) -> (&[u8], &[u8])
    ensures whole { text.now ≡ result.0.now ++ result.1.now }
    ensures ends { EndsLine result.0.now }
{
    match text.rfind_byte(b'\n') {
        Some(place) => text.split_at(place + 1),
        None => text.split_at(0),
    }
}
