// How a run ends.
ghost use Rattle.std.specs.Prelude.{◌≡◌};
ghost use Rattle.std.specs.Process.{exit_status};
ghost use Rattle.hd_program.specs.Status.{code_of, refusal_status};

use hd_run::Refusal;
use std::process::ExitCode;

/// How a run ends; the process ends with its code.
#[derive(Clone, Copy, Debug, PartialEq, Eq)]
pub enum Status {
    /// All was done, and each line was accepted.
    Done,
    /// All was done, and some line was refused.
    LineRefused,
    /// The words have not their form.
    Usage,
    /// The surface's bytes are no file of the grammar, or too many.
    SurfaceRefused,
    /// The certificate has no reading, or one of the rules fails.
    CertificateRefused,
    /// A source failed.
    ReadFault,
    /// A sink failed.
    WriteFault,
    /// Want of memory.
    Memory,
    /// The second input has too many bytes.
    TooLong,
}

impl Status {
    /// The position of the variant, from 0 to 8.
    pub fn code(self) -> u8
        ensures { result ≡ code_of self }
    {
        self as u8
    }

    // The status with which the program ends where an input is refused.
    pub(crate) fn of_refusal(refusal: Refusal) -> Self
        ensures { result ≡ refusal_status refusal }
    {
        match refusal {
            Refusal::SurfaceTooLong | Refusal::Surface(_) => Status::SurfaceRefused,
            Refusal::SecondTooLong => Status::TooLong,
            Refusal::Unreadable(_) | Refusal::RuleFails { .. } => Status::CertificateRefused,
        }
    }
}

/// What the process ends with: the code of the status.
pub fn exit_of(status: Status) -> ExitCode
    ensures { exit_status result ≡ code_of status }
{
    ExitCode::from(status.code())
}
