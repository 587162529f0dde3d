// How many bytes are taken of each input.

/// The most bytes of a surface file.
pub const SURFACE_LIMIT: usize = 268_435_456;

/// The most bytes of a script.
pub const SCRIPT_LIMIT: usize = 16_777_216;

/// The most bytes of a certificate.
pub const CERTIFICATE_LIMIT: usize = 134_217_728;
