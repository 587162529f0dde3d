// The texts that are printed beside the answers.

/// A surface file with more bytes than the limit.
pub const SURFACE_TOO_LONG: &str = "surface refused: file too long\n";

/// A certificate by which all rules hold.
pub const ACCEPTED: &str = "certificate accepted\n";

/// A script or a certificate with more bytes than its limit.
pub const SECOND_TOO_LONG: &str = "second input too long\n";
