// The texts of the program's own.

/// The words that the program takes.
pub const USAGE: &str = "usage: hilldale dales SURFACE
usage: hilldale run SURFACE SCRIPT [--tile N] [--save OUT]
usage: hilldale check SURFACE CERT
usage: hilldale demo W H NUMBER EDITS [--tile N]
";

/// A source that failed.
pub const READ_FAULT: &str = "read fault\n";
