/// A vertex number is below this.
pub const VERTEX_LIMIT: u64 = 4_194_304;

/// The greatest number of parts of a request.
pub const PART_LIMIT: u64 = 1_024;

/// The greatest number of sessions of a script.
pub const SESSION_LIMIT: u64 = 64;

/// The greatest number of bytes of a script.
pub const SCRIPT_LIMIT: u64 = 67_108_864;
