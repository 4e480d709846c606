//! How long texts may be.
use cert_grammar::MOST_BYTES;

/// How many bytes a file may have.
pub const FILE_LIMIT: u64 = 1_048_576;

/// How many bytes a certificate may have.
pub const CERT_LIMIT: u64 = MOST_BYTES;

/// How many bytes a query may have.
pub const QUERY_LIMIT: u64 = 1_048_576;
