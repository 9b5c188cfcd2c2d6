/// The most bytes that a sheet may have.
pub const SHEET_BYTES: usize = 262_144;

/// The most bytes that a text may have.
pub const TEXT_BYTES: usize = 8_388_608;

/// The most bytes that one reading may ask for.
pub const READ_BYTES: usize = 67_108_864;

/// The most tokens that a grammar may have.
pub const TOKENS: usize = 250;

/// The most skip patterns that a sheet may have.
pub const SKIPS: usize = 50;

/// The most names that a grammar may have.
pub const NAMES: usize = 500;

/// The most rules that a grammar may have.
pub const RULES: usize = 1_000;

/// The most symbols that one right side may have.
pub const SIDE_SYMBOLS: usize = 20;

/// The most symbols that all right sides may have together.
pub const SYMBOLS: usize = 4_000;
