// The sizes of a book and the ranges of its numbers, by name.

// The most kW that any field can have (01, Posting).
pub const MAX_KW: u64 = 99_999_999;

// The most hours of a load, those of a season, and the most blocks (01, Posting, Load).
pub const MAX_HOURS: u64 = 2_208;

// The months are 1 to 3 (01, The book).
pub const LAST_MONTH: u64 = 3;

// Term 0 is the season, terms 1 to 3 are its months (01, The book).
pub const LAST_TERM: u64 = 3;

// How many terms there are, the season and its months (01, The book).
pub const TERMS: u64 = 4;

// The tiers are 1 to 9 (01, The book).
pub const LAST_TIER: u64 = 9;

// The Long Term step is opened as tier 10 (02, 1/14).
pub const LONG_TERM_STEP: u64 = 10;

// Tiers 1 to 3 are the season's (01, The book).
pub const LAST_SEASON_TIER: u64 = 3;

// The most holders of a book (01, The book).
pub const MAX_HOLDERS: usize = 8;

// The most sources of a book, as of its sinks and of its paths (01, The book).
pub const MAX_PLACES: usize = 16;

// The most class lines of a migration (01, Migration).
pub const MAX_CLASS_LINES: usize = 64;

// The pairs of holders of a book with the most holders (01, Migration).
pub const HOLDER_PAIRS: usize = 64;

// The classes are 1 to 8 (01, Migration).
pub const LAST_CLASS: u64 = 8;

// The most customers of a class line (01, Migration).
pub const MAX_CUSTOMERS: u64 = 9_999_999;

// The most average watts of a class line (01, Migration).
pub const MAX_WATTS: u64 = 9_999_999;

// What summed watts are divided by for kW (01, Migration).
pub const WATTS_PER_KW: u64 = 1_000;

// How many kinds of evidence there are (01, Posting, Verify).
pub const EVIDENCE_KINDS: u64 = 2;

// The right of one who owns a whole plant, in ten-thousandths (01, Posting, Verify).
pub const FULL_OWNERSHIP: u64 = 10_000;

// The mark of evidence that runs for ten years; 0 is that of any other (02, 1/14).
pub const TEN_YEAR: u64 = 1;

// The most that a numerator or a denominator of the settings can be (02, 3/14).
pub const MAX_FRACTION: u64 = 1_000;

// The numbers of the settings: six fractions (02, 3/14).
pub const SETTING_COUNT: usize = 12;
