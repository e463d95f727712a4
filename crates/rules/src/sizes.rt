// The sizes that document 01 names, each as the definition of that name in specs/Sizes.antt.
use crate::words;

// "Source 0 to 65,536 bytes; program 0 to 1,024 instructions; 256 labels; label 1 to 32 bytes."
pub const MAX_SOURCE: usize = 65_536;

pub const MAX_PROGRAM: usize = 1_024;

pub const MAX_LABELS: usize = 256;

pub const MAX_LABEL: usize = 32;

// "N cells, 1 to 1,000."
pub const MAX_CELLS: usize = 1_000;

// "History of H places, 0 to 8,192."
pub const MAX_HISTORY: usize = 8_192;

// "a lent output of 0 to 256 bytes" (02 h)
pub const MAX_OUTPUT: usize = 256;

// "tag CH (4) with codes 0 to 127" (02 h)
pub const MAX_CHARACTER: u32 = 127;

// "Run limit 0 to 1,000,000."
pub const MAX_LIMIT: usize = 1_000_000;

// the mark "not reached" in a list of depths (02 j)
// Stays: a mark and no None, since C lends a list of depths as numbers, and request j names the mark.
pub const NOT_REACHED: u16 = 65_535;

// "Listing: 20,480 bytes", "Output 4,866 bytes"
pub const LISTING_SIZE: usize = 20_480;

pub const IMAGE_SIZE: usize = 4_866;

// "the lent output is 4,638 bytes" (02 k)
pub const STATE_SIZE: usize = 4_638;

// "ADDSP and offsets −999..999"
pub const MAX_OFFSET: u32 = 999;

// The word of -999: those from it on are in range too.
pub const MIN_OFFSET: u32 = words::MINUS_ONE - (MAX_OFFSET - 1);

// "integers 0 to 2147483647", "Expressions nest up to 16 deep, from 0", "eight INT cells" (02 m)
pub const MAX_INTEGER: usize = 2_147_483_647;

pub const MAX_NESTING: usize = 16;

pub const NAME_CELLS: usize = 8;
