// The limits of a record, by name.

// The most points and the most scans that a record may hold.
pub const MAX_POINTS: usize = 1024;

pub const MAX_SCANS: usize = 64;

// The most points and the most scans that a record of version 1 may hold; one with more of either has version 2.
pub const SMALL_POINTS: usize = 64;

pub const SMALL_SCANS: usize = 8;

// The least and the largest length that the first two bytes of a record may say, and the largest size with those two.
pub const MIN_LENGTH: usize = 7;

pub const MAX_LENGTH: usize = 13833;

pub const MAX_SIZE: usize = 13835;

// The two versions: counts of one byte, and counts of two.
pub const VERSION_1: u8 = 1;

pub const VERSION_2: u8 = 2;
