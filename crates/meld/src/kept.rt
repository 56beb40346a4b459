// What a pool tells of what it keeps.

// What a lookup finds. An enum of its own, and no `Result` of an `Option`: a definition gives each of its cases a number and values, `lookup_told`
// (docs/DECISIONS.md, D48).
#[derive(Clone, Copy)]
pub enum Lookup {
    // 7: the pool is not fit.
    Unfit,
    // Never written, or a tombstone.
    Absent,
    // The payload and the position of the last committed write.
    Found { payload: u64, position: u32 },
}

// The limits N and Z, the position, how many keys are kept, and how many of these are tombstones.
#[derive(Clone, Copy)]
pub struct Status {
    pub limit: u32,
    pub zone: u32,
    pub position: u32,
    pub kept: u32,
    pub tombstones: u32,
}
