// The header: seven words at the pool's front. The nine words behind them are zero and are never written again.
ghost use Rattle.std.specs.Prelude.{◌≡◌, ◌≤◌, length};
ghost use Rattle.nodes.specs.Nodes.{header_at, put_header, put_position};

use words::{put4, word4};

// The last position (R2).
pub const LAST_POSITION: u32 = 4294967295;

#[derive(Clone, Copy)]
pub struct Header {
    // Names the layout.
    pub mark: u32,
    // N, the most keys that may be kept.
    pub limit: u32,
    // Z, the zone limit.
    pub zone: u32,
    // p, the position of the last record.
    pub position: u32,
    // How many keys are kept.
    pub kept: u32,
    // The root's number, NO_NODE if no key is kept.
    pub root: u32,
    // The first free node's number.
    pub free: u32,
}

impl Header {
    pub const MARK: u32 = 0x454D5031;
}

// The header of the pool.
pub fn read_header(pool: &[u8]) -> Header
    requires { 64 ≤ length pool.now }
    ensures { result ≡ header_at pool.now }
{
    Header {
        mark: word4(pool, 0),
        limit: word4(pool, 4),
        zone: word4(pool, 8),
        position: word4(pool, 12),
        kept: word4(pool, 16),
        root: word4(pool, 20),
        free: word4(pool, 24),
    }
}

// Stores h as the header.
pub fn write_header(pool: &mut [u8], h: Header)
    requires { 64 ≤ length pool.old }
    ensures { pool.new ≡ put_header pool.old h }
{
    put4(pool, 0, h.mark);
    put4(pool, 4, h.limit);
    put4(pool, 8, h.zone);
    put4(pool, 12, h.position);
    put4(pool, 16, h.kept);
    put4(pool, 20, h.root);
    put4(pool, 24, h.free);
}

// Stores the position alone.
pub fn write_position(pool: &mut [u8], position: u32)
    requires { 64 ≤ length pool.old }
    ensures { pool.new ≡ put_position pool.old position }
{
    put4(pool, 12, position);
}
