// A pool as the check goes through it: bytes that are long enough for so many nodes.
ghost use Rattle.std.specs.Prelude.{◌≡◌, ◌+◌, ◌*◌, ◌≤◌, ◌<◌, length};
ghost use Rattle.nodes.specs.Nodes.{node_at};

use nodes::node::{Node, read_node};

#[derive(Clone, Copy)]
pub struct Pool<'a> {
    pub bytes: &'a [u8],
    pub nodes: u32,
    ghost room: { 64 + 32 * nodes ≤ length bytes.now },
}

impl<'a> Pool<'a> {
    // Node i.
    pub fn node(&self, i: u32) -> Node
        requires { i < self.now.nodes }
        ensures { result ≡ node_at self.now.bytes.now i }
    {
        read_node(self.bytes, i)
    }
}
