#![tactic(auto)]

// The conflict walk over a fit pool's tree, with its looks.
pub mod cursor;
pub mod footprint;
mod search;

ghost use Rattle.std.specs.Prelude.{◌≡◌};
ghost use Rattle.pool.specs.Image.{Arrangement, Image, Fit};
ghost use Rattle.conflict_search.specs.Sorted.{footprint};
ghost use Rattle.conflict_search.specs.Conflict.{conflict_in};

use cursor::Cursors;
pub use footprint::Footprint;
use nodes::{NO_NODE, read_header};
use search::{Progress, search};

// What the search found.
#[derive(Clone, Copy)]
pub struct Searched {
    // The number of the leaf that is the conflict.
    pub leaf: Option<u32>,
    // How many nodes were looked at.
    pub looks: u32,
}

// The conflict search, from the root of a fit pool: the first leaf from the left that was written above the snapshot and that is
// named by a key or covered by a scan, and the looks that the walk made. An empty tree takes none.
pub fn conflict(pool: &[u8], snapshot: u32, lists: &Footprint<'_>) -> Searched
    requires { Fit pool.now }
    ensures { (A : Arrangement) → Image pool.now A → result ≡ conflict_in snapshot (footprint lists.now.keys.now lists.now.lows.now lists.now.highs.now) A.tree }
{
    let root = read_header(pool).root;
    if root == NO_NODE {
        return Searched {
            leaf: None,
            looks: 0,
        };
    }
    let front = Cursors { point: 0, scan: 0 };
    let Progress { leaf, looks, .. } = search(pool, root, snapshot, lists, front);
    Searched { leaf, looks }
}
