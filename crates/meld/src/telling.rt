// What a pool says of itself.
ghost use Rattle.meld.specs.Statuses.{StatusIs};

use crate::kept::Status;
use drop::count_old;
use fit::fit;
use nodes::read_header;
use record::Answer;

// The status of a pool, 7 for an unfit one; any bytes may be lent, and are only read. Tombstones are counted along the words `oldest`: every one of them is at
// the pool's position or before, and only subtrees that hold one are entered. (At position 4,294,967,295 the whole tree is.)
pub fn status(pool: &[u8]) -> Result<Status, Answer>
    ensures { StatusIs pool.now result }
{
    if !fit(pool) {
        return Err(Answer::UNFIT_POOL);
    }
    let h = read_header(pool);
    let tombstones = count_old(pool, h.position, h.limit);
    Ok(Status {
        limit: h.limit,
        zone: h.zone,
        position: h.position,
        kept: h.kept,
        tombstones,
    })
}
