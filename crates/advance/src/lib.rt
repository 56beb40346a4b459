#![tactic(auto)]

// The position of a fit pool moved on, with nothing else changed.
ghost use Rattle.pool.specs.Image.{Arrangement, Image};
ghost use Rattle.advance.specs.Moved.{PositionsLeft, moved_on};

use nodes::{read_header, write_position};

// The pool one position on. A position is left: p is below LAST_POSITION.
pub fn advance(pool: &mut [u8])
    requires { PositionsLeft pool.old }
    ensures { (A : Arrangement) → Image pool.old A → Image pool.new (moved_on A) }
{
    let v = read_header(pool).position + 1;
    write_position(pool, v);
}
