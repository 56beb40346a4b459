#![tactic(auto)]

// REFRESH: the same record with the pool's position as its snapshot, for a record that would not be refused here. The pool is only read.
mod asked;
mod front;

ghost use Rattle.std.specs.Prelude.{◌≡◌};
ghost use Rattle.record.specs.Parse.{parse};
ghost use Rattle.pool.specs.Image.{Arrangement, Image, Fit, state_of};
ghost use Rattle.refresh.specs.Refreshed.{refresh_outcome, refreshed_of, RefreshIs};

use asked::asked;
use fit::whole::fit;
use front::copy_front;
use nodes::read_header;
use record::Answer;
use words::put4;

// Refreshes in a pool that is known to be fit.
fn refresh_fit(pool: &[u8], original: &[u8], output: &mut [u8]) -> Answer
    requires { Fit pool.now }
    ensures { (A : Arrangement) → Image pool.now A → refresh_outcome result output.new ≡ refreshed_of (state_of A) (parse original.now) output.old }
{
    let answer = asked(pool, original);
    if answer != Answer::COMMITTED {
        return answer;
    }
    if output.len() < original.len() {
        return Answer::OUTPUT_SHORT;
    }
    copy_front(original, output);
    put4(output, 3, read_header(pool).position);
    Answer::COMMITTED
}

// Puts the record with snapshot p at the front of the output, where p is the pool's position; the rest of the output stays as it was.
// Answers 7, 4, 5, 2, 1, 8 or 0, the first that applies; all but 0 leave the output untouched. Any bytes may be lent.
pub fn refresh(pool: &[u8], original: &[u8], output: &mut [u8]) -> Answer
    ensures { RefreshIs pool.now original.now output.old result output.new }
{
    if !fit(pool) {
        return Answer::UNFIT_POOL;
    }
    refresh_fit(pool, original, output)
}
