//! Where the word times of a worst walk go, as its picture says it.

ghost use Rattle.std.specs.Prelude.{◌≡◌};
ghost use Rattle.program_answers.specs.Shares.{shares_of};

use picture_scene::Shares;
use print_hops::Waited;

/// Where the word times of a walk go that takes so many, of which its hops wait so many: the rest
/// is work.
pub fn shares_of(time: u128, waited: &Waited) -> Shares
    ensures { result ≡ shares_of time waited.now }
{
    Shares {
        instructions: waited.instruction,
        data: waited.operand,
        work: waited.work(time),
        cards: waited.cards,
    }
}
