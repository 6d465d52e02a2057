// A move to a position: the engine's move by the signed distance from where it is.
#![tactic(auto)]

ghost use Rattle.std.specs.Prelude.{◌≡◌};
ghost use Rattle.engine.specs.Calls as Calls;
ghost use Rattle.engine.specs.Outcomes as Outcomes;
ghost use Rattle.move_to.specs.MoveTo as Moves;

use engine::Head;
use engine::answers::Next;

// Moves head and tables to a position. From a position over the limit, and to one, the move is refused whatever the distance.
pub fn move_to(head: Head, area: &mut [u32], position: u64) -> Next<()>
    ensures { Outcomes.done result.answer result.head area.new
        ≡ Moves.move_to position (Calls.engine_of head area.old) }
{
    let here = head.position;
    if Head::LIMIT < here {
        return head.move_by(area, i64::MAX);
    }
    if Head::LIMIT < position {
        return head.move_by(area, i64::MAX);
    }
    head.move_by(area, position as i64 - here as i64)
}
