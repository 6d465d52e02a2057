// The call of two checkpoints for C.
#![tactic(auto)]

ghost use Rattle.std.specs.Prelude.{◌≡◌};
ghost use Rattle.same_run.specs.SameRun as SameRun;

use same_run::YesOrNoAnswer;

// Same run: whether two checkpoints have the same key and IV.
#[tactic(auto, unfolding(same_run::specs::SameRun::same_run_call))]
#[unsafe(no_mangle)]
pub extern "C" fn hc_same_run(first: &[u8], second: &[u8]) -> YesOrNoAnswer
    ensures { result ≡ SameRun.for_c (SameRun.same_run_call first.now second.now) }
{
    same_run::same_run(first, second).into()
}
