// The calls of the comparison for C, which has no slices to hand back: it gets the recording, the byte and the length.
#![tactic(auto)]

ghost use Rattle.std.specs.Prelude.{◌≡◌};
ghost use Rattle.comparison.specs.Comparison as Comparison;

use comparison::PartAnswer;

// Check recordings: 0, or the number of a refused pair.
#[unsafe(no_mangle)]
pub extern "C" fn hc_check_recordings(blender: &[u8], gauge: &[u8]) -> u64
    ensures { result ≡ (Comparison.compare_recordings_call blender.now gauge.now).refusal }
{
    refusal::number_of(comparison::check_recordings(blender, gauge))
}

// Compare recordings: which bytes of which recording are handed back.
#[unsafe(no_mangle)]
pub extern "C" fn hc_compare_recordings(blender: &[u8], gauge: &[u8]) -> PartAnswer
    ensures { result ≡ Comparison.for_c (Comparison.compare_recordings_call blender.now gauge.now).value }
{
    comparison::find_part(blender, gauge).into()
}
