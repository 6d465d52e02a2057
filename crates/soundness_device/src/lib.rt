// The soundness call of the box's interface, for C.
#![tactic(auto)]

ghost use Rattle.soundness.specs.Soundness.{Given};

use soundness::SoundnessAnswer;

// Volume soundness: whether a string is sound, cut or hopeless, and at which length it became hopeless.
#[unsafe(no_mangle)]
pub extern "C" fn hc_volume_soundness(volume: &[u8]) -> SoundnessAnswer
    ensures { Given volume.now result }
{
    soundness::volume_soundness(volume).into()
}
