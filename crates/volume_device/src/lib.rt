// The shift volume's part of the box's interface, for C: the writer, the reader, and the enciphering of a volume on the caller's own head. It is
// compiled apart from the other calls, since the compiler copies the engine's cipher into `hc_cipher` only where nothing else calls it.
#![tactic(auto)]

ghost use Rattle.std.specs.Prelude.{◌≡◌};
ghost use Rattle.volume.specs.Answers as VolumeAnswers;
ghost use Rattle.volume.specs.Calls as VolumeCalls;
ghost use Rattle.engine.specs.Answers as Answers;
ghost use Rattle.engine.specs.Calls as Calls;

use engine::Head;
use volume::{CountAnswer, LengthAnswer};

// Write volume: the volume of the entries, four numbers each, is put at the start of the lent bytes; later bytes stay.
#[unsafe(no_mangle)]
pub extern "C" fn hc_write_volume(entries: &[u32], lent: &mut [u8]) -> LengthAnswer
    ensures { VolumeAnswers.volume_written result lent.new
        ≡ VolumeCalls.write_volume_call entries.now lent.old }
{
    volume::write_volume(entries, lent).into()
}

// Read volume: the entries of a volume are put at the start of the lent list, four numbers each; later elements stay.
#[unsafe(no_mangle)]
pub extern "C" fn hc_read_volume(string: &[u8], entries: &mut [u32]) -> CountAnswer
    ensures { VolumeAnswers.volume_read result entries.new
        ≡ VolumeCalls.read_volume_call string.now entries.old }
{
    volume::read_volume(string, entries).into()
}

// Encipher volume: the bytes, which are to be a volume and nothing after it, are enciphered as cipher does. The head is taken by mutable reference, a
// copy goes to the engine's call, and the head that comes back is stored.
#[unsafe(no_mangle)]
pub extern "C" fn hc_encipher_volume(head: &mut Head, area: &mut [u32], bytes: &mut [u8]) -> u64
    ensures { Answers.ciphered result head.new area.new bytes.new
        ≡ Calls.encipher_volume_call head.old area.old bytes.old }
{
    let next = head.encipher_volume(area, bytes);
    *head = next.head;
    refusal::number_of(next.answer)
}
