// The box's interface, for C: the seven calls on the caller's own head, and the length of a checkpoint. Each of the seven takes the head by mutable
// reference, hands a copy to the engine's call and stores the head that comes back. There is no state but what the caller lends.
#![tactic(auto)]

ghost use Rattle.std.specs.Prelude.{◌≡◌};
ghost use Rattle.engine.specs.Answers as Answers;
ghost use Rattle.engine.specs.Calls as Calls;

use engine::Head;
use engine::answers::{LengthAnswer, LoadAnswer, SpentAnswer};

// Set up: the area is filled from a key and an IV, and position and mark become 0.
#[unsafe(no_mangle)]
pub extern "C" fn hc_set_up(
    head: &mut Head,
    code: u32,
    key: &[u8],
    iv: &[u8],
    area: &mut [u32],
) -> u64
    ensures { Answers.done result head.new area.new
        ≡ Calls.set_up_call head.old code key.now iv.now area.old }
{
    let next = head.set_up(code, key, iv, area);
    *head = next.head;
    refusal::number_of(next.answer)
}

// Cipher: each lent byte becomes its exclusive or with the keystream byte, and the position advances by their number. With one byte or more the mark
// becomes the larger of the mark and the end.
#[unsafe(no_mangle)]
pub extern "C" fn hc_cipher(head: &mut Head, area: &mut [u32], bytes: &mut [u8]) -> u64
    ensures { Answers.ciphered result head.new area.new bytes.new
        ≡ Calls.cipher_call head.old area.old bytes.old }
{
    let next = head.cipher(area, bytes);
    *head = next.head;
    refusal::number_of(next.answer)
}

// Move: by a signed distance in bytes; the mark stays.
#[unsafe(no_mangle)]
pub extern "C" fn hc_move(head: &mut Head, area: &mut [u32], distance: i64) -> u64
    ensures { Answers.done result head.new area.new
        ≡ Calls.move_call head.old area.old distance }
{
    let next = head.move_by(area, distance);
    *head = next.head;
    refusal::number_of(next.answer)
}

// Checkpoint length: how many bytes the checkpoint of a cipher has at a position.
#[unsafe(no_mangle)]
pub extern "C" fn hc_checkpoint_length(code: u32, position: u64) -> LengthAnswer
    ensures { Answers.told result ≡ Calls.checkpoint_length_call code position }
{
    engine::checkpoint_length(code, position).into()
}

// Write: the checkpoint is put at the start of the lent bytes; later bytes stay.
#[unsafe(no_mangle)]
pub extern "C" fn hc_write(head: &mut Head, area: &[u32], lent: &mut [u8]) -> LengthAnswer
    ensures { Answers.written result head.new area.now lent.new
        ≡ Calls.write_call head.old area.now lent.old }
{
    let next = head.write(area, lent);
    *head = next.head;
    next.answer.into()
}

// Recover: the two buffers are filled with the key and the IV; the tables stay.
#[unsafe(no_mangle)]
pub extern "C" fn hc_recover(head: &mut Head, area: &[u32], key: &mut [u8], iv: &mut [u8]) -> u64
    ensures { Answers.recovered result head.new area.now key.new iv.new
        ≡ Calls.recover_call head.old area.now key.old iv.old }
{
    let next = head.recover(area, key, iv);
    *head = next.head;
    refusal::number_of(next.answer)
}

// Load: area and head are filled from a checkpoint, and the mark becomes the loaded position.
#[unsafe(no_mangle)]
pub extern "C" fn hc_load(head: &mut Head, area: &mut [u32], string: &[u8]) -> LoadAnswer
    ensures { Answers.loaded result head.new area.new
        ≡ Calls.load_call head.old string.now area.old }
{
    let next = head.load(area, string);
    *head = next.head;
    next.answer.into()
}

// Spent: the mark, which is the farthest byte that a cipher call reached since the last set up or load.
#[unsafe(no_mangle)]
pub extern "C" fn hc_spent(head: &mut Head) -> SpentAnswer
    ensures { Answers.counted result head.new ≡ Calls.spent_call head.old }
{
    let next = head.spent();
    *head = next.head;
    next.answer.into()
}
