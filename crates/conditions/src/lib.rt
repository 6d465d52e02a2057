// Conditions of the calls, in the documents' order: those of set up; 1, 4, 5 and 13, which cipher, move, write and recover begin with; 1 and 5, those of
// a head alone; the end of a move, 7 and 6; those of load up to 11, with an area and without. Each gives the refusal of the first that fails, or what
// the call then works with. The other conditions are tested in the calls.
#![tactic(auto)]

ghost use Rattle.std.specs.Prelude.{◌≡◌, ◌+◌, ◌*◌, ◌≤◌, length, IfOk, OnOk};
ghost use Rattle.refusal.specs.Told.{told};
ghost use Rattle.cipher.specs.Numbers.{key_length, iv_length, area_length};
ghost use Rattle.steps.specs.Steps.{word_at};
ghost use Rattle.conditions.specs.Limit.{limit};
ghost use Rattle.conditions.specs.Conditions as Conditions;
ghost use Rattle.conditions.specs.Checks.{load_from};

use cipher::Cipher;
use refusal::Refusal;
use varint::Found;

// The stream limit in bytes.
pub const LIMIT: u64 = 67_108_864;

// The conditions of set up.
#[tactic(auto, unfolding(crate::specs::Conditions::set_up_check))]
pub fn set_up_check(code: u32, key: usize, iv: usize, size: usize) -> Result<Cipher, Refusal>
    ensures answer { told result ≡ Conditions.set_up_check code key iv size }
    ensures key_is { IfOk result (λ c. key ≡ key_length c) }
    ensures iv_is { IfOk result (λ c. iv ≡ iv_length c) }
    ensures area_is { IfOk result (λ c. size ≡ area_length c) }
{
    let cipher = Cipher::try_from(code)?;
    if key != cipher.key_bytes() {
        return Err(Refusal::KeyLength);
    }
    if iv != cipher.iv_bytes() {
        return Err(Refusal::IvLength);
    }
    if size != cipher.area_words() {
        return Err(Refusal::AreaLength);
    }
    Ok(cipher)
}

// The conditions 1, 4 and 5.
#[tactic(auto, unfolding(crate::specs::Conditions::ready))]
fn ready(code: u32, position: u64, size: usize) -> Result<Cipher, Refusal>
    ensures answer { told result ≡ Conditions.ready code position size }
    ensures area_is { IfOk result (λ c. size ≡ area_length c) }
    ensures within { OnOk result (position ≤ limit) }
{
    let cipher = Cipher::try_from(code)?;
    if size != cipher.area_words() {
        return Err(Refusal::AreaLength);
    }
    if LIMIT < position {
        return Err(Refusal::BadPosition);
    }
    Ok(cipher)
}

// The conditions 1, 4, 5 and 13, which cipher, move, write and recover begin with: the head's word is compared with the tables.
#[tactic(auto, unfolding(crate::specs::Conditions::ready_with_word))]
pub fn ready_with_word(code: u32, position: u64, word: u32, area: &[u32]) -> Result<Cipher, Refusal>
    ensures answer { told result ≡ Conditions.ready_with_word code position word area.now }
    ensures area_is { IfOk result (λ c. length area.now ≡ area_length c) }
    ensures within { OnOk result (position ≤ limit) }
    ensures word_is { IfOk result (λ c. word ≡ word_at c area.now position) }
{
    let cipher = ready(code, position, area.len())?;
    if word != steps::word_at(cipher, area, position as usize) {
        return Err(Refusal::FalseWord);
    }
    Ok(cipher)
}

// The conditions 1 and 5, those of a head alone.
#[tactic(auto, unfolding(crate::specs::Conditions::head_check))]
pub fn head_check(code: u32, position: u64) -> Result<Cipher, Refusal>
    ensures answer { told result ≡ Conditions.head_check code position }
    ensures within { OnOk result (position ≤ limit) }
{
    let cipher = Cipher::try_from(code)?;
    if position <= LIMIT {
        Ok(cipher)
    } else {
        Err(Refusal::BadPosition)
    }
}

// Where a move by a distance ends, from a position within the limit.
#[tactic(auto, unfolding(crate::specs::Conditions::end_of))]
pub fn end_of(position: u64, distance: i64) -> Result<u64, Refusal>
    requires { position ≤ limit }
    ensures answer { told result ≡ Conditions.end_of position distance }
    ensures within { IfOk result (λ end. end ≤ limit) }
{
    let Some(end) = position.checked_add_signed(distance) else {
        return Err(Refusal::BeforeStart);
    };
    if end <= LIMIT {
        Ok(end)
    } else {
        Err(Refusal::PastLimit)
    }
}

// The cipher that a checkpoint begins with.
#[tactic(auto, unfolding(crate::specs::Conditions::cipher_in))]
fn cipher_in(string: &[u8]) -> Result<Cipher, Refusal>
    ensures { told result ≡ Conditions.cipher_in string.now }
{
    let code = string.first().copied().ok_or(Refusal::EndsEarly)?;
    Cipher::try_from(u32::from(code))
}

// What a checkpoint begins with, once the conditions of load up to 11 hold, 4 only where there is an area: its cipher and position, and where its
// words begin.
#[derive(Clone, Copy, Debug, PartialEq, Eq)]
pub struct Beginning {
    pub cipher: Cipher,
    pub position: u64,
    pub next: usize,
}

// The conditions of what comes after the first byte, up to 11.
#[tactic(auto, using(crate::proofs::Beginnings::position_read_lem), unfolding(crate::specs::Conditions::contents_in))]
fn beginning_in(cipher: Cipher, string: &[u8]) -> Result<Beginning, Refusal>
    ensures answer { load_from string.now (told result) ≡ Conditions.contents_in cipher string.now }
    ensures cipher_is { IfOk result (λ b. b.cipher ≡ cipher) }
    ensures within { IfOk result (λ b. b.position ≤ limit) }
    ensures string_is { IfOk result (λ b. b.next + 4 * area_length b.cipher ≡ length string.now) }
{
    let Found {
        value: stated,
        next,
    } = reader::read_position(string)?;
    let left = string.len() - next;
    if LIMIT < stated {
        Err(Refusal::BadPosition)
    } else if left != 4 * cipher.area_words() {
        Err(Refusal::StringLength)
    } else {
        Ok(Beginning {
            cipher,
            position: stated,
            next,
        })
    }
}

// The conditions of load up to 11; 12, whether a key and an IV have its tables, is the call's.
#[tactic(auto, unfolding(crate::specs::Conditions::load_check))]
pub fn load_check(string: &[u8], size: usize) -> Result<Beginning, Refusal>
    ensures answer { load_from string.now (told result) ≡ Conditions.load_check string.now size }
    ensures area_is { IfOk result (λ b. size ≡ area_length b.cipher) }
    ensures within { IfOk result (λ b. b.position ≤ limit) }
    ensures string_is { IfOk result (λ b. b.next + 4 * area_length b.cipher ≡ length string.now) }
{
    let cipher = cipher_in(string)?;
    if size != cipher.area_words() {
        return Err(Refusal::AreaLength);
    }
    beginning_in(cipher, string)
}

// The conditions of load up to 11, without an area and so without 4.
#[tactic(auto, unfolding(crate::specs::Conditions::string_check))]
pub fn string_check(string: &[u8]) -> Result<Beginning, Refusal>
    ensures answer { load_from string.now (told result) ≡ Conditions.string_check string.now }
    ensures within { IfOk result (λ b. b.position ≤ limit) }
    ensures string_is { IfOk result (λ b. b.next + 4 * area_length b.cipher ≡ length string.now) }
{
    let cipher = cipher_in(string)?;
    beginning_in(cipher, string)
}
