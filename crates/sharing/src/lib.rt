// Four lines on one stream: the share account beside the head, its opening, its draws and its closing, and the engine's calls that are refused while
// sharing is open. Each call takes the share account by value; those that change it hand back the next one. Write, recover and spent are the engine's
// own and take none.
#![tactic(auto)]

ghost use Rattle.std.specs.Prelude.{◌≡◌, ◌+◌, ◌-◌, ◌≤◌, Err};
ghost use Rattle.std.specs.Option.{SomeIff};
ghost use Rattle.refusal.specs.declared.Refusal.TheVariants.{WrongSharing};
ghost use Rattle.refusal.specs.Told.{told};
ghost use Rattle.engine.specs.Calls as EngineCalls;
ghost use Rattle.engine.specs.Outcomes as EngineOutcomes;
ghost use Rattle.conditions.specs.Conditions as Conditions;
ghost use Rattle.sharing.specs.Shares as Shares;
ghost use Rattle.sharing.specs.Calls as Calls;
ghost use Rattle.sharing.specs.Outcomes as Outcomes;
ghost use Rattle.sharing.specs.Answers as Answers;

use cipher::Cipher;
use engine::Head;
use engine::answers::{Keys, Next};
use refusal::Refusal;

// The share account: what is left of the share of each line 0 to 3; what is left of the common part; and whether sharing is open, 0 where it is closed
// and any other number where it is open, since C has it so. It begins closed.
#[repr(C)]
#[derive(Clone, Copy, Debug, PartialEq, Eq)]
pub struct ShareAccount {
    pub shares: [u64; 4],
    pub common: u64,
    pub opened: u64,
}

impl ShareAccount {
    // A share account before any opening, and after a closing.
    pub fn closed() -> Self
        ensures { result ≡ Shares.closed_account }
    {
        ShareAccount {
            opened: 0,
            shares: [0; 4],
            common: 0,
        }
    }

    // Whether sharing is open.
    pub fn is_open(self) -> bool
        ensures { result ≡ Shares.is_open self }
    {
        self.opened != 0
    }
}

// What opening and draw hand back: the next head, the next share account and the answer.
#[derive(Clone, Copy, Debug, PartialEq, Eq)]
pub struct Shared {
    pub head: Head,
    pub account: ShareAccount,
    pub answer: Result<(), Refusal>,
}

// For C the answer of opening, draw and closing: the refusal number, 0 where the call is accepted, and the next share account.
#[repr(C)]
#[derive(Clone, Copy, Debug, PartialEq, Eq)]
pub struct ShareAnswer {
    pub refusal: u64,
    pub account: ShareAccount,
}

impl From<Shared> for ShareAnswer {
    ghost from_gives = { λ shared given. given ≡ Answers.share_answer shared.answer shared.account };

    fn from(shared: Shared) -> ShareAnswer {
        ShareAnswer {
            refusal: refusal::number_of(shared.answer),
            account: shared.account,
        }
    }
}

// What four shares leave of so many bytes, if they are within them. No sum is made, so that none wraps.
fn rest_of(left: u64, share0: u64, share1: u64, share2: u64, share3: u64) -> Option<u64>
    ensures { SomeIff result (share0 + share1 + share2 + share3 ≤ left) (left - (share0 + share1 + share2 + share3)) }
{
    left.checked_sub(share0)?
        .checked_sub(share1)?
        .checked_sub(share2)?
        .checked_sub(share3)
}

// Opens sharing at the head's position with a share for each line; what they leave of the stream is common. The shares are four numbers, as C hands
// them over.
pub fn open_sharing(
    head: Head,
    mut account: ShareAccount,
    area: &[u32],
    share0: u64,
    share1: u64,
    share2: u64,
    share3: u64,
) -> Shared
    ensures { Outcomes.opened result.answer result.account result.head area.now
        ≡ Calls.open_sharing_call account head area.now share0 share1 share2 share3 }
{
    let answer = open_here(head, &mut account, area, share0, share1, share2, share3);
    Shared {
        head,
        account,
        answer,
    }
}

// The opening of a share account in its place: where it is refused, the account stays.
#[tactic(auto, using(crate::proofs::Calls::open_stopped, crate::proofs::Calls::open_refused, crate::proofs::Calls::open_beyond))]
fn open_here(
    head: Head,
    account: &mut ShareAccount,
    area: &[u32],
    share0: u64,
    share1: u64,
    share2: u64,
    share3: u64,
) -> Result<(), Refusal>
    ensures { Outcomes.opened result account.new head area.now
        ≡ Calls.open_sharing_call account.old head area.now share0 share1 share2 share3 }
{
    if account.is_open() {
        return Err(Refusal::WrongSharing);
    }
    conditions::ready_with_word(head.code, head.position, head.word, area)?;
    let left = Head::LIMIT - head.position;
    let common = rest_of(left, share0, share1, share2, share3).ok_or(Refusal::PastShares)?;
    *account = ShareAccount {
        opened: 1,
        shares: [share0, share1, share2, share3],
        common,
    };
    Ok(())
}

// What the conditions of a cipher call of n bytes say. Nothing is ciphered.
#[tactic(auto, using(crate::proofs::Calls::check_refused, crate::proofs::Calls::check_past, crate::proofs::Calls::check_passed))]
fn cipher_check(head: Head, area: &[u32], n: u64) -> Result<Cipher, Refusal>
    ensures { told result ≡ Conditions.cipher_check (EngineCalls.head_ready head area.now) head.position n }
{
    let cipher = conditions::ready_with_word(head.code, head.position, head.word, area)?;
    if Head::LIMIT - head.position < n {
        return Err(Refusal::PastLimit);
    }
    Ok(cipher)
}

// Whether so many bytes are within a line's share and the common part. No sum is made, so that none wraps.
#[tactic(auto, using(crate::proofs::Calls::line_over, crate::proofs::Calls::share_short, crate::proofs::Calls::share_gives))]
fn share_check(account: ShareAccount, line: u64, n: u64) -> Result<(), Refusal>
    ensures { told result ≡ Calls.share_check account line n }
{
    if 3 < line {
        return Err(Refusal::NoLine);
    }
    let share = account.shares[line as usize];
    if account.common < n.saturating_sub(share) {
        return Err(Refusal::PastShares);
    }
    Ok(())
}

// Takes so many bytes for a line, from its share and then from the common part.
#[tactic(auto, unfolding(crate::specs::Shares::drawn_from))]
fn take_share(mut account: ShareAccount, line: u64, n: u64) -> ShareAccount
    requires { (line ≤ 3) × (n ≤ Shares.share_of account line + account.common) }
    ensures { result ≡ Shares.drawn_from account line n }
{
    let i = line as usize;
    let share = account.shares[i];
    account.shares[i] = share.saturating_sub(n);
    account.common -= n.saturating_sub(share);
    account
}

// Ciphers for a line. Where the bytes are not within its share and the common part, the refusals of the cipher call still come first.
pub fn draw(
    mut head: Head,
    mut account: ShareAccount,
    area: &mut [u32],
    line: u64,
    bytes: &mut [u8],
) -> Shared
    ensures { Outcomes.drawn result.answer result.account result.head area.new bytes.new
        ≡ Calls.draw_call account head area.old line bytes.old }
{
    let answer = draw_here(&mut head, &mut account, area, line, bytes);
    Shared {
        head,
        account,
        answer,
    }
}

// The draw on a head and a share account in their places: where it is refused, both stay.
#[tactic(auto, using(crate::proofs::Calls::draw_closed, crate::proofs::Calls::draw_before, crate::proofs::Calls::draw_beyond))]
fn draw_here(
    head: &mut Head,
    account: &mut ShareAccount,
    area: &mut [u32],
    line: u64,
    bytes: &mut [u8],
) -> Result<(), Refusal>
    ensures { Outcomes.drawn result account.new head.new area.new bytes.new
        ≡ Calls.draw_call account.old head.old area.old line bytes.old }
{
    if !account.is_open() {
        return Err(Refusal::WrongSharing);
    }
    let n = bytes.len() as u64;
    if let Err(beyond) = share_check(*account, line, n) {
        cipher_check(*head, area, n)?;
        return Err(beyond);
    }
    let next = head.cipher(area, bytes);
    next.answer?;
    *head = next.head;
    *account = take_share(*account, line, n);
    Ok(())
}

// Closes sharing: the next share account.
#[tactic(auto, using(crate::proofs::Calls::close_refused, crate::proofs::Calls::close_done))]
pub fn close_sharing(account: ShareAccount) -> Result<ShareAccount, Refusal>
    ensures { told result ≡ Calls.close_sharing account }
{
    if account.is_open() {
        Ok(ShareAccount::closed())
    } else {
        Err(Refusal::WrongSharing)
    }
}

// What a call hands back that is refused while sharing is open.
fn stopped<T>(head: Head) -> Next<T>
    ensures { result ≡ record { head = head; answer = Err WrongSharing } }
{
    Next {
        head,
        answer: Err(Refusal::WrongSharing),
    }
}

// Set up, while sharing is closed.
#[tactic(auto, using(crate::proofs::Calls::stopped, crate::proofs::Calls::passed), unfolding(crate::specs::Calls::set_up_with, engine::specs::Calls::set_up_call))]
pub fn set_up(
    head: Head,
    account: ShareAccount,
    code: u32,
    key: &[u8],
    iv: &[u8],
    area: &mut [u32],
) -> Next<()>
    ensures { EngineOutcomes.done result.answer result.head area.new
        ≡ Calls.set_up_with account head code key.now iv.now area.old }
{
    if account.is_open() {
        return stopped(head);
    }
    head.set_up(code, key, iv, area)
}

// Load, while sharing is closed.
#[tactic(auto, using(crate::proofs::Calls::stopped, crate::proofs::Calls::passed), unfolding(crate::specs::Calls::load_with, engine::specs::Calls::load_call))]
pub fn load(head: Head, account: ShareAccount, area: &mut [u32], string: &[u8]) -> Next<Keys>
    ensures { EngineOutcomes.loaded result.answer result.head area.new
        ≡ Calls.load_with account head string.now area.old }
{
    if account.is_open() {
        return stopped(head);
    }
    head.load(area, string)
}

// Move, while sharing is closed.
#[tactic(auto, using(crate::proofs::Calls::stopped, crate::proofs::Calls::passed), unfolding(crate::specs::Calls::move_with, engine::specs::Calls::move_call))]
pub fn move_by(head: Head, account: ShareAccount, area: &mut [u32], distance: i64) -> Next<()>
    ensures { EngineOutcomes.done result.answer result.head area.new
        ≡ Calls.move_with account head area.old distance }
{
    if account.is_open() {
        return stopped(head);
    }
    head.move_by(area, distance)
}

// Test load, while sharing is closed.
#[tactic(auto, using(crate::proofs::Calls::stopped, crate::proofs::Calls::passed), unfolding(crate::specs::Calls::test_load_with, test_load::specs::TestLoad::test_load_call))]
pub fn run_test_load(
    head: Head,
    account: ShareAccount,
    seed: u32,
    count: u64,
    code: u32,
    key: &[u8],
    iv: &[u8],
    area: &mut [u32],
) -> Next<()>
    ensures { EngineOutcomes.done result.answer result.head area.new
        ≡ Calls.test_load_with account head seed count code key.now iv.now area.old }
{
    if account.is_open() {
        return stopped(head);
    }
    test_load::test_load(head, seed, count, code, key, iv, area)
}

// Encipher volume, while sharing is closed.
#[tactic(auto, using(crate::proofs::Calls::stopped, crate::proofs::Calls::passed), unfolding(crate::specs::Calls::encipher_volume_with, engine::specs::Calls::encipher_volume_call))]
pub fn encipher_volume(
    head: Head,
    account: ShareAccount,
    area: &mut [u32],
    bytes: &mut [u8],
) -> Next<()>
    ensures { EngineOutcomes.ciphered result.answer result.head area.new bytes.new
        ≡ Calls.encipher_volume_with account head area.old bytes.old }
{
    if account.is_open() {
        return stopped(head);
    }
    head.encipher_volume(area, bytes)
}

// Cipher, while sharing is closed.
#[tactic(auto, using(crate::proofs::Calls::stopped, crate::proofs::Calls::passed), unfolding(crate::specs::Calls::cipher_with, engine::specs::Calls::cipher_call))]
pub fn cipher(head: Head, account: ShareAccount, area: &mut [u32], bytes: &mut [u8]) -> Next<()>
    ensures { EngineOutcomes.ciphered result.answer result.head area.new bytes.new
        ≡ Calls.cipher_with account head area.old bytes.old }
{
    if account.is_open() {
        return stopped(head);
    }
    head.cipher(area, bytes)
}
