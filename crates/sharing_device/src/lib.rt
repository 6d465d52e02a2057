// The share account's part of the box's interface, for C: opening and draw on the caller's own head, and closing. The share account goes in by value,
// and the next one comes back beside the refusal number. It is compiled apart from the other calls, so that it does not change how they are compiled.
#![tactic(auto)]

ghost use Rattle.std.specs.Prelude.{◌≡◌};
ghost use Rattle.sharing.specs.Answers as Answers;
ghost use Rattle.sharing.specs.Calls as Calls;

use engine::Head;
use sharing::{ShareAccount, ShareAnswer};

// Open sharing: from the head's position on, each line has a share of the stream, and what the shares leave is common. The head is taken by mutable
// reference, a copy goes to the call, and the head that comes back is stored.
#[unsafe(no_mangle)]
pub extern "C" fn hc_open_sharing(
    head: &mut Head,
    account: ShareAccount,
    area: &[u32],
    share0: u64,
    share1: u64,
    share2: u64,
    share3: u64,
) -> ShareAnswer
    ensures { Answers.opened result head.new area.now
        ≡ Calls.open_sharing_call account head.old area.now share0 share1 share2 share3 }
{
    let next = sharing::open_sharing(*head, account, area, share0, share1, share2, share3);
    *head = next.head;
    next.into()
}

// Draw: the cipher call for a line, whose bytes are taken from its share and then from the common part.
#[unsafe(no_mangle)]
pub extern "C" fn hc_draw(
    head: &mut Head,
    account: ShareAccount,
    area: &mut [u32],
    line: u64,
    bytes: &mut [u8],
) -> ShareAnswer
    ensures { Answers.drawn result head.new area.new bytes.new
        ≡ Calls.draw_call account head.old area.old line bytes.old }
{
    let next = sharing::draw(*head, account, area, line, bytes);
    *head = next.head;
    next.into()
}

// Close sharing: the next share account is the closed one, all 0.
#[tactic(auto, unfolding(sharing::specs::Calls::close_sharing_call))]
#[unsafe(no_mangle)]
pub extern "C" fn hc_close_sharing(account: ShareAccount) -> ShareAnswer
    ensures { Answers.closed result ≡ Calls.close_sharing_call account }
{
    match sharing::close_sharing(account) {
        Ok(closed) => ShareAnswer {
            refusal: 0,
            account: closed,
        },
        Err(refusal) => ShareAnswer {
            refusal: refusal.into(),
            account,
        },
    }
}
