// Openings: each is to get its number, to hand back its share account, which is the old one where it is refused, and to leave head and area.
use crate::lines::{Words, line};
use crate::state::{State, open};
use refusal::Refusal;
use sharing::{ShareAccount, Shared};
use std::io;

// Whether an opening answers so, hands back this account and leaves the head.
fn is_right(
    from: &State,
    shares: [u64; 4],
    account: ShareAccount,
    answer: Result<(), Refusal>,
) -> io::Result<bool> {
    let [a, b, c, d] = shares;
    let head = from.head;
    let expected = Shared {
        head,
        account,
        answer,
    };
    let given = sharing::open_sharing(head, from.account, from.area()?, a, b, c, d);
    Ok(given == expected)
}

// An opening that is accepted, and what it is to leave common. Gives what it is to leave.
pub fn opens(rt: &impl Print, from: &State, shares: [u64; 4], common: u64) -> io::Result<State> {
    let [a, b, c, d] = shares;
    let to = open(shares, common);
    let call = format_args!("opening {a} {b} {c} {d}");
    let expected = format_args!("0, {}", Words(to));
    let is_right = is_right(from, shares, to, Ok(()))?;
    line(rt, from, call, expected, is_right)?;
    Ok(from.with_account(to))
}

// An opening that is refused.
pub fn no_opening(
    rt: &impl Print,
    from: &State,
    shares: [u64; 4],
    refusal: Refusal,
) -> io::Result<()> {
    let [a, b, c, d] = shares;
    let call = format_args!("opening {a} {b} {c} {d}");
    let is_right = is_right(from, shares, from.account, Err(refusal))?;
    line(rt, from, call, u64::from(refusal), is_right)
}
