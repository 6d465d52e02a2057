// Closings: each is to get its number, and to hand back its share account where it is accepted.
use crate::lines::{Words, line};
use crate::state::{State, account};
use refusal::Refusal;
use std::io;

// A closing that is accepted. Gives what it is to leave.
pub fn closes(rt: &impl Print, from: &State) -> io::Result<State> {
    let to = account(0, [0; 4], 0);
    let is_right = sharing::close_sharing(from.account) == Ok(to);
    line(
        rt,
        from,
        "closing",
        format_args!("0, {}", Words(to)),
        is_right,
    )?;
    Ok(from.with_account(to))
}

// A closing that is refused.
pub fn no_closing(rt: &impl Print, from: &State, refusal: Refusal) -> io::Result<()> {
    let is_right = sharing::close_sharing(from.account) == Err(refusal);
    line(rt, from, "closing", u64::from(refusal), is_right)
}
