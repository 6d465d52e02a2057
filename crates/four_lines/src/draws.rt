// Draws: each is to get its number and to hand back its share account. Where it is accepted, head, area and bytes are to be those after the engine's
// cipher call; where it is refused, everything is to stay.
use crate::lines::{Words, line};
use crate::state::{Left, State, first_mut, lent};
use engine::answers::Next;
use refusal::Refusal;
use sharing::{ShareAccount, Shared};
use std::io;

// What a draw of n bytes leaves.
fn drawn(from: &State, line: u64, n: usize) -> io::Result<Left> {
    let mut state = *from;
    let mut bytes = lent();
    let area = first_mut(&mut state.words, from.size)?;
    let Shared {
        head,
        account,
        answer,
    } = sharing::draw(
        from.head,
        from.account,
        area,
        line,
        first_mut(&mut bytes, n)?,
    );
    state.head = head;
    state.account = account;
    Ok(Left {
        answer,
        state,
        bytes,
    })
}

// A draw that is accepted. Gives what it left.
pub fn draws(
    rt: &impl Print,
    from: &State,
    number: u64,
    n: usize,
    to: ShareAccount,
    position: u64,
    mark: u64,
) -> io::Result<State> {
    let got = drawn(from, number, n)?;
    let mut own = from.after(n, |head, _, area, bytes| head.cipher(area, bytes))?;
    own.state.account = to;
    let head = got.state.head;
    let is_right = got == own
        && got.answer == Ok(())
        && head.position == position
        && head.mark == mark;
    let call = format_args!("line {number} draws {n}");
    let expected = format_args!("0, at {position} mark {mark} {}", Words(to));
    line(rt, from, call, expected, is_right)?;
    Ok(got.state)
}

// A draw that is refused.
pub fn no_draw(
    rt: &impl Print,
    from: &State,
    number: u64,
    n: usize,
    refusal: Refusal,
) -> io::Result<()> {
    let is_right = drawn(from, number, n)? == from.kept(refusal);
    let call = format_args!("line {number} draws {n}");
    line(rt, from, call, u64::from(refusal), is_right)
}
