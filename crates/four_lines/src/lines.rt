// The line of a case.
use crate::state::{State, account};
use engine::Head;
use sharing::ShareAccount;
use std::fmt::Display;
use std::{fmt, io};

// A share account in words: one word where it is that of no sharing.
#[derive(Clone, Copy)]
pub struct Words(pub ShareAccount);

impl Display for Words {
    fn fmt<W: fmt::Write>(&self, f: &mut fmt::Formatter<W>) -> fmt::Result {
        if self.0 == account(0, [0; 4], 0) {
            return write!(f, "closed");
        }
        let ShareAccount {
            shares: [a, b, c, d],
            common,
            opened,
        } = self.0;
        write!(f, "opened {opened} shares {a} {b} {c} {d} common {common}")
    }
}

impl Display for State {
    fn fmt<W: fmt::Write>(&self, f: &mut fmt::Formatter<W>) -> fmt::Result {
        let Head { code, position, .. } = self.head;
        write!(f, "code {code} area {} at {position} ", self.size)?;
        if self.off != 0 {
            write!(f, "word off by {} ", self.off)?;
        }
        write!(f, "{}", Words(self.account))
    }
}

// Prints a line: what the call starts from, the call, what it is to get and to leave, and whether it does.
pub fn line(
    rt: &impl Print,
    from: &State,
    call: impl Display + Drop,
    expected: impl Display + Drop,
    is_right: bool,
) -> io::Result<()> {
    let word = if is_right { "ok" } else { "wrong" };
    println!(rt; "{from}: {call} gets {expected} {word}")
}
