// What a call starts from, a head with a share account and an area: after a set up, a cipher call and a move; and made up. And what a call leaves.
use engine::Head;
use engine::answers::Next;
use refusal::Refusal;
use sharing::ShareAccount;
use std::io;

// A cipher's code, the bytes of its key and of its IV, the words of its area, one fewer and one more, and the bytes of its checkpoint at 1.
#[derive(Clone, Copy)]
pub struct Sizes {
    pub code: u32,
    pub key: usize,
    pub iv: usize,
    pub few: usize,
    pub area: usize,
    pub many: usize,
    pub checkpoint: usize,
}

pub const SIZES: [Sizes; 2] = [
    Sizes {
        code: 1,
        key: 16,
        iv: 16,
        few: 1_023,
        area: 1_024,
        many: 1_025,
        checkpoint: 4_098,
    },
    Sizes {
        code: 2,
        key: 32,
        iv: 32,
        few: 2_047,
        area: 2_048,
        many: 2_049,
        checkpoint: 8_194,
    },
];

// A head, and what is added to its true word; a share account; and words of which the first, so many, are the area.
#[derive(Clone, Copy, Debug, PartialEq, Eq)]
pub struct State {
    pub head: Head,
    pub off: u32,
    pub account: ShareAccount,
    pub size: usize,
    pub words: [u32; 2049],
}

// What a call left: its answer, the state after it, and the bytes of which it was lent the first.
#[derive(Clone, Copy, Debug, PartialEq, Eq)]
pub struct Left {
    pub answer: Result<(), Refusal>,
    pub state: State,
    pub bytes: [u8; 128],
}

// A share account of these fields.
pub fn account(opened: u64, shares: [u64; 4], common: u64) -> ShareAccount {
    ShareAccount {
        opened,
        shares,
        common,
    }
}

// An open account.
pub fn open(shares: [u64; 4], common: u64) -> ShareAccount {
    account(1, shares, common)
}

// The first words or bytes, so many; an error where there are fewer.
pub fn first<T>(items: &[T], n: usize) -> io::Result<&[T]> {
    match items.get(..n) {
        Some(first) => Ok(first),
        None => Err(io::ErrorKind::InvalidInput.into()),
    }
}

// As `first`, to be changed.
pub fn first_mut<T>(items: &mut [T], n: usize) -> io::Result<&mut [T]> {
    match items.get_mut(..n) {
        Some(first) => Ok(first),
        None => Err(io::ErrorKind::InvalidInput.into()),
    }
}

// Bytes of which a call is lent the first: five of them are a volume of one entry.
pub fn lent() -> [u8; 128] {
    let mut bytes = [90; 128];
    bytes[..5].copy_from_slice(&[1, 0, 100, 5, 1]);
    bytes
}

impl State {
    // After a set up, with sharing closed.
    pub fn set_up(sizes: Sizes) -> io::Result<State> {
        let key = [5; 32];
        let iv = [6; 32];
        let key = first(&key, sizes.key)?;
        let iv = first(&iv, sizes.iv)?;
        let fresh = State {
            head: Head::fresh(),
            off: 0,
            account: ShareAccount::closed(),
            size: sizes.area,
            words: [7; 2049],
        };
        let set_up = fresh.after(0, |head, _, area, _| head.set_up(sizes.code, key, iv, area))?;
        Ok(set_up.state)
    }

    // After a cipher call of n bytes and a move from there.
    pub fn moved(&self, n: usize, distance: i64) -> io::Result<State> {
        let ciphered = self
            .after(n, |head, _, area, bytes| head.cipher(area, bytes))?
            .state;
        let moved = ciphered.after(0, |head, _, area, _| head.move_by(area, distance))?;
        Ok(moved.state)
    }

    // With another share account.
    pub fn with_account(&self, account: ShareAccount) -> State {
        let mut state = *self;
        state.account = account;
        state
    }

    // With another cipher code and area size, at another position, and with a word that is off by so much.
    pub fn with_head(&self, code: u32, size: usize, position: u64, off: u32) -> State {
        let word = self.head.word.wrapping_add(off);
        let mut state = *self;
        state.head = Head::at(code, position, word, self.head.mark);
        state.off = off;
        state.size = size;
        state
    }

    pub fn area(&self) -> io::Result<&[u32]> {
        first(&self.words, self.size)
    }

    // What a call leaves that is lent n bytes.
    pub fn after<F: Fn(Head, ShareAccount, &mut [u32], &mut [u8]) -> Next<()>>(
        &self,
        n: usize,
        call: F,
    ) -> io::Result<Left>
        requires { F.IsAlwaysCallable call }
    {
        let mut state = *self;
        let mut bytes = lent();
        let area = first_mut(&mut state.words, self.size)?;
        let next = call(self.head, self.account, area, first_mut(&mut bytes, n)?);
        state.head = next.head;
        Ok(Left {
            answer: next.answer,
            state,
            bytes,
        })
    }

    // What a refused call leaves: everything as it was.
    pub fn kept(&self, refusal: Refusal) -> Left {
        Left {
            answer: Err(refusal),
            state: *self,
            bytes: lent(),
        }
    }
}
