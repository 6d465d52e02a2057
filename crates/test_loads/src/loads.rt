// Loads that are accepted: each is to end at a position with a mark, and a write then is to give the checkpoint that a set up and a move to that
// position give.
use cipher::Cipher;
use engine::Head;
use engine::answers::Next;
use std::io;

// A cipher, its code, the bytes of its key and of its IV, and the words of its area.
#[derive(Clone, Copy)]
pub struct Sizes {
    pub cipher: Cipher,
    pub code: u32,
    pub key: usize,
    pub iv: usize,
    pub area: usize,
}

pub const SIZES: [Sizes; 2] = [
    Sizes {
        cipher: Cipher::Hc128,
        code: 1,
        key: 16,
        iv: 16,
        area: 1_024,
    },
    Sizes {
        cipher: Cipher::Hc256,
        code: 2,
        key: 32,
        iv: 32,
        area: 2_048,
    },
];

// The bytes that a write by a head puts into a buffer of zeros.
fn written(head: Head, area: &[u32]) -> [u8; 8197] {
    let mut lent = [0u8; 8197];
    head.write(area, &mut lent);
    lent
}

// Whether a load from a head that was made up is accepted and ends so, and a write then gives what it gives after a set up and a move to the position.
// Key, IV and area are the first of as many as the larger cipher has.
fn ends_at(sizes: Sizes, seed: u32, count: u64, position: u64, mark: u64) -> bool {
    let code = sizes.code;
    let key = [5u8; 32];
    let iv = [5u8; 32];
    let mut area = [7u32; 2048];
    let (Some(key), Some(iv), Some(area)) = (
        key.get(..sizes.key),
        iv.get(..sizes.iv),
        area.get_mut(..sizes.area),
    ) else {
        return false;
    };
    let before = Head::at(9, 67_108_865, 8, 7);
    let loaded = test_load::test_load(before, seed, count, code, key, iv, area);
    let head = loaded.head;
    let there = Head::at(code, position, head.word, mark);
    let spent = Next {
        head,
        answer: Ok(mark),
    };
    let ended = loaded.answer.is_ok() && head == there && head.spent() == spent;
    let first = written(head, area);

    let start = Head::fresh().set_up(code, key, iv, area);
    let moved = move_to::move_to(start.head, area, position);
    let second = written(moved.head, area);
    ended && first == second
}

// The line of a load that is accepted, from a head that was made up.
pub fn accepts(
    rt: &impl Print,
    sizes: Sizes,
    seed: u32,
    count: u64,
    position: u64,
    mark: u64,
) -> io::Result<()> {
    let cipher = sizes.cipher;
    let word = if ends_at(sizes, seed, count, position, mark) {
        "ok"
    } else {
        "wrong"
    };
    println!(rt; "{cipher} seed {seed} count {count} ends at {position} mark {mark} {word}")
}
