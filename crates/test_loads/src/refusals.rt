// Loads that are refused: each is to get its refusal, and to leave head and area as they were.
use engine::Head;
use engine::answers::Next;
use refusal::Refusal;
use std::{fmt, io};

// A load with a key, an IV and an area of these lengths.
#[derive(Clone, Copy)]
pub struct Load {
    pub seed: u32,
    pub count: u64,
    pub code: u32,
    pub key: usize,
    pub iv: usize,
    pub area: usize,
}

impl fmt::Display for Load {
    fn fmt<W: fmt::Write>(&self, f: &mut fmt::Formatter<W>) -> fmt::Result {
        write!(
            f,
            "seed {} count {} code {}",
            self.seed, self.count, self.code
        )?;
        write!(f, " key {} IV {} area {}", self.key, self.iv, self.area)
    }
}

impl Load {
    // Whether a head that was made up gets a refusal, and head and area stay. Key, IV and area are the first of one more than the larger cipher has.
    fn is_refused(self, refusal: Refusal) -> bool {
        let key = [5u8; 33];
        let iv = [6u8; 33];
        let mut area = [7u32; 2049];
        let (Some(key), Some(iv), Some(area)) = (
            key.get(..self.key),
            iv.get(..self.iv),
            area.get_mut(..self.area),
        ) else {
            return false;
        };
        let head = Head::at(2, 5, 8, 7);
        let next = test_load::test_load(head, self.seed, self.count, self.code, key, iv, area);
        let refused = Next {
            head,
            answer: Err(refusal),
        };
        next == refused && area.iter().all(|word| *word == 7)
    }
}

// The line of a load that is to get this refusal.
pub fn refuses(rt: &impl Print, load: Load, refusal: Refusal) -> io::Result<()> {
    let number = u64::from(refusal);
    let word = if load.is_refused(refusal) {
        "ok"
    } else {
        "wrong"
    };
    println!(rt; "{load}: refused {number} {word}")
}
