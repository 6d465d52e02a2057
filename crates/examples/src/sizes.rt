// The numbers that belong to a cipher.
ghost use Rattle.std.specs.Prelude.{◌≤◌};

// A cipher's code, the bytes of its key and of its IV, the words of its area, and the bytes of these words.
#[derive(Clone, Copy)]
pub struct Sizes {
    pub code: u32,
    pub key: usize,
    pub iv: usize,
    pub area: usize,
    pub tables: usize,
    ghost are_small: { (key ≤ 32) × (iv ≤ 32) × (area ≤ 2048) × (tables ≤ 8192) },
}

pub const SIZES: [Sizes; 2] = [
    Sizes {
        code: 1,
        key: 16,
        iv: 16,
        area: 1_024,
        tables: 4_096,
    },
    Sizes {
        code: 2,
        key: 32,
        iv: 32,
        area: 2_048,
        tables: 8_192,
    },
];
