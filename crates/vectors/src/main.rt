// The vectors of appendix A of both papers, run: cipher, vector, `ok` or `wrong`.
#![tactic(auto)]

use engine::Head;
use std::io;

// The numbers of a cipher that a vector needs: its code, the bytes of its key and of its IV, and the words of its area.
#[derive(Clone, Copy)]
struct Sizes {
    code: u32,
    key: usize,
    iv: usize,
    area: usize,
}

const HC128: Sizes = Sizes {
    code: 1,
    key: 16,
    iv: 16,
    area: 1024,
};

const HC256: Sizes = Sizes {
    code: 2,
    key: 32,
    iv: 32,
    area: 2048,
};

// A vector: key and IV are 0 but for their first bytes, and the words are what so many blocks of sixteen give, the one block itself or the exclusive or
// of all of them.
#[derive(Clone, Copy)]
struct Vector {
    name: &'static str,
    sizes: Sizes,
    key: u8,
    iv: u8,
    blocks: usize,
    words: [u32; 16],
}

const VECTORS: [Vector; 7] = [
    // Key and IV 0.
    Vector {
        name: "HC-128 1",
        sizes: HC128,
        key: 0,
        iv: 0,
        blocks: 1,
        words: [
            0x73150082, 0x3bfd03a0, 0xfb2fd77f, 0xaa63af0e, 0xde122fc6, 0xa7dc29b6, 0x62a68527,
            0x8b75ec68, 0x9036db1e, 0x81896005, 0x00ade078, 0x491fbf9a, 0x1cdc3013, 0x6c3d6e24,
            0x90f664b2, 0x9cd57102,
        ],
    },
    // Key 0, IV 0 but for IV0 = 1.
    Vector {
        name: "HC-128 2",
        sizes: HC128,
        key: 0,
        iv: 1,
        blocks: 1,
        words: [
            0xc01893d5, 0xb7dbe958, 0x8f65ec98, 0x64176604, 0x36fc6724, 0xc82c6eec, 0x1b1c38a7,
            0xc9b42a95, 0x323ef123, 0x0a6a908b, 0xce757b68, 0x9f14f7bb, 0xe4cde011, 0xaeb5173f,
            0x89608c94, 0xb5cf46ca,
        ],
    },
    // IV 0, key 0 but for K0 = 0x55.
    Vector {
        name: "HC-128 3",
        sizes: HC128,
        key: 0x55,
        iv: 0,
        blocks: 1,
        words: [
            0x518251a4, 0x04b4930a, 0xb02af931, 0x0639f032, 0xbcb4a47a, 0x5722480b, 0x2bf99f72,
            0xcdc0e566, 0x310f0c56, 0xd3cc83e8, 0x663db8ef, 0x62dfe07f, 0x593e1790, 0xc5ceaa9c,
            0xab03806f, 0xc9a6e5a0,
        ],
    },
    // Key and IV 0: the exclusive or of all 2^20 blocks of sixteen words.
    Vector {
        name: "HC-128 A",
        sizes: HC128,
        key: 0,
        iv: 0,
        blocks: 1_048_576,
        words: [
            0xa4eac026, 0x7e491126, 0x6a2a384f, 0x5c4e1329, 0xda407fa1, 0x55e6b1ae, 0x05c6fdf3,
            0xbbdc8a86, 0x7a699aa0, 0x1a4dc117, 0x63658ccc, 0xd3e62474, 0x9cf8236f, 0x0131be21,
            0xc3a51de9, 0xd12290de,
        ],
    },
    // Key and IV 0.
    Vector {
        name: "HC-256 1",
        sizes: HC256,
        key: 0,
        iv: 0,
        blocks: 1,
        words: [
            0x8589075b, 0x0df3f6d8, 0x2fc0c542, 0x5179b6a6, 0x3465f053, 0xf2891f80, 0x8b24744e,
            0x18480b72, 0xec2792cd, 0xbf4dcfeb, 0x7769bf8d, 0xfa14aee4, 0x7b4c50e8, 0xeaf3a9c8,
            0xf506016c, 0x81697e32,
        ],
    },
    // Key 0, IV 0 but for IV0 = 1.
    Vector {
        name: "HC-256 2",
        sizes: HC256,
        key: 0,
        iv: 1,
        blocks: 1,
        words: [
            0xbfa2e2af, 0xe9ce174f, 0x8b05c2fe, 0xb18bb1d1, 0xee42c05f, 0x01312b71, 0xc61f50dd,
            0x502a080b, 0xedfec706, 0x633d9241, 0xa6dac448, 0xaf8561ff, 0x5e04135a, 0x9448c434,
            0x2de7e9f3, 0x37520bdf,
        ],
    },
    // IV 0, key 0 but for K0 = 0x55.
    Vector {
        name: "HC-256 3",
        sizes: HC256,
        key: 0x55,
        iv: 0,
        blocks: 1,
        words: [
            0xfe4a401c, 0xed5fe24f, 0xd19a8f95, 0x6fc036ae, 0x3c5aa688, 0x23e2abc0, 0x2f90b3ae,
            0xa8d30e42, 0x59f03a6c, 0x6e39eb44, 0x8f7579fb, 0x70137a5e, 0x6d10b7d8, 0xadd0f7cd,
            0x723423da, 0xf575dde6,
        ],
    },
];

// Enciphers a buffer `blocks` times over, each time with the next bytes of keystream. Compiled apart from the function that has area and buffer, the
// loop is quicker.
#[inline(never)]
fn encipher_blocks(mut head: Head, area: &mut [u32], buffer: &mut [u8], blocks: usize) {
    for _ in 0..blocks {
        head = head.cipher(area, buffer).head;
    }
}

// Whether bytes are words, least significant byte first.
fn are_words(bytes: &[u8; 64], words: &[u32; 16]) -> bool {
    bytes
        .chunks_exact(4)
        .zip(words)
        .all(|(four, word)| four == word.to_le_bytes().as_slice())
}

impl Vector {
    // Whether the stream gives the words. Key, IV and area are the first of as many as the larger cipher has.
    fn holds(&self) -> bool {
        let sizes = self.sizes;
        let mut key = [0u8; 32];
        let mut iv = [0u8; 32];
        let mut area = [0u32; 2048];
        key[0] = self.key;
        iv[0] = self.iv;
        let (Some(key), Some(iv), Some(area)) = (
            key.get(..sizes.key),
            iv.get(..sizes.iv),
            area.get_mut(..sizes.area),
        ) else {
            return false;
        };
        let start = Head::fresh().set_up(sizes.code, key, iv, area);
        let mut bytes = [0u8; 64];
        encipher_blocks(start.head, area, &mut bytes, self.blocks);
        are_words(&bytes, &self.words)
    }
}

fn main(rt: HostRuntime) -> io::Result<()> {
    for vector in &VECTORS {
        let word = if vector.holds() { "ok" } else { "wrong" };
        println!(rt; "{} {word}", vector.name)?;
    }
    Ok(())
}
