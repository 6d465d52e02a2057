// The cases of document 02 (h), a test load that can be repeated, for both ciphers: a line each, `ok` or `wrong`.
#![tactic(auto)]

use loads::{SIZES, Sizes, accepts};
use refusal::Refusal;
use refusals::{Load, refuses};
use std::io;

mod loads;
mod refusals;

// Loads that are accepted, each with a seed, a count, and the position and the mark where it ends: the first calls from seed 1; as first call a cipher
// call over no bytes, over 1, over 33 and over 256, and a move to byte 0, 33 and 4,095; a move to where the engine is, a move back, and a cipher call
// over no bytes beyond the mark; and 500 to 1,000 calls.
const ACCEPTED: [(u32, u64, u64, u64); 22] = [
    (1, 0, 0, 0),
    (1, 1, 2, 2),
    (1, 2, 258, 258),
    (1, 3, 424, 424),
    (1, 4, 677, 677),
    (1, 5, 823, 823),
    (1, 6, 3_560, 823),
    (438, 1, 0, 0),
    (540, 1, 1, 1),
    (4_294_967_295, 1, 33, 33),
    (107, 1, 256, 256),
    (2_147_483_648, 1, 0, 0),
    (2, 1, 33, 0),
    (6_564, 1, 4_095, 0),
    (10_179, 2, 97, 97),
    (177, 2, 1_078, 0),
    (290, 2, 920, 0),
    (3, 500, 4_297, 4_700),
    (1, 999, 1_403, 4_812),
    (1, 1_000, 1_524, 4_812),
    (2_147_483_648, 1_000, 2_106, 4_642),
    (4_294_967_295, 1_000, 4_330, 4_609),
];

// Each refusal by itself, at the edges of its range; then each refusal before the one that comes next, and the first two before all others. Key and IV
// are to have m bytes each, and the area n words.
fn refused(rt: &impl Print, sizes: Sizes) -> io::Result<()> {
    let code = sizes.code;
    let (m, n) = (sizes.key, sizes.area);
    let (short, long) = (m.saturating_sub(1), m.saturating_add(1));
    let (few, many) = (n.saturating_sub(1), n.saturating_add(1));
    for (seed, count, code, key, iv, area, refusal) in [
        (0, 0, code, m, m, n, Refusal::SeedZero),
        (0, 1_000, code, m, m, n, Refusal::SeedZero),
        (1, 1_001, code, m, m, n, Refusal::ManyCalls),
        (1, 4_294_967_296, code, m, m, n, Refusal::ManyCalls),
        (1, 4_294_967_297, code, m, m, n, Refusal::ManyCalls),
        (1, u64::MAX, code, m, m, n, Refusal::ManyCalls),
        (1, 1_000, 0, m, m, n, Refusal::BadCode),
        (1, 1_000, 3, m, m, n, Refusal::BadCode),
        (1, 1_000, 257, m, m, n, Refusal::BadCode),
        (1, 1_000, code, short, m, n, Refusal::KeyLength),
        (1, 1_000, code, long, m, n, Refusal::KeyLength),
        (1, 1_000, code, m, short, n, Refusal::IvLength),
        (1, 1_000, code, m, long, n, Refusal::IvLength),
        (1, 1_000, code, m, m, few, Refusal::AreaLength),
        (1, 1_000, code, m, m, many, Refusal::AreaLength),
        (1, 0, code, m, m, 0, Refusal::AreaLength),
        (0, 1_001, code, m, m, n, Refusal::SeedZero),
        (1, 1_001, 3, m, m, n, Refusal::ManyCalls),
        (1, 1_000, 3, short, m, n, Refusal::BadCode),
        (1, 1_000, code, short, short, n, Refusal::KeyLength),
        (1, 1_000, code, m, short, few, Refusal::IvLength),
        (0, 1_001, 3, short, short, few, Refusal::SeedZero),
        (1, 1_001, 3, short, short, few, Refusal::ManyCalls),
    ] {
        let load = Load {
            seed,
            count,
            code,
            key,
            iv,
            area,
        };
        refuses(rt, load, refusal)?;
    }
    Ok(())
}

fn main(rt: HostRuntime) -> io::Result<()> {
    for sizes in SIZES {
        for (seed, count, position, mark) in ACCEPTED {
            accepts(&rt, sizes, seed, count, position, mark)?;
        }
    }
    for sizes in SIZES {
        refused(&rt, sizes)?;
    }
    Ok(())
}
