// The cases of document 02 (d), the shift volume, (e), the duty on it, (f), the effect of one ratio on the duty, (n), the refinery's own rates, and
// (j), where a volume became hopeless: reading, writing, enciphering, the duty, the loading of rates and the soundness, a line each, `ok` or `wrong`.
#![tactic(auto)]

use cases::{
    CUT, DUTY, ENCIPHER, HOPELESS, LOAD_FAULTS, LOAD_ORDER, LOAD_RATES, READ_ENDS, READ_GROUPS,
    READ_ORDER, READ_RANGES, SOUND, WRITE,
};
use cipher::Cipher;
use std::io;

mod beginnings;
mod cases;
mod duties;
mod enciphering;
mod lent;
mod loading;
mod many;
mod table;

fn main(rt: HostRuntime) -> io::Result<()> {
    for table in [READ_RANGES, READ_GROUPS, READ_ENDS, READ_ORDER] {
        lent::read_each(&rt, table)?;
    }
    lent::write_each(&rt, WRITE)?;
    many::most(&rt)?;
    many::over(&rt)?;
    duties::owe_each(&rt, DUTY)?;
    for table in [LOAD_RATES, LOAD_FAULTS, LOAD_ORDER] {
        loading::load_each(&rt, table)?;
    }
    beginnings::sound_each(&rt, SOUND)?;
    beginnings::cut_each(&rt, CUT)?;
    beginnings::hopeless_each(&rt, HOPELESS)?;
    for cipher in [Cipher::Hc128, Cipher::Hc256] {
        enciphering::encipher_each(&rt, cipher, ENCIPHER)?;
    }
    Ok(())
}
