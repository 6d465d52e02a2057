// The refusals of load, 4 excepted, of the first string and of the second, and 23.
use crate::check;
use crate::strings::{Run, Stored, beginning, change, length};
use cipher::Cipher;
use refusal::Refusal;
use refusal::Refusal::{
    BadCode, BadNumber, BadPosition, EndsEarly, NoKey, StringLength, TwoCiphers,
};
use std::io;

// Checkpoints of different ciphers, this one's first.
pub fn two_ciphers(rt: &impl Print, run: Run) -> io::Result<()> {
    let cipher = run.cipher;
    for (p, q) in [(0, 0), (5, 777)] {
        let own = run.checkpoint(p);
        let spare = run.by_other_cipher().checkpoint(q);
        let case = format_args!("{cipher} at {p}, the other cipher at {q}");
        check(rt, case, &own, &spare, Err(TwoCiphers))?;
    }
    Ok(())
}

// Checkpoints of both ciphers, this one's and the other's, beside which a string is refused.
#[derive(Clone, Copy)]
struct Beside<'a> {
    cipher: Cipher,
    own: &'a [u8],
    spare: &'a [u8],
}

impl Beside<'_> {
    // A string that load refuses: as the first beside a checkpoint of either cipher, and as the second.
    fn refuses(
        self,
        rt: &impl Print,
        case: &str,
        string: &[u8],
        refusal: Refusal,
    ) -> io::Result<()> {
        let Beside { cipher, own, spare } = self;
        let expected = Err(refusal);
        check(
            rt,
            format_args!("{cipher} {case}, a checkpoint"),
            string,
            own,
            expected,
        )?;
        check(
            rt,
            format_args!("{cipher} {case}, one of the other cipher"),
            string,
            spare,
            expected,
        )?;
        check(
            rt,
            format_args!("{cipher} a checkpoint, {case}"),
            own,
            string,
            expected,
        )?;
        check(
            rt,
            format_args!("{cipher} one of the other cipher, {case}"),
            spare,
            string,
            expected,
        )
    }
}

// Strings that only begin as a checkpoint: each with its code, the groups of its position, its length and the refusal.
fn beginnings(
    rt: &impl Print,
    beside: Beside<'_>,
    rows: &[(&str, u8, [u8; 4], usize, Refusal)],
) -> io::Result<()> {
    for (case, code, position, length, refusal) in rows {
        let string = beginning(*code, *position, *length)?;
        beside.refuses(rt, case, &string, *refusal)?;
    }
    Ok(())
}

// One string that load refuses. It is without a cipher; or has a position that is cut, too long, not in shortest form or over the limit; or words that
// are too few, too many, or of no key and IV, also those of a true checkpoint that states another position.
pub fn one_refused(rt: &impl Print, run: Run) -> io::Result<()> {
    let own = run.checkpoint(5);
    let spare = run.by_other_cipher().checkpoint(5);
    let beside = Beside {
        cipher: run.cipher,
        own: &own,
        spare: &spare,
    };
    let code = run.code_byte();
    let [one, two, four] = [1, 2, 4].map(|groups| length(run.cipher, groups));
    beginnings(
        rt,
        beside,
        &[
            ("no bytes", 0, [0, 0, 0, 0], 0, EndsEarly),
            ("code 0", 0, [5, 0, 0, 0], one, BadCode),
            ("code 3", 3, [5, 0, 0, 0], one, BadCode),
            ("code 129", 129, [5, 0, 0, 0], 1, BadCode),
            ("code 255", 255, [5, 0, 0, 0], 1, BadCode),
            ("the code alone", code, [0, 0, 0, 0], 1, EndsEarly),
            (
                "a position cut after one group",
                code,
                [128, 0, 0, 0],
                2,
                EndsEarly,
            ),
            (
                "a position cut after three groups",
                code,
                [128, 128, 128, 0],
                4,
                EndsEarly,
            ),
            (
                "a fourth group that announces another, at the end",
                code,
                [128, 128, 128, 128],
                5,
                BadNumber,
            ),
            (
                "a fourth group that announces another",
                code,
                [128, 128, 128, 128],
                one,
                BadNumber,
            ),
            ("a last group 0", code, [128, 0, 0, 0], two, BadNumber),
            (
                "a last group 0, at the end",
                code,
                [128, 0, 0, 0],
                3,
                BadNumber,
            ),
            (
                "position 67108865",
                code,
                [129, 128, 128, 32],
                four,
                BadPosition,
            ),
            (
                "position 67108865 and no words",
                code,
                [129, 128, 128, 32],
                5,
                BadPosition,
            ),
            ("no words", code, [5, 0, 0, 0], 2, StringLength),
        ],
    )?;
    let mut string = own.clone()?;
    string.pop();
    beside.refuses(rt, "a byte too few", &string, StringLength)?;
    let mut string = own.clone()?;
    string.extend([0])?;
    beside.refuses(rt, "a byte too many", &string, StringLength)?;
    beginnings(
        rt,
        beside,
        &[
            ("words that are all 0", code, [0, 0, 0, 0], one, NoKey),
            (
                "words that are all 0 at the limit",
                code,
                [128, 128, 128, 32],
                four,
                NoKey,
            ),
        ],
    )?;
    for (case, at) in [
        ("a bit of the first word changed", 2),
        (
            "a bit of the last word changed",
            own.len().saturating_sub(1),
        ),
        ("position 4 stated with the tables of 5", 1),
    ] {
        let mut string = own.clone()?;
        change(&mut string, at);
        beside.refuses(rt, case, &string, NoKey)?;
    }
    Ok(())
}

// A string that load refuses so.
fn refused_with(run: Run, refusal: Refusal) -> io::Result<Stored> {
    let code = run.code_byte();
    match refusal {
        EndsEarly => Ok(Stored::new()),
        BadCode => beginning(0, [0, 0, 0, 0], 9),
        BadNumber => beginning(code, [128, 0, 0, 0], 9),
        BadPosition => beginning(code, [129, 128, 128, 32], 9),
        StringLength => beginning(code, [0, 0, 0, 0], 9),
        _ => beginning(code, [0, 0, 0, 0], length(run.cipher, 1)),
    }
}

// Both strings are refused, and the answer is the first one's refusal: every two different refusals of load, in both orders; and a second string that
// is of the other cipher.
pub fn two_refused(rt: &impl Print, run: Run) -> io::Result<()> {
    let cipher = run.cipher;
    let refusals = [
        EndsEarly,
        BadCode,
        BadNumber,
        BadPosition,
        StringLength,
        NoKey,
    ];
    for refusal in refusals {
        for other in refusals {
            if refusal != other {
                let first = refused_with(run, refusal)?;
                let second = refused_with(run, other)?;
                let (n, m) = (u64::from(refusal), u64::from(other));
                let case = format_args!("{cipher} refused with {n} and {m}");
                check(rt, case, &first, &second, Err(refusal))?;
            }
        }
    }
    for other in [NoKey, StringLength] {
        let first = refused_with(run, NoKey)?;
        let second = refused_with(run.by_other_cipher(), other)?;
        let m = u64::from(other);
        let case = format_args!("{cipher} refused with 12 and, of the other cipher, {m}");
        check(rt, case, &first, &second, Err(NoKey))?;
    }
    Ok(())
}
