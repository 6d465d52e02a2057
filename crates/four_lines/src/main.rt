// The cases of document 02 (i), four lines on one stream, for both ciphers: a line each, `ok` or `wrong`. A line says from what head, area and share
// account a call starts, what it is to get, and where it is accepted what it is to leave.
#![tactic(auto)]

use closings::{closes, no_closing};
use draws::{draws, no_draw};
use openings::{no_opening, opens};
use refusal::Refusal::{
    AreaLength, BadCode, BadPosition, EndsEarly, FalseWord, NoLine, PastLimit, PastShares,
    SeedZero, VolumeEnds, WrongSharing,
};
use state::{SIZES, Sizes, State, account, open};
use std::io;
use while_open::Outcome;

mod closings;
mod draws;
mod lines;
mod openings;
mod state;
mod while_open;

// 2^63: twice this, cut to 64 bits, is 0.
const HALF: u64 = 9_223_372_036_854_775_808;

const NONE: [u64; 4] = [0; 4];

// Openings at 0, where 67,108,864 bytes are left: no shares; some; all but one, all, and one more.
fn first_openings(rt: &impl Print, from: &State) -> io::Result<()> {
    for (shares, common) in [
        (NONE, 67_108_864),
        ([1_000, 1_000, 500, 0], 67_106_364),
        ([1, 2, 3, 67_108_857], 1),
        ([1, 2, 3, 67_108_858], 0),
    ] {
        opens(rt, from, shares, common)?;
    }
    no_opening(rt, from, [1, 2, 3, 67_108_859], PastShares)
}

// Shares that one by one or together are more than there ever is. Cut to 64 bits the first sums would be 2^64 - 1, 0, 0 and 1; cut to 32 bits the
// last would be 0.
fn large_shares(rt: &impl Print, from: &State) -> io::Result<()> {
    for shares in [
        [0, 0, 0, u64::MAX],
        [u64::MAX, 1, 0, 0],
        [HALF, 0, HALF, 0],
        [u64::MAX, u64::MAX, 2, 1],
        [4_294_967_295, 0, 1, 0],
    ] {
        no_opening(rt, from, shares, PastShares)?;
    }
    Ok(())
}

// Openings at 1, which is inside a word; at 4; at 67,108,863; and at the limit, where only shares of 0 fit.
// Each case begins from a state of its own, so the calls stand one after another and not in an array.
fn later_openings(
    rt: &impl Print,
    inside: &State,
    word: &State,
    last: &State,
    limit: &State,
) -> io::Result<()> {
    opens(rt, inside, [0, 67_108_863, 0, 0], 0)?;
    no_opening(rt, inside, [0, 67_108_863, 1, 0], PastShares)?;
    opens(rt, word, [1, 1, 1, 67_108_856], 1)?;
    no_opening(rt, word, [0, 0, 67_108_861, 0], PastShares)?;
    opens(rt, last, [0, 0, 1, 0], 0)?;
    no_opening(rt, last, [1, 0, 0, 1], PastShares)?;
    opens(rt, limit, NONE, 0)?;
    no_opening(rt, limit, [0, 0, 0, 1], PastShares)?;
    no_opening(rt, limit, [u64::MAX, 1, 0, 0], PastShares)
}

// The refusals of an opening at 1, each by itself and before the one that comes next, and the first before all others. The word that the area has for
// 67,108,865 is that of 1.
fn refused_openings(rt: &impl Print, from: &State, sizes: Sizes) -> io::Result<()> {
    let Sizes {
        code,
        few,
        area: n,
        many,
        ..
    } = sizes;
    let opened = from.with_account(open(NONE, 67_108_863));
    for (code, size, position, off, shares) in [
        (code, n, 1, 0, NONE),
        (3, n, 1, 0, NONE),
        (3, few, 67_108_865, 1, [HALF, HALF, 0, 0]),
    ] {
        let from = opened.with_head(code, size, position, off);
        no_opening(rt, &from, shares, WrongSharing)?;
    }
    for (code, size, position, off, shares, refusal) in [
        (3, n, 1, 0, NONE, BadCode),
        (3, few, 1, 0, NONE, BadCode),
        (code, few, 1, 0, NONE, AreaLength),
        (code, many, 1, 0, NONE, AreaLength),
        (code, few, 67_108_865, 0, NONE, AreaLength),
        (code, n, 67_108_865, 0, NONE, BadPosition),
        (code, n, 67_108_865, 1, NONE, BadPosition),
        (code, n, 1, 1, NONE, FalseWord),
        (code, n, 1, 1, [67_108_864, 0, 0, 0], FalseWord),
        (code, n, 1, 0, [67_108_864, 0, 0, 0], PastShares),
    ] {
        let from = from.with_head(code, size, position, off);
        no_opening(rt, &from, shares, refusal)?;
    }
    Ok(())
}

// From 1 with mark 9: draws within a share, up to it, with nothing left of it, and one byte beyond it; without a share; up to a share; and of no
// bytes. Then a closing, a second one, and an opening from there.
fn drawing(rt: &impl Print, from: &State) -> io::Result<()> {
    let mut at = opens(rt, from, [10, 20, 30, 0], 67_108_803)?;
    for (line, n, shares, common, position, mark) in [
        (0, 4, [6, 20, 30, 0], 67_108_803, 5, 9),
        (0, 6, [0, 20, 30, 0], 67_108_803, 11, 11),
        (0, 1, [0, 20, 30, 0], 67_108_802, 12, 12),
        (1, 21, [0, 0, 30, 0], 67_108_801, 33, 33),
        (3, 5, [0, 0, 30, 0], 67_108_796, 38, 38),
        (2, 30, NONE, 67_108_796, 68, 68),
        (2, 0, NONE, 67_108_796, 68, 68),
    ] {
        at = draws(rt, &at, line, n, open(shares, common), position, mark)?;
    }
    let closed = closes(rt, &at)?;
    no_closing(rt, &closed, WrongSharing)?;
    let again = opens(rt, &closed, [100, 0, 0, 7], 67_108_689)?;
    draws(rt, &again, 3, 8, open([100, 0, 0, 0], 67_108_688), 76, 76)?;
    no_opening(rt, &closed, [100, 0, 67_108_690, 7], PastShares)
}

// From 0 with an account that gives less than is left of the stream: one line draws its share and the whole common part, the others draw all of their
// shares, and then each line gets 20 for one byte and 0 for none.
fn common_part(rt: &impl Print, start: &State) -> io::Result<()> {
    let from = start.with_account(open([1, 2, 3, 4], 5));
    no_draw(rt, &from, 3, 10, PastShares)?;
    let a = draws(rt, &from, 3, 9, open([1, 2, 3, 0], 0), 9, 9)?;
    no_draw(rt, &a, 0, 2, PastShares)?;
    let b = draws(rt, &a, 0, 1, open([0, 2, 3, 0], 0), 10, 10)?;
    let c = draws(rt, &b, 1, 2, open([0, 0, 3, 0], 0), 12, 12)?;
    let d = draws(rt, &c, 2, 3, open(NONE, 0), 15, 15)?;
    for line in 0..4 {
        no_draw(rt, &d, line, 1, PastShares)?;
    }
    for line in 0..4 {
        draws(rt, &d, line, 0, open(NONE, 0), 15, 15)?;
    }
    Ok(())
}

// From 67,108,764, 100 bytes before the limit: one line draws its share and the whole common part, and the others still draw all of theirs. At the
// limit each line gets 6 for one byte, as does a line over 3, and 0 for none; and sharing may be closed and opened there.
fn to_limit(rt: &impl Print, from: &State) -> io::Result<()> {
    let a = opens(rt, from, [10, 20, 30, 0], 40)?;
    no_draw(rt, &a, 0, 51, PastShares)?;
    no_draw(rt, &a, 3, 41, PastShares)?;
    let left = open([10, 0, 30, 0], 0);
    let b = draws(rt, &a, 1, 60, left, 67_108_824, 67_108_824)?;
    no_draw(rt, &b, 1, 1, PastShares)?;
    no_draw(rt, &b, 3, 1, PastShares)?;
    let left = open([0, 0, 30, 0], 0);
    let c = draws(rt, &b, 0, 10, left, 67_108_834, 67_108_834)?;
    no_draw(rt, &c, 2, 31, PastLimit)?;
    let d = draws(rt, &c, 2, 30, open(NONE, 0), 67_108_864, 67_108_864)?;
    for line in 0..5 {
        no_draw(rt, &d, line, 1, PastLimit)?;
    }
    draws(rt, &d, 3, 0, open(NONE, 0), 67_108_864, 67_108_864)?;
    no_draw(rt, &d, 4, 0, NoLine)?;
    let closed = closes(rt, &d)?;
    opens(rt, &closed, NONE, 0)?;
    Ok(())
}

// The refusals of a draw up to 6, as those of an opening, each also before 19 or 20. `near` is 100 bytes before the limit.
fn refused_draws(rt: &impl Print, closed: &State, near: &State, sizes: Sizes) -> io::Result<()> {
    let Sizes {
        code,
        few,
        area: n,
        many,
        ..
    } = sizes;
    let from = closed.with_account(open([5, 0, 0, 0], 3));
    let more = near.with_account(open([101, 0, 0, 0], 0));
    let less = near.with_account(open([5, 0, 0, 0], 3));
    for (code, size, position, off, line, bytes) in [
        (code, n, 1, 0, 0, 0),
        (3, n, 1, 0, 0, 0),
        (3, few, 67_108_865, 1, 4, 128),
    ] {
        let from = closed.with_head(code, size, position, off);
        no_draw(rt, &from, line, bytes, WrongSharing)?;
    }
    for (code, size, position, off, refusal) in [
        (3, n, 1, 0, BadCode),
        (3, few, 1, 0, BadCode),
        (code, few, 1, 0, AreaLength),
        (code, many, 1, 0, AreaLength),
        (code, few, 67_108_865, 0, AreaLength),
        (code, n, 67_108_865, 0, BadPosition),
        (code, n, 67_108_865, 1, BadPosition),
        (code, n, 1, 1, FalseWord),
    ] {
        let from = from.with_head(code, size, position, off);
        no_draw(rt, &from, 0, 0, refusal)?;
    }
    no_draw(
        rt,
        &more.with_head(code, n, 67_108_764, 1),
        0,
        101,
        FalseWord,
    )?;
    no_draw(rt, &more, 0, 101, PastLimit)?;
    no_draw(rt, &more, 4, 101, PastLimit)?;
    no_draw(rt, &less, 0, 101, PastLimit)?;
    draws(
        rt,
        &more,
        0,
        100,
        open([1, 0, 0, 0], 0),
        67_108_864,
        67_108_864,
    )?;
    for (code, size, position, off, line, bytes, refusal) in [
        (3, n, 1, 0, 0, 9, BadCode),
        (code, few, 1, 0, 4, 9, AreaLength),
        (code, n, 67_108_865, 0, 0, 9, BadPosition),
        (code, n, 1, 1, 4, 0, FalseWord),
    ] {
        let from = from.with_head(code, size, position, off);
        no_draw(rt, &from, line, bytes, refusal)?;
    }
    Ok(())
}

// Lines over 3, with no bytes, with one, and with more than any line could draw; the largest line; and draws of share and common part, and of one
// byte more.
fn refused_lines(rt: &impl Print, closed: &State) -> io::Result<()> {
    let from = closed.with_account(open([5, 0, 0, 0], 3));
    for (line, n) in [
        (4, 0),
        (4, 9),
        (4_294_967_296, 1),
        (4_294_967_297, 1),
        (u64::MAX, 1),
    ] {
        no_draw(rt, &from, line, n, NoLine)?;
    }
    draws(rt, &from, 3, 3, open([5, 0, 0, 0], 0), 4, 9)?;
    draws(rt, &from, 0, 8, open(NONE, 0), 9, 9)?;
    no_draw(rt, &from, 0, 9, PastShares)
}

// Accounts that were made up, at 0. Open is any number but 0, and a draw keeps it; an account that is closed may hold anything.
// Each case begins from a state of its own, so the calls stand one after another and not in an array.
fn made_up(rt: &impl Print, start: &State) -> io::Result<()> {
    let all = account(u64::MAX, [u64::MAX; 4], u64::MAX);
    let left = [u64::MAX, u64::MAX, 18_446_744_073_709_551_610, u64::MAX];
    let most = start.with_account(all);
    let two = start.with_account(account(2, [1, 2, 3, 4], 5));
    let large = start.with_account(account(4_294_967_296, [1, 2, 3, 4], 5));
    let zero = start.with_account(account(0, [1, 2, 3, 4], 5));
    draws(rt, &most, 2, 5, account(u64::MAX, left, u64::MAX), 5, 5)?;
    no_opening(rt, &most, NONE, WrongSharing)?;
    closes(rt, &most)?;
    draws(rt, &two, 0, 2, account(2, [0, 2, 3, 4], 4), 2, 2)?;
    no_opening(rt, &two, NONE, WrongSharing)?;
    draws(
        rt,
        &large,
        1,
        2,
        account(4_294_967_296, [1, 0, 3, 4], 5),
        2,
        2,
    )?;
    closes(rt, &large)?;
    no_draw(rt, &zero, 0, 1, WrongSharing)?;
    no_closing(rt, &zero, WrongSharing)?;
    no_opening(rt, &zero, [67_108_864, 0, 1, 0], PastShares)?;
    while_open::cipher(rt, &zero, 1, Outcome::accepted(1, 1))?;
    opens(rt, &zero, [9, 8, 7, 6], 67_108_834)?;
    Ok(())
}

// Accounts that were made up, where the sum of a share and the common part does not fit 64 bits.
// Each case begins from a state of its own, so the calls stand one after another and not in an array.
fn large_sums(rt: &impl Print, start: &State) -> io::Result<()> {
    let a = start.with_account(open([u64::MAX, 0, 0, 0], 1));
    let b = start.with_account(open([0, 1, 0, 0], u64::MAX));
    let c = start.with_account(open([0, 0, 0, HALF], HALF));
    draws(
        rt,
        &a,
        0,
        1,
        open([18_446_744_073_709_551_614, 0, 0, 0], 1),
        1,
        1,
    )?;
    no_draw(rt, &a, 1, 2, PastShares)?;
    draws(rt, &b, 1, 1, open(NONE, u64::MAX), 1, 1)?;
    draws(rt, &b, 1, 3, open(NONE, 18_446_744_073_709_551_613), 3, 3)?;
    draws(
        rt,
        &c,
        3,
        7,
        open([0, 0, 0, 9_223_372_036_854_775_801], HALF),
        7,
        7,
    )?;
    Ok(())
}

// The other calls from 1 with mark 9 while sharing is open: 21 before another refusal that is due.
fn calls_while_open(rt: &impl Print, closed: &State, n: usize) -> io::Result<()> {
    let from = closed.with_account(open(NONE, 67_108_863));
    let stopped = Outcome::refused(WrongSharing, 1, 9);
    while_open::set_up(rt, &from, 3, stopped)?;
    while_open::load(rt, &from, 0, stopped)?;
    while_open::move_by(rt, &from, 67_108_864, stopped)?;
    while_open::run_test_load(rt, &from, 0, stopped)?;
    while_open::encipher_volume(rt, &from, 4, stopped)?;
    while_open::cipher(rt, &from.with_head(3, n, 1, 0), 10, stopped)
}

// The other calls from 1 with mark 9 while sharing is open by an account that was made up: 21 where nothing else is due. The checkpoint has this many
// bytes.
fn good_calls_while_open(
    rt: &impl Print,
    closed: &State,
    code: u32,
    bytes: usize,
) -> io::Result<()> {
    let from = closed.with_account(account(4_294_967_296, NONE, 0));
    let stopped = Outcome::refused(WrongSharing, 1, 9);
    while_open::set_up(rt, &from, code, stopped)?;
    while_open::load(rt, &from, bytes, stopped)?;
    while_open::move_by(rt, &from, 5, stopped)?;
    while_open::run_test_load(rt, &from, 1, stopped)?;
    while_open::encipher_volume(rt, &from, 5, stopped)?;
    while_open::cipher(rt, &from, 10, stopped)
}

// The other calls from 1 with mark 9 while sharing is closed: accepted, and refused with the refusal that is due.
fn calls_while_closed(
    rt: &impl Print,
    from: &State,
    code: u32,
    n: usize,
    bytes: usize,
) -> io::Result<()> {
    while_open::set_up(rt, from, code, Outcome::accepted(0, 0))?;
    while_open::load(rt, from, bytes, Outcome::accepted(1, 1))?;
    while_open::move_by(rt, from, 5, Outcome::accepted(6, 9))?;
    while_open::run_test_load(rt, from, 1, Outcome::accepted(424, 424))?;
    while_open::encipher_volume(rt, from, 5, Outcome::accepted(6, 9))?;
    while_open::cipher(rt, from, 10, Outcome::accepted(11, 11))?;
    while_open::set_up(rt, from, 3, Outcome::refused(BadCode, 1, 9))?;
    while_open::load(rt, from, 0, Outcome::refused(EndsEarly, 1, 9))?;
    while_open::move_by(rt, from, 67_108_864, Outcome::refused(PastLimit, 1, 9))?;
    while_open::run_test_load(rt, from, 0, Outcome::refused(SeedZero, 1, 9))?;
    while_open::encipher_volume(rt, from, 4, Outcome::refused(VolumeEnds, 1, 9))?;
    let unknown = from.with_head(3, n, 1, 0);
    while_open::cipher(rt, &unknown, 10, Outcome::refused(BadCode, 1, 9))
}

// The cases of a cipher.
fn of_cipher(rt: &impl Print, sizes: Sizes) -> io::Result<()> {
    let Sizes {
        code,
        area: n,
        checkpoint: bytes,
        ..
    } = sizes;
    let start = State::set_up(sizes)?;
    let inside = start.moved(9, -8)?;
    let word = start.moved(0, 4)?;
    let near = start.moved(0, 67_108_764)?;
    let last = near.moved(0, 99)?;
    let limit = near.moved(0, 100)?;
    first_openings(rt, &start)?;
    large_shares(rt, &start)?;
    later_openings(rt, &inside, &word, &last, &limit)?;
    refused_openings(rt, &inside, sizes)?;
    drawing(rt, &inside)?;
    common_part(rt, &start)?;
    to_limit(rt, &near)?;
    refused_draws(rt, &inside, &near, sizes)?;
    refused_lines(rt, &inside)?;
    made_up(rt, &start)?;
    large_sums(rt, &start)?;
    calls_while_open(rt, &inside, n)?;
    good_calls_while_open(rt, &inside, code, bytes)?;
    calls_while_closed(rt, &inside, code, n, bytes)
}

fn main(rt: HostRuntime) -> io::Result<()> {
    for sizes in SIZES {
        of_cipher(&rt, sizes)?;
    }
    Ok(())
}
