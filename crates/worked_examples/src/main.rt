// The worked examples of document 01 and of the number of fills, run: a label, a colon, and what the function answers.
#![tactic(auto)]

ghost use Rattle.worked_examples.specs.Examples.{All, examples};

use credit_math::allocation::{allocate_pro_rata, find_uniform_clear_price};
use refusals::Refusal;
use std::fmt::Display;

// The table of the examples that are marked for proof holds.
pub fn examples_hold()
    ensures { All examples }
{}

fn main(rt: HostRuntime) {
    examples_hold();
    show_marked_prices(&rt);
    show_marked_lots(&rt);
    show_marked_bands(&rt);
    show_wide_volumes(&rt);
    show_fills(&rt);
}

fn show_marked_prices(rt: &impl Print) {
    show_price(
        rt,
        "case L",
        &[true, true, false, false],
        &[12, 11, 9, 11],
        &[5, 3, 4, 3],
        9,
        10,
    );
    show_pair(rt, "buy 5 at 10, sell 5 at 8, reserve 0, reference 9", 0, 9);
    show_pair(
        rt,
        "buy 5 at 10, sell 5 at 8, reserve 0, reference 10",
        0,
        10,
    );
    show_pair(rt, "buy 5 at 10, sell 5 at 8, reserve 9, reference 9", 9, 9);
    show_pair(
        rt,
        "buy 5 at 10, sell 5 at 8, reserve 11, reference 9",
        11,
        9,
    );
}

fn show_marked_lots(rt: &impl Print) {
    show_lots(rt, "7 on 5, 3", 7, &[0, 1], &[5, 3], &mut [0, 0]);
    show_lots(rt, "1 on nothing", 1, &[], &[], &mut []);
    show_lots(rt, "0 on nothing", 0, &[], &[], &mut []);
    show_lots(rt, "9 on 5, 3", 9, &[0, 1], &[5, 3], &mut [0, 0]);
    show_lots(
        rt,
        "2 on 1, 1, 1 of ids 7, 3, 5",
        2,
        &[7, 3, 5],
        &[1, 1, 1],
        &mut [0, 0, 0],
    );
}

fn show_marked_bands(rt: &impl Print) {
    show_band(rt, "band of 11 at 2500", 11, 2500);
    show_band(rt, "band of 11 at 0", 11, 0);
    show_band(rt, "band of 11 at 10,000", 11, 10_000);
}

// The volumes that are run only: one past 64 bits, and one within.
fn show_wide_volumes(rt: &impl Print) {
    let half: u64 = 0x8000_0000_0000_0000;
    let sides = [true, true, false, false];
    let limits = [1, 1, 1, 1];
    show_price(
        rt,
        "two bids and two asks of 2^63",
        &sides,
        &limits,
        &[half, half, half, half],
        0,
        1,
    );
    show_price(
        rt,
        "one of each at 2^63 - 1",
        &sides,
        &limits,
        &[half, half - 1, half, half - 1],
        0,
        1,
    );
}

// Those of the table of `fills`, but for the refusal of too many.
fn show_fills(rt: &impl Print) {
    let most: u64 = 0xffff_ffff_ffff_ffff;
    show_count(
        rt,
        "fills of 5, 2 against 4, 3",
        &[5, 2, 4, 3],
        &[0, 0, 1, 1],
    );
    show_count(
        rt,
        "fills of 0, 5 against 0, 5",
        &[0, 5, 0, 5],
        &[0, 0, 1, 1],
    );
    show_count(rt, "fills of 1 against 2, 1", &[1, 2, 1], &[0, 1, 1]);
    show_count(
        rt,
        "fills of 2^64 - 1 twice against 2^64 - 2",
        &[most, most, most - 1],
        &[0, 0, 1],
    );
    show_count(rt, "fills of a lot without a side", &[1], &[]);
    show_count(rt, "fills of a zero lot on side 2", &[0], &[2]);
}

fn show_pair(rt: &impl Print, label: &str, reserve: u64, reference: u64) {
    show_price(
        rt,
        label,
        &[true, false],
        &[10, 8],
        &[5, 5],
        reserve,
        reference,
    );
}

fn show_price(
    rt: &impl Print,
    label: &str,
    is_buy: &[bool],
    limits: &[u64],
    qtys: &[u64],
    reserve: u64,
    reference: u64,
) {
    say(rt, label);
    match find_uniform_clear_price(is_buy, limits, qtys, reserve, reference) {
        Err(refusal) => show_refusal(rt, refusal),
        Ok(None) => say(rt, ": NoCross"),
        Ok(Some(cross)) => {
            say(rt, ": price ");
            say(rt, cross.clear_price);
            match u64::try_from(cross.executed_qty) {
                Ok(volume) => {
                    say(rt, " volume ");
                    say(rt, volume);
                }
                Err(_) => say(rt, " volume above 64 bits"),
            }
        }
    }
    say(rt, "\n");
}

fn show_lots(rt: &impl Print, label: &str, total: u64, ids: &[u64], qtys: &[u64], out: &mut [u64]) {
    say(rt, label);
    match allocate_pro_rata(total, ids, qtys, out) {
        Err(refusal) => show_refusal(rt, refusal),
        Ok(()) => {
            say(rt, ":");
            show_numbers(rt, out);
        }
    }
    say(rt, "\n");
}

fn show_band(rt: &impl Print, label: &str, price: u64, band_bps: u64) {
    say(rt, label);
    match disclosure::band(price, band_bps) {
        Err(refusal) => show_refusal(rt, refusal),
        Ok(price) => {
            say(rt, ":");
            show_number(rt, price);
        }
    }
    say(rt, "\n");
}

fn show_count(rt: &impl Print, label: &str, lots: &[u64], sides: &[u8]) {
    say(rt, label);
    let answer = fills::fill_count(lots, sides);
    if answer.refusal == 0 {
        say(rt, ":");
        show_number(rt, answer.count);
    } else {
        show_refused(rt, answer.refusal);
    }
    say(rt, "\n");
}

fn show_numbers(rt: &impl Print, numbers: &[u64]) {
    for n in numbers {
        show_number(rt, *n);
    }
}

fn show_number(rt: &impl Print, n: u64) {
    say(rt, " ");
    say(rt, n);
}

fn show_refusal(rt: &impl Print, refusal: Refusal) {
    show_refused(rt, refusal.number());
}

fn show_refused(rt: &impl Print, number: u8) {
    say(rt, ": refused ");
    say(rt, number);
}

// A write that fails is not said.
fn say(rt: &impl Print, value: impl Display + Drop) {
    let _ = rt.print(value);
}
