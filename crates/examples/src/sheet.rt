// Rows of bytes, made from what a line gives. What finds no room is left out.
use crate::line::{digit, number, split_word};
use arrayvec::ArrayVec;

fn put<const N: usize>(row: &mut ArrayVec<u8, N>, byte: u8) {
    let _ = row.try_push(byte);
}

// Two digits make a byte. What the next symbol is paired with is answered: a digit that was not itself the second of a pair.
fn paired<const N: usize>(
    row: &mut ArrayVec<u8, N>,
    high: Option<u8>,
    low: Option<u8>,
) -> Option<u8> {
    let Some(high) = high else {
        return low;
    };
    if let Some(low) = low {
        put(row, high << 4 | low);
    }
    None
}

// n stands for the number k, x and y for its two digits to the base 16 as letters from A on; any other symbol may end a pair.
fn symbol<const N: usize>(
    row: &mut ArrayVec<u8, N>,
    high: Option<u8>,
    symbol: u8,
    k: u8,
) -> Option<u8> {
    match symbol {
        b'n' => put(row, k),
        b'x' => put(row, b'A' + k / 16),
        b'y' => put(row, b'A' + k % 16),
        _ => return paired(row, high, digit(symbol)),
    }
    None
}

// The bytes that `line` gives, most as pairs of digits to the base 16. What is no symbol separates them.
fn spelled_with<const N: usize>(row: &mut ArrayVec<u8, N>, line: &[u8], k: u8) {
    let mut high = None;
    for &byte in line {
        high = symbol(row, high, byte, k);
    }
}

pub(crate) fn spelled<const N: usize>(row: &mut ArrayVec<u8, N>, line: &[u8]) {
    spelled_with(row, line, 0);
}

// `line` is a number and then bytes, which are written that many times, k counting down to 1.
pub(crate) fn repeated<const N: usize>(row: &mut ArrayVec<u8, N>, line: &[u8]) {
    let (times, bytes) = split_word(line);
    for k in (1..=number(times)).rev() {
        spelled_with(row, bytes, (k % 256) as u8);
    }
}

// The numbers among the words of `line`, a byte each.
pub(crate) fn verdicts<const N: usize>(row: &mut ArrayVec<u8, N>, line: &[u8]) {
    for word in line.split(|&byte| byte == b' ') {
        if word.first().is_some_and(|byte| byte.is_ascii_digit()) {
            put(row, (number(word) % 256) as u8);
        }
    }
}
