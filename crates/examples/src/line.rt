// Reading a line: its words, numbers and digits. No function asks anything of its caller: what is not there reads as empty or 0.

// What stands before the first space, and what stands after it.
pub(crate) fn split_word(line: &[u8]) -> (&[u8], &[u8]) {
    match line.iter().position(|&byte| byte == b' ') {
        Some(at) => (&line[..at], &line[at + 1..]),
        None => (line, &[]),
    }
}

// The value of a digit to the base 16: a small letter is none.
pub(crate) fn digit(byte: u8) -> Option<u8> {
    match byte {
        b'0'..=b'9' => Some(byte - b'0'),
        b'A'..=b'F' => Some(byte - b'A' + 10),
        _ => None,
    }
}

// No case has a number above 99,999, so what stands after five digits is left out: no count makes a loop long.
fn with_digit(x: usize, digit: u32) -> usize {
    if 9999 < x {
        return x;
    }
    x * 10 + digit as usize
}

// The number whose digits stand at the start of `text`.
pub(crate) fn number(text: &[u8]) -> usize {
    text.iter()
        .map_while(|&byte| char::from(byte).to_digit(10))
        .fold(0, with_digit)
}
