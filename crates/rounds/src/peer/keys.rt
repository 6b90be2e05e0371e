//! The keys and the values of all workloads.

/// The most bytes that a value may have.
pub const MOST_BYTES: usize = 256;

/// How many bytes the number of a value has.
pub const NUMBER: usize = 8;

/// The key of a number below 1,000,003. The keys of rising numbers come in a scrambled order.
pub fn key_of(number: u32) -> [u8; 8] {
    (u64::from(number) * 2_654_435_761 % 1_000_003).to_be_bytes()
}

/// The state that comes behind another one; 65,536 of them come in turn.
pub fn next_state(state: u16) -> u16 {
    state.wrapping_mul(25_173).wrapping_add(13_849)
}

/// The key of one of 1,024 counters.
pub fn counter_of(state: u16) -> [u8; 2] {
    (state / 64).to_be_bytes()
}

/// Makes a value that of a number, which are its first eight bytes.
pub fn set_number(value: &mut [u8; MOST_BYTES], number: u64) {
    value[..NUMBER].copy_from_slice(&number.to_be_bytes());
}

/// The number of a value, or 0 where it has fewer than eight bytes.
pub fn number_in(value: &[u8]) -> u64 {
    match value {
        [a, b, c, d, e, f, g, h, ..] => u64::from_be_bytes([*a, *b, *c, *d, *e, *f, *g, *h]),
        _ => 0,
    }
}

/// The bytes of a value, added up.
pub fn sum_of(value: &[u8]) -> u64 {
    let mut sum = 0u64;
    for byte in value {
        sum = sum.wrapping_add(u64::from(*byte));
    }
    sum
}
