//! Keys in a scrambled order.

/// So many numbers have keys of their own.
pub const MOST_KEYS: u32 = 65_536;

/// The bytes of a number's key: the keys of rising numbers come in a scrambled order.
pub fn key_of(number: u32) -> [u8; 8] {
    (u64::from(number) * 40_503 % u64::from(MOST_KEYS)).to_be_bytes()
}
