//! The type of addresses.

/// An address with a prefix, such as `192.168.0.1/24`. The host part is kept: two of one range
/// may differ. The order is by version, address and prefix.
#[derive(Clone, Copy, Debug, PartialEq, Eq, PartialOrd, Ord)]
pub enum Ip {
    /// An address of 32 bits and a prefix of 0 to 32 bits.
    V4 {
        /// The address, its first group in the highest bits.
        address: u32,
        /// How many of the highest bits the range has in common.
        prefix: u8,
    },
    /// An address of 128 bits and a prefix of 0 to 128 bits.
    V6 {
        /// The address, its first group in the highest bits.
        address: u128,
        /// How many of the highest bits the range has in common.
        prefix: u8,
    },
}
