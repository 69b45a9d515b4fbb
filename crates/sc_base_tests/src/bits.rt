//! Tests of the bits of numbers and addresses.
use sc_bits::{bit, from_bits, ip_bit, ip_from_bits};
use sc_ip::Ip;

#[test]
fn bits_in_twos_complement(rt: HostRuntime) {
    assert!(rt; bit(5, 0) && !bit(5, 1) && bit(5, 2) && !bit(5, 63));
    assert!(rt; bit(-5, 0) && bit(-5, 1) && !bit(-5, 2) && bit(-5, 63));
    assert!(rt; bit(i64::MIN, 63) && !bit(i64::MIN, 62) && !bit(i64::MAX, 63));
}

#[test]
fn integers_from_bits(rt: HostRuntime) {
    let mut bits = [false; 64];
    assert!(rt; from_bits(&bits) == 0);
    bits[0] = true;
    bits[2] = true;
    assert!(rt; from_bits(&bits) == 5);
    bits[63] = true;
    assert!(rt; from_bits(&bits) == i64::MIN + 5);
    assert!(rt; from_bits(&[true; 64]) == -1);
}

#[test]
fn bits_of_an_address_of_version_4(rt: HostRuntime) {
    // 192.168.0.1/24
    let address = Ip::V4 {
        address: 0xc0a8_0001,
        prefix: 24,
    };
    assert!(rt; !ip_bit(&address, 0));
    assert!(rt; ip_bit(&address, 24) && !ip_bit(&address, 25));
    assert!(rt; ip_bit(&address, 129) && ip_bit(&address, 160) && !ip_bit(&address, 161));
}

#[test]
fn an_address_of_version_6_from_bits(rt: HostRuntime) {
    let mut bits = [false; 257];
    bits[0] = true;
    bits[1] = true;
    bits[256] = true;
    assert!(rt; is_first_half(&ip_from_bits(&bits)));
}

/// Whether an address is `::1/1`.
fn is_first_half(address: &Ip) -> bool {
    matches!(
        *address,
        Ip::V6 {
            address: 1,
            prefix: 1
        }
    )
}
