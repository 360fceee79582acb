use line_text::{address_of, count_of};

/// Fields, each with the count that it is.
const COUNTS: [(&str, Option<u64>); 11] = [
    ("0", Some(0)),
    ("7", Some(7)),
    ("18446744073709551615", Some(u64::MAX)),
    ("18446744073709551616", None),
    ("00", None),
    ("01", None),
    ("", None),
    ("+1", None),
    ("1 ", None),
    ("a", None),
    ("0x1", None),
];

/// Fields, each with the address that it is.
const ADDRESSES: [(&str, Option<u64>); 12] = [
    ("0x0", Some(0)),
    ("0xaf", Some(175)),
    ("0xffffffffffffffff", Some(u64::MAX)),
    ("0x10000000000000000", None),
    ("0x", None),
    ("0x00", None),
    ("0x01", None),
    ("0xF", None),
    ("0xg", None),
    ("0X1", None),
    ("1", None),
    ("", None),
];

#[test]
fn counts_are_decimal(rt: HostRuntime) {
    for (field, want) in COUNTS.iter() {
        assert_eq!(rt; count_of(field.as_bytes()), *want, "at {field}");
    }
}

#[test]
fn addresses_are_in_base_16(rt: HostRuntime) {
    for (field, want) in ADDRESSES.iter() {
        assert_eq!(rt; address_of(field.as_bytes()), *want, "at {field}");
    }
}
