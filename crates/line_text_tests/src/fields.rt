use line_text::{FieldKind, Range, RowFault, row};

/// A kind of each sort.
const KINDS: [FieldKind; 4] = [
    FieldKind::Count(Range::Between(1, 64)),
    FieldKind::Address(Range::Below(0x1000)),
    FieldKind::Count(Range::Among(&[0, 2, 512])),
    FieldKind::Name(&["block", "granule", "none"]),
];

/// Fields, each with their values or their fault.
const ROWS: [(&str, Result<[u64; 4], RowFault>); 30] = [
    ("1 0x0 0 block", Ok([1, 0, 0, 0])),
    ("64 0xfff 512 none", Ok([64, 0xfff, 512, 2])),
    ("7 0xab 2 granule", Ok([7, 0xab, 2, 1])),
    // As many fields as kinds, none of them empty.
    ("", Err(RowFault::Fields)),
    ("1", Err(RowFault::Fields)),
    ("1 0x0 0", Err(RowFault::Fields)),
    ("1 0x0 0 ", Err(RowFault::Fields)),
    ("1 0x0  block", Err(RowFault::Fields)),
    (" 1 0x0 0 block", Err(RowFault::Fields)),
    ("1 0x0 0 block ", Err(RowFault::Fields)),
    ("1 0x0 0 block x", Err(RowFault::Fields)),
    ("x 0x0 0", Err(RowFault::Fields)),
    ("0 x 1 blocks x", Err(RowFault::Fields)),
    // Counts and addresses are spelled in one way.
    ("01 0x0 0 block", Err(RowFault::Number)),
    ("0x1 0x0 0 block", Err(RowFault::Number)),
    ("1 0 0 block", Err(RowFault::Number)),
    ("1 0x00 0 block", Err(RowFault::Number)),
    ("1 0xA 0 block", Err(RowFault::Number)),
    ("1 0x0 two block", Err(RowFault::Number)),
    ("18446744073709551616 0x0 0 block", Err(RowFault::Number)),
    // Numbers are in their ranges, and names are among theirs.
    ("0 0x0 0 block", Err(RowFault::Value)),
    ("65 0x0 0 block", Err(RowFault::Value)),
    ("1 0x1000 0 block", Err(RowFault::Value)),
    ("1 0x0 1 block", Err(RowFault::Value)),
    ("1 0x0 513 block", Err(RowFault::Value)),
    ("1 0x0 0 blocks", Err(RowFault::Value)),
    ("1 0x0 0 Block", Err(RowFault::Value)),
    // The first bad field from the left decides.
    ("0 x 0 block", Err(RowFault::Value)),
    ("x 0x1000 0 block", Err(RowFault::Number)),
    ("1 0x0 x blocks", Err(RowFault::Number)),
];

#[test]
fn rows_are_read_or_their_fault_is_reported(rt: HostRuntime) {
    for (fields, want) in ROWS.iter() {
        let found = row(&KINDS, Some(fields.as_bytes()));
        assert_eq!(rt; found, *want, "{fields}");
    }
}

#[test]
fn a_row_without_kinds_has_no_field(rt: HostRuntime) {
    assert_eq!(rt; row(&[], None), Ok([0; 4]));
    assert_eq!(rt; row(&[], Some(b"")), Err(RowFault::Fields));
    assert_eq!(rt;
        row(&[FieldKind::Count(Range::Any)], None),
        Err(RowFault::Fields)
    );
    let last = row(
        &[FieldKind::Count(Range::Any)],
        Some(b"18446744073709551615"),
    );
    assert_eq!(rt; last, Ok([u64::MAX, 0, 0, 0]));
}
