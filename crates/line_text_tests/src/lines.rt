use line_text::{cut, next_line};

#[test]
fn a_text_is_cut_at_the_first_byte(rt: HostRuntime) {
    assert_eq!(rt;
        cut(b"look 0x0 root", b' '),
        (b"look".as_slice(), Some(b"0x0 root".as_slice()))
    );
    assert_eq!(rt; cut(b" x", b' '), (b"".as_slice(), Some(b"x".as_slice())));
    assert_eq!(rt; cut(b"end", b' '), (b"end".as_slice(), None));
    assert_eq!(rt; cut(b"", b' '), (b"".as_slice(), None));
}

#[test]
fn lines_end_at_line_feeds(rt: HostRuntime) {
    assert_eq!(rt;
        next_line(b"cpu\nend\n"),
        Some((b"cpu".as_slice(), b"end\n".as_slice()))
    );
    assert_eq!(rt; next_line(b"\n"), Some((b"".as_slice(), b"".as_slice())));
    assert_eq!(rt; next_line(b"end"), None);
    assert_eq!(rt; next_line(b""), None);
}
