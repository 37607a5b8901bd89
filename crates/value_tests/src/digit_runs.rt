use digits::{after_byte, all_digits, before_byte, has_byte, position_of, value_at_most};

// Digits, a limit, and their value or the limit where they have a greater one.
const DIGITS: &[(&str, u64, u64)] = &[
    ("", 9, 0),
    ("0", 9, 0),
    ("0042", 1000, 42),
    ("999", 1000, 999),
    ("1000", 1000, 1000),
    ("1001", 1000, 1000),
    (
        "18446744073709551616",
        1_000_000_000_000_000_000,
        1_000_000_000_000_000_000,
    ),
    ("99999999999999999999000", 5, 5),
];

const NO_DIGITS: &[&str] = &["a", "1/", ":1", "1.5", "-1", " 1", "+1"];

// Texts, and what stands in front of the first point and behind it.
const PARTS: &[(&str, &str, &str)] = &[
    ("", "", ""),
    ("3.14", "3", "14"),
    ("3.", "3", ""),
    (".14", "", "14"),
    ("1.2.3", "1", "2.3"),
    ("314", "314", ""),
];

#[test]
fn digits_of_texts(rt: HostRuntime) {
    for (text, most, value) in DIGITS {
        assert!(rt; value_at_most(text.as_bytes(), *most) == *value, "{text}");
        assert!(rt; all_digits(text.as_bytes()), "{text}");
    }
    for text in NO_DIGITS {
        assert!(rt; !all_digits(text.as_bytes()), "{text}");
    }
}

#[test]
fn parts_of_texts(rt: HostRuntime) {
    for (text, before, after) in PARTS {
        assert!(rt;
            before_byte(text.as_bytes(), b'.') == before.as_bytes(),
            "{text}"
        );
        assert!(rt;
            after_byte(text.as_bytes(), b'.') == after.as_bytes(),
            "{text}"
        );
    }
}

#[test]
fn bytes_of_texts(rt: HostRuntime) {
    assert!(rt; has_byte(b"1.2", b'.') && !has_byte(b"12", b'.'));
    assert!(rt; position_of(b"1.2.", b'.') == Some(1));
    assert!(rt; position_of(b"12", b'.') == None);
}
