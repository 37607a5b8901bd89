// Files and the sheets that they are.
use book_files::read_book;
use book_model::BookSheet;
use run_inputs::empty_book;
use std::alloc::{AllocError, Global};
use std::test::Fail;

// A file's name, bytes that it has so many times, how many cells the book has before it, and the name of its sheet and how
// many cells that has, or why it is none.
type Case = (&'static str, &'static [u8], usize, u32, &'static str);

const CASES: &[Case] = &[
    ("a.csv", b"\xFF", 1, 0, "not UTF-8"),
    ("a.csv", b"1,2", 1, 0, "a 2"),
    (".csv", b"1", 1, 0, "sheet name invalid"),
    ("a.CSV", b"", 1, 1_000_000, "a.CSV 0"),
    ("a", b",x", 1, 999_999, "a 1"),
    ("a", b",x,", 1, 1_000_000, "too many cells"),
    ("a", b"\n", 10, 0, "a 0"),
    ("a", b",", 18_277, 0, "a 0"),
    ("a", b",", 18_278, 0, "too many columns"),
    ("a", b"x", 8_193, 1_000_000, "field too long"),
];

// The sheet's name, and how many cells it has.
fn shown_sheet(alloc: Global, sheet: &BookSheet) -> Result<String, AllocError> {
    let name = sheet.name.as_str();
    let count = sheet.cells.items().len();
    format!(in alloc; "{name} {count}")
}

// The sheet of a file, or why it is none.
fn shown(alloc: Global, name: &str, bytes: &[u8], filled: u32) -> Result<String, AllocError> {
    match read_book(alloc, name, bytes, filled) {
        Ok(sheet) => shown_sheet(alloc, &sheet),
        Err(fault) => format!(in alloc; "{fault}"),
    }
}

// Whether a file is the sheet, or none for this cause.
fn is_shown(alloc: Global, case: &Case) -> Result<bool, AllocError> {
    let (name, bytes, times, filled, expected) = *case;
    let bytes = bytes.repeat(alloc, times)?;
    Ok(shown(alloc, name, &bytes, filled)?.as_str() == expected)
}

#[test]
fn files_are_sheets(rt: HostRuntime) -> Result<(), Fail> {
    for case in CASES {
        assert!(rt; is_shown(rt.alloc(), case)?, "{}", case.4);
    }
    assert!(rt; empty_book(rt.alloc())?.len() == 1);
    Ok(())
}
