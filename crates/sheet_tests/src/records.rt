// Texts of CSV and their records.
use book_files::Records;
use std::alloc::AllocError;
use std::test::Fail;

// Whether there is one record, and none behind it however often it is asked for.
fn ends_after_one(records: &mut Records) -> Result<bool, AllocError> {
    let is_one = records.advance()? && records.fields().get(0) == Some(b"a".as_slice());
    Ok(is_one && !records.advance()? && !records.advance()?)
}

#[test]
fn gives_none_after_the_last(rt: HostRuntime) -> Result<(), Fail> {
    let mut records = Records::open(rt.alloc(), b"a\n");
    assert!(rt; ends_after_one(&mut records)?);
    Ok(())
}
