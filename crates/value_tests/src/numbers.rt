// What numbers are; what calculations answer is data of `function_cases`.
use fix_num::Fixed;

// Whether the number is zero exactly where this says so, and negative where that does.
fn is_so(millionths: i64, is_zero: bool, is_negative: bool) -> bool {
    match Fixed::from_millionths(millionths) {
        Ok(number) => number.is_zero() == is_zero && number.is_negative() == is_negative,
        Err(_) => false,
    }
}

// Whether the first number is less than the second.
fn is_less(first: i64, second: i64) -> bool {
    match (
        Fixed::from_millionths(first),
        Fixed::from_millionths(second),
    ) {
        (Ok(first), Ok(second)) => first < second,
        _ => false,
    }
}

#[test]
fn zero_and_negative_numbers(rt: HostRuntime) {
    assert!(rt; is_so(0, true, false) && is_so(1, false, false) && is_so(-2_000_000, false, true));
    assert!(rt;
        Fixed::from_text("-0") == Ok(Fixed::ZERO) && Fixed::from_text("1.0") == Ok(Fixed::ONE)
    );
    assert!(rt; is_less(-2_000_000, -1_999_999) && !is_less(0, 0));
}
