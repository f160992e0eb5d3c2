// A line of output, by its pieces.
use plan_types::Line;

#[test]
fn pieces_and_numbers_stand_one_after_the_other(rt: HostRuntime) {
    let mut line = Line::new();
    assert_eq!(rt; line.bytes(), b"".as_slice());
    line.push(b"n ");
    line.push_decimal(18446744073709551615);
    assert_eq!(rt; line.bytes(), b"n 18446744073709551615".as_slice());
    line.clear();
    line.push_decimal(0);
    assert_eq!(rt; line.bytes(), b"0".as_slice());
}
