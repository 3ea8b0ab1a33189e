// Numbers up to the greatest, and small values that are equal.
use pool_text::*;
use std::process::Abort;
use std::test::Fail;

fn assert_read(rt: &impl Abort, bytes: &[u8], wanted: Option<u64>) {
    assert_eq!(rt; read_number(bytes), wanted);
}

#[test]
fn the_greatest_numbers(rt: HostRuntime) -> Result<(), Fail> {
    assert_read(&rt, b"18446744073709551615", Some(18446744073709551615));
    assert_read(&rt, b"18446744073709551616", None);
    assert_read(&rt, b"99999999999999999999", None);
    let mut text = Text::new(rt.alloc());
    append_count(&mut text, 18446744073709551615)?;
    assert_eq!(rt; text.bytes(), b"18446744073709551615".as_slice());
    Ok(())
}

#[test]
fn places_and_positions_are_equal(rt: HostRuntime) {
    let place = AdPlace { ad: 1, frame: 2 };
    let root = AdPlace { ad: 1, frame: 0 };
    assert!(rt; same_place(&place, &place) && !same_place(&place, &root));
    let position = Pos {
        ad: 1,
        frame: 2,
        attr: 3,
    };
    let next = Pos {
        ad: 1,
        frame: 2,
        attr: 4,
    };
    assert!(rt; same_position(&position, &position) && !same_position(&position, &next));
}

#[test]
fn operators_are_equal(rt: HostRuntime) {
    assert!(rt; same_unary(&UnOp::Not, &UnOp::Not) && !same_unary(&UnOp::Not, &UnOp::Minus));
    assert!(rt; same_binary(&BinOp::Rem, &BinOp::Rem) && !same_binary(&BinOp::Rem, &BinOp::BitOr));
}
