// That memory is enough for what is kept, and none is kept where an expression is nested too deep.
use crate::Reader;
use std::test::Fail;
use syntax::Expr;

// Bits 1 to 2 of the bits 011, and what comes after.
const SLICE: [u8; 12] = [2, 0, 1, 0, 2, 1, 0, 3, 0, 1, 1, 9];

#[test]
fn a_row(rt: HostRuntime) -> Result<(), Fail> {
    let mut reader = Reader::new(&SLICE[6..]);
    let Ok(bits) = reader.kept_row(rt.alloc(), 2) else {
        panic!(rt; "no row");
    };
    assert_eq!(rt; bits.as_slice(), [0, 1, 1].as_slice());
    Ok(())
}

#[test]
fn an_expression(rt: HostRuntime) -> Result<(), Fail> {
    let mut reader = Reader::new(&SLICE);
    let Ok(kept) = reader.expr(rt.alloc(), 1) else {
        panic!(rt; "no expression");
    };
    assert!(rt; matches!(kept, Some(Expr::Slice(_, 1, 2))));
    assert_eq!(rt; reader.u8(), Ok(9));
    assert_eq!(rt; reader.end(), Ok(()));

    let mut reader = Reader::new(&SLICE);
    let Ok(kept) = reader.expr(rt.alloc(), 0) else {
        panic!(rt; "no expression");
    };
    assert!(rt; kept.is_none());
    assert_eq!(rt; reader.u8(), Ok(9));
    Ok(())
}
