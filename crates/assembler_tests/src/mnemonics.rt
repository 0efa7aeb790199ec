//! Mnemonics of core instructions, and their operands.

use std::test::Fail;
use xt_mnemonics::{
    Mnemonic, Scale, Shape, Way, build, distance, fits_shape, mnemonic_named, mnemonic_of, name_of,
    shapes, values_of,
};

#[test]
fn words_of_any_case(rt: HostRuntime) -> Result<(), Fail> {
    assert_eq!(rt; mnemonic_named(b"aDdI"), Some(Mnemonic::Addi));
    assert_eq!(rt; mnemonic_named(b"BBSI"), Some(Mnemonic::Bbsi));
    assert_eq!(rt; mnemonic_named(b"ADD2"), None);
    assert_eq!(rt; name_of(Mnemonic::Callx0), b"CALLX0".as_slice());
    Ok(())
}

#[test]
fn operands_and_back(rt: HostRuntime) -> Result<(), Fail> {
    assert_eq!(rt; shapes(Mnemonic::Extui).len(), 4);
    assert_eq!(rt; shapes(Mnemonic::Ret).len(), 0);
    let inst = build(Mnemonic::Extui, [3, 4, 17, 5]);
    assert_eq!(rt; mnemonic_of(&inst), Mnemonic::Extui);
    assert_eq!(rt; values_of(&inst), [3, 4, 17, 5]);
    Ok(())
}

#[test]
fn numbers_that_fit(rt: HostRuntime) -> Result<(), Fail> {
    let pages = Shape::Signed {
        half: 32768,
        scale: Scale::Page,
    };
    assert!(rt; fits_shape(pages, -32768));
    assert!(rt; !fits_shape(pages, 255));
    assert!(rt; fits_shape(Shape::Constant, 256));
    assert!(rt; !fits_shape(Shape::UnsignedConstant, -1));
    assert!(rt; !fits_shape(Shape::Register, 16));
    assert_eq!(rt; distance(Way::Near, 10, 4), -10);
    assert_eq!(rt; distance(Way::Call, 7, 16), 8);
    assert_eq!(rt; distance(Way::Load, 6, 4), -4);
    Ok(())
}
