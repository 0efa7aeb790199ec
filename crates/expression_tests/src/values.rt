//! Values worked out by hand, at the widths where words begin and end.

ghost use Rattle.std.specs.Prelude.{◌≡◌, [], ◌+◌, ◌<◌, ◌≤◌, ◌*◌, ◌%◌, ◌^◌, IfOk, IsTrue, vec_len, All};
ghost use Rattle.tie_expr.specs.Meaning.{constant_meaning};
ghost use Rattle.tie_expr.specs.Tree.{meaning, size};

use std::alloc::Global;
use std::test::Fail;
use tie_expr::{Bits, Expr, NoMemory, Op1, Op2};

/// A constant.
fn number(alloc: Global, width: u8, value: u128) -> Result<Expr, NoMemory>
    requires low { 0 < width }
    requires high { width ≤ 128 }
    ensures means { IfOk result (λ e. meaning e ≡ constant_meaning (record { width = width; value = value % 2 ^ width })) }
    ensures size { IfOk result (λ e. size e ≡ 4) }
{
    Expr::constant(alloc, Bits::new(width, value))
}

/// An operator on one constant.
#[tactic(auto, using(crate::proofs::Tables::one_weight_most))]
fn one(alloc: Global, op: Op1, width: u8, a: u128) -> Result<Bits, NoMemory>
    requires low { 0 < width }
    requires high { width ≤ 128 }
{
    let a = number(alloc, width, a)?;
    Ok(Expr::one(alloc, op, a)?.eval(&[]))
}

/// An operator on two constants of one width.
#[tactic(auto, using(crate::proofs::Tables::two_rows))]
fn two(alloc: Global, op: Op2, width: u8, a: u128, b: u128) -> Result<Bits, NoMemory>
    requires low { 0 < width }
    requires high { width ≤ 128 }
{
    let a = number(alloc, width, a)?;
    let b = number(alloc, width, b)?;
    Ok(Expr::two(alloc, op, a, b)?.eval(&[]))
}

const ONES: [(Op1, u8, u128, u8, u128); 19] = [
    (Op1::Not, 1, 0, 1, 1),
    (Op1::Not, 2, 1, 2, 2),
    (Op1::Not, 31, 0, 31, 0x7fff_ffff),
    (Op1::Not, 32, 0xffff_0000, 32, 0xffff),
    (Op1::Not, 33, 1, 33, 0x1_ffff_fffe),
    (Op1::Not, 64, 0, 64, 0xffff_ffff_ffff_ffff),
    (
        Op1::Not,
        127,
        0,
        127,
        0x7fff_ffff_ffff_ffff_ffff_ffff_ffff_ffff,
    ),
    (
        Op1::Not,
        128,
        0,
        128,
        0xffff_ffff_ffff_ffff_ffff_ffff_ffff_ffff,
    ),
    (Op1::IsZero, 1, 0, 1, 1),
    (
        Op1::IsZero,
        128,
        0x8000_0000_0000_0000_0000_0000_0000_0000,
        1,
        0,
    ),
    (Op1::AndAll, 2, 3, 1, 1),
    (Op1::AndAll, 31, 0x7fff_fffe, 1, 0),
    (Op1::AndAll, 64, 0xffff_ffff_ffff_ffff, 1, 1),
    (
        Op1::AndAll,
        127,
        0x7fff_ffff_ffff_ffff_ffff_ffff_ffff_ffff,
        1,
        1,
    ),
    (Op1::OrAll, 32, 0, 1, 0),
    (
        Op1::OrAll,
        128,
        0x8000_0000_0000_0000_0000_0000_0000_0000,
        1,
        1,
    ),
    (Op1::XorAll, 2, 3, 1, 0),
    (Op1::XorAll, 33, 0x1_0000_0000, 1, 1),
    (
        Op1::XorAll,
        128,
        0x8000_0000_0000_0000_0000_0000_0000_0003,
        1,
        1,
    ),
];

#[test]
fn operators_of_one(rt: HostRuntime) -> Result<(), Fail> {
    for (op, width, a, want_width, want) in ONES {
        assert!(rt; width > 0 && width <= 128 && want_width > 0 && want_width <= 128);
        let got = one(rt.alloc(), op, width, a)?;
        assert_eq!(rt; got, Bits::new(want_width, want), "{op:?} at {width}");
    }
    Ok(())
}

const ALL_64: u128 = 0xffff_ffff_ffff_ffff;

const ALL_127: u128 = 0x7fff_ffff_ffff_ffff_ffff_ffff_ffff_ffff;

const ALL_128: u128 = 0xffff_ffff_ffff_ffff_ffff_ffff_ffff_ffff;

const TWOS: [(Op2, u8, u128, u128, u128); 57] = [
    (Op2::Add, 1, 1, 1, 0),
    (Op2::Sub, 1, 0, 1, 1),
    (Op2::Mul, 1, 1, 1, 1),
    (Op2::And, 1, 1, 0, 0),
    (Op2::Or, 1, 1, 0, 1),
    (Op2::Xor, 1, 1, 1, 0),
    (Op2::Eq, 1, 0, 0, 1),
    (Op2::Lt, 1, 0, 1, 1),
    (Op2::Shl, 1, 1, 1, 0),
    (Op2::Shr, 1, 1, 1, 0),
    (Op2::Add, 2, 3, 2, 1),
    (Op2::Sub, 2, 1, 3, 2),
    (Op2::Mul, 2, 3, 3, 1),
    (Op2::Shl, 2, 3, 1, 2),
    (Op2::Shl, 2, 3, 2, 0),
    (Op2::Shr, 2, 3, 1, 1),
    (Op2::Shr, 2, 3, 3, 0),
    (Op2::Add, 31, 0x7fff_ffff, 1, 0),
    (Op2::Sub, 31, 0, 1, 0x7fff_ffff),
    (Op2::Mul, 31, 0x4000_0000, 2, 0),
    (Op2::Shl, 31, 1, 30, 0x4000_0000),
    (Op2::Shl, 31, 1, 31, 0),
    (Op2::Shr, 31, 0x7fff_ffff, 30, 1),
    (Op2::Lt, 31, 0x7fff_ffff, 0, 0),
    (Op2::Add, 32, 0xffff_ffff, 2, 1),
    (Op2::Sub, 32, 1, 2, 0xffff_ffff),
    (Op2::Mul, 32, 0x1_0001, 0x1_0000, 0x1_0000),
    (Op2::Shl, 32, 1, 31, 0x8000_0000),
    (Op2::Shl, 32, 1, 32, 0),
    (Op2::Shr, 32, 0x8000_0000, 31, 1),
    (Op2::Shr, 32, 0x8000_0000, 32, 0),
    (Op2::Add, 33, 0x1_ffff_ffff, 1, 0),
    (Op2::Sub, 33, 0, 1, 0x1_ffff_ffff),
    (Op2::Mul, 33, 0x1_ffff_ffff, 2, 0x1_ffff_fffe),
    (Op2::Shl, 33, 1, 32, 0x1_0000_0000),
    (Op2::Shr, 33, 0x1_0000_0000, 33, 0),
    (Op2::Add, 64, ALL_64, ALL_64, 0xffff_ffff_ffff_fffe),
    (Op2::Sub, 64, 0, ALL_64, 1),
    (Op2::Mul, 64, ALL_64, ALL_64, 1),
    (Op2::Shl, 64, 1, 64, 0),
    (Op2::Shr, 64, ALL_64, 63, 1),
    (Op2::Add, 127, ALL_127, 1, 0),
    (Op2::Sub, 127, 0, 1, ALL_127),
    (Op2::Mul, 127, ALL_127, ALL_127, 1),
    (Op2::Shl, 127, 1, 127, 0),
    (Op2::Shr, 127, ALL_127, 126, 1),
    (Op2::Add, 128, ALL_128, 2, 1),
    (Op2::Sub, 128, 0, 1, ALL_128),
    (Op2::Mul, 128, ALL_128, ALL_128, 1),
    (Op2::And, 128, ALL_128, 0xf0, 0xf0),
    (Op2::Or, 128, ALL_127, 1, ALL_127),
    (
        Op2::Xor,
        128,
        ALL_128,
        ALL_127,
        0x8000_0000_0000_0000_0000_0000_0000_0000,
    ),
    (Op2::Eq, 128, ALL_128, ALL_127, 0),
    (Op2::Lt, 128, ALL_127, ALL_128, 1),
    (
        Op2::Shl,
        128,
        1,
        127,
        0x8000_0000_0000_0000_0000_0000_0000_0000,
    ),
    (Op2::Shl, 128, ALL_128, 128, 0),
    (Op2::Shr, 128, ALL_128, 128, 0),
];

#[test]
fn operators_of_two(rt: HostRuntime) -> Result<(), Fail> {
    for (op, width, a, b, want) in TWOS {
        assert!(rt; width > 0 && width <= 128);
        let got = two(rt.alloc(), op, width, a, b)?;
        let want_width = if matches!(op, Op2::Eq | Op2::Lt) {
            1
        } else {
            width
        };
        assert_eq!(rt; got, Bits::new(want_width, want), "{op:?} at {width}");
    }
    Ok(())
}

/// A number with another after it, and the part that the first was.
fn joined(alloc: Global, high: Bits, low: Bits) -> Result<(Bits, Bits), NoMemory>
    requires { high.width + low.width ≤ 128 }
{
    let width = high.width() + low.width();
    let joined = Expr::join(
        alloc,
        Expr::constant(alloc, high)?,
        Expr::constant(alloc, low)?,
    )?;
    let value = joined.eval(&[]);
    let part = Expr::part(alloc, joined, width - 1, low.width())?;
    Ok((value, part.eval(&[])))
}

const JOINS: [(u8, u128, u8, u128, u128); 6] = [
    (1, 1, 1, 0, 2),
    (2, 1, 31, 0x7fff_ffff, 0xffff_ffff),
    (31, 1, 33, 0, 0x2_0000_0000),
    (32, 0x8000_0000, 32, 1, 0x8000_0000_0000_0001),
    (64, ALL_64, 64, 1, 0xffff_ffff_ffff_ffff_0000_0000_0000_0001),
    (1, 1, 127, 5, 0x8000_0000_0000_0000_0000_0000_0000_0005),
];

#[test]
fn joins_and_parts(rt: HostRuntime) -> Result<(), Fail> {
    for (width, high, below, low, want) in JOINS {
        assert!(rt; width > 0 && width <= 127 && below > 0 && below <= 128 - width);
        let high = Bits::new(width, high);
        let (value, part) = joined(rt.alloc(), high, Bits::new(below, low))?;
        assert_eq!(rt;
            value,
            Bits::new(width + below, want),
            "at {width} and {below}"
        );
        assert_eq!(rt; part, high, "the part at {width} and {below}");
    }
    Ok(())
}

/// A constant in another width.
fn resized(alloc: Global, from: u8, value: u128, width: u8) -> Result<Bits, NoMemory>
    requires low { 0 < from }
    requires high { from ≤ 128 }
    requires to_low { 0 < width }
    requires to_high { width ≤ 128 }
{
    Ok(Expr::resize(alloc, number(alloc, from, value)?, width)?.eval(&[]))
}

/// Copies of a constant.
fn repeated(alloc: Global, width: u8, value: u128, count: u8) -> Result<Bits, NoMemory>
    requires low { 0 < width }
    requires some { 0 < count }
    requires high { width * count ≤ 128 }
{
    Ok(Expr::repeat(alloc, number(alloc, width, value)?, count)?.eval(&[]))
}

const RESIZED: [(u8, u128, u8, u128); 7] = [
    (1, 1, 2, 1),
    (2, 2, 1, 0),
    (31, 0x4000_0000, 32, 0x4000_0000),
    (33, 0x1_8000_0001, 32, 0x8000_0001),
    (64, ALL_64, 128, ALL_64),
    (127, ALL_127, 128, ALL_127),
    (128, ALL_128, 127, ALL_127),
];

const REPEATED: [(u8, u128, u8, u128); 6] = [
    (1, 1, 128, ALL_128),
    (2, 2, 3, 0x2a),
    (31, 1, 2, 0x8000_0001),
    (
        32,
        0x8000_0001,
        4,
        0x8000_0001_8000_0001_8000_0001_8000_0001,
    ),
    (64, 1, 2, 0x1_0000_0000_0000_0001),
    (127, 5, 1, 5),
];

#[test]
fn widths_and_copies(rt: HostRuntime) -> Result<(), Fail> {
    for (from, value, width, want) in RESIZED {
        assert!(rt; from > 0 && from <= 128 && width > 0 && width <= 128);
        let got = resized(rt.alloc(), from, value, width)?;
        assert_eq!(rt; got, Bits::new(width, want), "{from} to {width}");
    }
    Ok(())
}

#[test]
fn copies(rt: HostRuntime) -> Result<(), Fail> {
    for (width, value, count, want) in REPEATED {
        assert!(rt; width > 0 && width <= 128 && count > 0 && count <= 128 / width);
        let got = repeated(rt.alloc(), width, value, count)?;
        assert_eq!(rt; got.value(), want, "{count} of {width}");
    }
    Ok(())
}

const EDGES: [u8; 8] = [1, 2, 31, 32, 33, 64, 127, 128];

/// One of two constants, where the condition isn't 0.
fn chosen(alloc: Global, condition: u128, width: u8) -> Result<Bits, NoMemory>
    requires low { 0 < width }
    requires high { width ≤ 128 }
{
    let condition = number(alloc, 2, condition)?;
    let a = number(alloc, width, ALL_128)?;
    let b = number(alloc, width, 0)?;
    Ok(Expr::choose(alloc, condition, a, b)?.eval(&[]))
}

/// The entry of a number in a table of three: 0, 1 and the largest of the width.
fn looked_up(alloc: Global, index: u128, width: u8) -> Result<Bits, NoMemory>
    requires low { 0 < width }
    requires high { width ≤ 128 }
{
    let most = Bits::new(width, ALL_128).value();
    let entries = vec![in alloc; 0, 1, most]?;
    let index = number(alloc, 2, index)?;
    Ok(Expr::lookup(alloc, index, entries, width)?.eval(&[]))
}

/// One of two arms, 0 and the largest of the width.
#[tactic(auto, using(crate::proofs::Tables::two_arms))]
fn selected(alloc: Global, arm: u128, width: u8) -> Result<Bits, NoMemory>
    requires low { 0 < width }
    requires high { width ≤ 128 }
{
    let first = number(alloc, width, 0)?;
    let second = number(alloc, width, ALL_128)?;
    let arms = vec![in alloc; first, second]?;
    Ok(Expr::select(alloc, number(alloc, 1, arm)?, arms)?.eval(&[]))
}

#[test]
fn choices(rt: HostRuntime) -> Result<(), Fail> {
    let alloc = rt.alloc();
    for width in EDGES {
        assert!(rt; width > 0 && width <= 128);
        let none = Bits::new(width, 0);
        let all = Bits::new(width, ALL_128);
        assert_eq!(rt; chosen(alloc, 2, width)?, all);
        assert_eq!(rt; chosen(alloc, 0, width)?, none);
        assert_eq!(rt; looked_up(alloc, 1, width)?, Bits::new(width, 1));
        assert_eq!(rt; looked_up(alloc, 2, width)?, all);
        assert_eq!(rt; looked_up(alloc, 3, width)?, none);
        assert_eq!(rt; selected(alloc, 0, width)?, none);
        assert_eq!(rt; selected(alloc, 1, width)?, all);
    }
    Ok(())
}

/// The first input of an environment, and one that it hasn't.
#[test]
fn inputs_of_an_environment(rt: HostRuntime) -> Result<(), Fail> {
    for width in EDGES {
        assert!(rt; width > 0 && width <= 128);
        let held = Bits::new(width, ALL_127);
        let env = [held, Bits::new(1, 0)];
        let input = Expr::input(rt.alloc(), 0, width)?;
        assert_eq!(rt; input.width(), width);
        assert_eq!(rt; input.size(), 4);
        assert_eq!(rt; input.eval(&env), held);
        assert_eq!(rt;
            Expr::input(rt.alloc(), 2, width)?.eval(&env),
            Bits::new(width, 0)
        );
    }
    Ok(())
}

/// The product of two constants.
fn multiplied(alloc: Global, a: Bits, b: Bits, signed: u128) -> Result<Bits, NoMemory>
    requires { a.width + b.width ≤ 128 }
{
    let a = Expr::constant(alloc, a)?;
    let b = Expr::constant(alloc, b)?;
    Ok(Expr::mul(alloc, a, b, number(alloc, 1, signed)?)?.eval(&[]))
}

const HIGHEST_126: u128 = 0x4000_0000_0000_0000_0000_0000_0000_0000;

const PRODUCTS: [(u8, u128, u8, u128, u128, u128); 12] = [
    (1, 1, 1, 1, 1, 1),
    (1, 1, 1, 1, 0, 1),
    (2, 3, 2, 1, 1, 15),
    (2, 2, 2, 2, 1, 4),
    (31, 0x4000_0000, 33, 0x1_0000_0000, 1, 0x4000_0000_0000_0000),
    (32, 0xffff_ffff, 32, 2, 1, 0xffff_ffff_ffff_fffe),
    (32, 0xffff_ffff, 32, 2, 0, 0x1_ffff_fffe),
    (
        64,
        0x8000_0000_0000_0000,
        64,
        0x8000_0000_0000_0000,
        1,
        HIGHEST_126,
    ),
    (
        64,
        ALL_64,
        64,
        ALL_64,
        0,
        0xffff_ffff_ffff_fffe_0000_0000_0000_0001,
    ),
    (127, HIGHEST_126, 1, 1, 1, HIGHEST_126),
    (127, 1, 1, 1, 1, ALL_128),
    (1, 1, 127, ALL_127, 0, ALL_127),
];

#[test]
fn products(rt: HostRuntime) -> Result<(), Fail> {
    for (width, a, other, b, signed, want) in PRODUCTS {
        assert!(rt; width > 0 && width <= 127 && other > 0 && other <= 128 - width);
        let (a, b) = (Bits::new(width, a), Bits::new(other, b));
        let got = multiplied(rt.alloc(), a, b, signed)?;
        assert_eq!(rt; got, Bits::new(width + other, want), "{width} by {other}");
    }
    Ok(())
}

/// A constant with each bit turned, made by giving it to an expression over one input.
fn turned(alloc: Global, width: u8, value: u128) -> Result<Bits, NoMemory>
    requires low { 0 < width }
    requires high { width ≤ 128 }
{
    let input = Expr::input(alloc, 0, width)?;
    let over = Expr::one(alloc, Op1::Not, input)?.copy(alloc)?;
    let argument = number(alloc, width, value)?;
    let made = over.substitute(alloc, &[argument])?;
    Ok(made.eval(&[]))
}

#[test]
fn substitutions(rt: HostRuntime) -> Result<(), Fail> {
    for width in EDGES {
        assert!(rt; width > 0 && width <= 128);
        assert_eq!(rt; turned(rt.alloc(), width, 0)?, Bits::new(width, ALL_128));
        assert_eq!(rt; turned(rt.alloc(), width, ALL_128)?, Bits::new(width, 0));
    }
    Ok(())
}
