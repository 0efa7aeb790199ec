use super::done;
use std::test::Fail;
use xt_core::{Access, Action};

// What a load reads: the address, how many bytes, whether with their sign, and the register.
fn loaded(action: Option<Action>) -> Option<(u32, u8, bool, u8)> {
    match action?.access {
        Access::Load {
            address,
            bytes,
            signed,
            to,
        } => Some((address, bytes, signed, to)),
        _ => None,
    }
}

// What a store writes: the address, how many bytes, and of which value.
fn stored(action: Option<Action>) -> Option<(u32, u8, u32)> {
    match action?.access {
        Access::Store {
            address,
            bytes,
            value,
        } => Some((address, bytes, value)),
        _ => None,
    }
}

// Rows: a load of a4 at pc 8 from a2 and an offset, a2, the address, how many bytes, and whether with their sign.
#[test]
fn loads(rt: HostRuntime) -> Result<(), Fail> {
    let rows = [
        ([0x42, 0x02, 0x01], 3, 4, 1, false), // L8UI by 1
        ([0x42, 0x02, 0xFF], 0xFFFF_FF06, 5, 1, false), // L8UI by 255
        ([0x42, 0x12, 0x01], 4, 6, 2, false), // L16UI by 2
        ([0x42, 0x92, 0x01], 4, 6, 2, true), // L16SI by 2
        ([0x42, 0x22, 0x01], 0, 4, 4, false), // L32I by 4
        ([0x42, 0x22, 0xFF], 4, 1024, 4, false), // L32I by 1020
        ([0x41, 0xFF, 0xFF], 0, 4, 4, false), // L32R of the word before the pc
        ([0x41, 0x00, 0x00], 0, 0xFFFC_0008, 4, false), // L32R by -262144
    ];
    for (bytes, a2, address, count, signed) in rows {
        let load = loaded(done(bytes, 8, a2, 0, 0));
        assert_eq!(rt; load, Some((address, count, signed, 4)));
    }
    Ok(())
}

// Rows: a store of a3, 12345678, to a2 and an offset; a2, the address, and how many bytes.
#[test]
fn stores(rt: HostRuntime) -> Result<(), Fail> {
    let rows = [
        ([0x32, 0x42, 0x01], 7, 8, 1), // S8I by 1
        ([0x32, 0x52, 0x01], 8, 10, 2), // S16I by 2
        ([0x32, 0x62, 0x01], 4, 8, 4), // S32I by 4
        ([0x32, 0x62, 0xFF], 0xFFFF_FFFF, 1019, 4), // S32I by 1020
    ];
    for (bytes, a2, address, count) in rows {
        let store = stored(done(bytes, 0, a2, 0x1234_5678, 0));
        assert_eq!(rt; store, Some((address, count, 0x1234_5678)));
    }
    Ok(())
}

#[test]
fn nop_and_halt(rt: HostRuntime) -> Result<(), Fail> {
    for (bytes, halts) in [([0xF0, 0x20, 0x00], false), ([0x00, 0x51, 0x00], true)] {
        let action = done(bytes, 0, 0, 0, 0);
        let is_so = match action {
            Some(it) => it.halts == halts && it.write.is_none() && it.target.is_none(),
            None => false,
        };
        assert!(rt; is_so);
    }
    Ok(())
}
