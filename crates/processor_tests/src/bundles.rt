//! Bundles of a small description, their bytes by hand.

ghost use Rattle.std.specs.Prelude.{◌≤◌, length};

use crate::machine::{COPIES, described};
use arrayvec::ArrayVec;
use std::test::Fail;
use tie_desc::{Bundle, Code, Desc, Part};
use tie_flix::{BundleFault, decode_bundle, encode_bundle, image};

fn copies(op: u8, fields: [u8; 3]) -> Part {
    Part {
        code: Code::Op(op),
        fields,
    }
}

fn parts(given: &[Part]) -> ArrayVec<Part, 4>
    requires { length given.now ≤ 4 }
{
    let mut parts = ArrayVec::new();
    for part in given {
        parts.push(*part);
    }
    parts
}

// Whether these parts are encoded as these bytes, and the bytes decoded as a bundle of that format and length.
fn is_spelled(desc: &Desc, format: u8, given: &[Part], bytes: &[u8]) -> bool
    requires { length given.now ≤ 4 }
{
    if format as usize >= desc.formats.len() {
        return false;
    }
    let bundle = Bundle::Wide {
        format,
        parts: parts(given),
    };
    let encoded = match encode_bundle(desc, &bundle) {
        Ok(encoded) => encoded.as_slice() == bytes,
        Err(_) => false,
    };
    let decoded = match decode_bundle(desc, bytes) {
        Some(fetched) => {
            fetched.length as usize == bytes.len()
                && matches!(fetched.bundle, Bundle::Wide { format: found, .. } if found == format)
        }
        None => false,
    };
    encoded && decoded
}

// The fault of these parts in the format 0.
fn fault(desc: &Desc, given: &[Part]) -> Option<BundleFault>
    requires { length given.now ≤ 4 }
{
    if desc.formats.len() == 0 {
        return None;
    }
    let bundle = Bundle::Wide {
        format: 0,
        parts: parts(given),
    };
    encode_bundle(desc, &bundle).err()
}

#[test]
fn wide_bundles(rt: HostRuntime) -> Result<(), Fail> {
    let desc = described(rt.alloc(), COPIES)?;
    let both = [copies(0, [2, 3, 0]), copies(1, [3, 2, 0])];
    assert!(rt; is_spelled(&desc, 0, &both, &[0x0E, 0x32, 0x23, 0]));
    let one = [copies(1, [3, 2, 0])];
    assert!(rt; is_spelled(&desc, 1, &one, &[0x0F, 0x23, 0, 0, 0, 0, 0, 0]));
    Ok(())
}

#[test]
fn faults(rt: HostRuntime) -> Result<(), Fail> {
    let desc = described(rt.alloc(), COPIES)?;
    let short = [copies(0, [2, 3, 0])];
    assert_eq!(rt; fault(&desc, &short), Some(BundleFault::SlotCount));
    let unlisted = [copies(0, [2, 3, 0]), copies(0, [3, 2, 0])];
    assert_eq!(rt;
        fault(&desc, &unlisted),
        Some(BundleFault::NotListed { slot: 1 })
    );
    let unfit = [copies(0, [2, 3, 1]), copies(1, [3, 2, 0])];
    assert_eq!(rt; fault(&desc, &unfit), Some(BundleFault::Field { slot: 0 }));
    let twice = [copies(0, [2, 3, 0]), copies(1, [2, 3, 0])];
    assert_eq!(rt;
        fault(&desc, &twice),
        Some(BundleFault::SameDest { slot: 1 })
    );
    Ok(())
}

#[test]
fn no_bundles(rt: HostRuntime) -> Result<(), Fail> {
    let desc = described(rt.alloc(), COPIES)?;
    for bytes in [
        [0x0E, 0x32, 0x23, 1].as_slice(),
        &[0x1E, 0x32, 0x23, 0],
        &[0x0E, 0x32, 0x32, 0],
        &[0x0E, 0x32, 0x23],
        &[0x20, 0x32, 0x06],
        &[0x00, 0x32, 0x26],
    ] {
        assert!(rt; decode_bundle(&desc, bytes).is_none());
    }
    Ok(())
}

#[test]
fn a_text(rt: HostRuntime) -> Result<(), Fail> {
    let desc = described(rt.alloc(), COPIES)?;
    let text = [0x22, 0xA0, 0x05, 0x00, 0x32, 0x16, 0x0E, 0x32, 0x23, 0x00];
    let image = image(rt.alloc(), &desc, &text)?;
    assert_eq!(rt; image.at.len(), 10);
    for (place, length) in [(0, 3), (3, 3), (6, 4)] {
        match image.at.get(place).ok_or("a place")? {
            Some(fetched) => assert_eq!(rt; fetched.length, length),
            None => return Err("a bundle".into()),
        }
    }
    assert!(rt; image.at.get(9).ok_or("a place")?.is_none());
    Ok(())
}
