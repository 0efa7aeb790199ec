//! Names, sequences, and what is asked of one small description.

use std::alloc::Global;
use std::test::Fail;
use tie_desc::{
    Code, Desc, Kind, Name, Sequence, SlotCore, args_of, format_named, input_named, kind_width,
    limit, links_of, op_named, output_named, range_value,
};
use tie_front::read_tie;

#[test]
fn names(rt: HostRuntime) -> Result<(), Fail> {
    let longest = b"abcdefghijklmnopqrstuvwxyz012345";
    for text in [b"a".as_slice(), b"A_1", longest] {
        let name = Name::new(text).ok_or("a word")?;
        assert!(rt; name.as_bytes() == text);
        assert!(rt; name.as_str().as_bytes() == text);
    }
    for text in [
        b"".as_slice(),
        b"_a",
        b"1a",
        b"a-b",
        b"abcdefghijklmnopqrstuvwxyz0123456",
    ] {
        assert!(rt; Name::new(text).is_none());
    }
    Ok(())
}

#[test]
fn sequences(rt: HostRuntime) -> Result<(), Fail> {
    let mut sequence = Sequence::new(rt.alloc());
    assert!(rt; sequence.is_empty());
    sequence.push(7u8)?;
    sequence.push(9)?;
    assert_eq!(rt; sequence.len(), 2);
    assert_eq!(rt; sequence.get(1).copied(), Some(9));
    assert_eq!(rt; sequence.get(2).copied(), None);
    let again = Sequence::from_vec(sequence.into_vec());
    assert_eq!(rt; again.as_slice(), [7, 9].as_slice());
    Ok(())
}

const EXAMPLE: &str = "state ACC 40 5 regfile VEC 64 4 v immediate_range EVEN -4 2 2 \
                       queue IN 32 in queue OUT 16 out \
                       operation MOVX {out AR d, in EVEN s} {inout ACC} {assign d = s; assign ACC = ACC;} \
                       format F 32 {f0} slot_opcodes f0 {MOVX, NOP}";

fn example(alloc: Global) -> Result<Desc, Fail> {
    let text = EXAMPLE.as_bytes();
    if text.len() > 1000 {
        return Err(Fail::from("too long"));
    }
    Ok(read_tie(alloc, text)?)
}

#[test]
fn kinds(rt: HostRuntime) -> Result<(), Fail> {
    let desc = example(rt.alloc())?;
    for (kind, width, numbers) in [
        (Kind::Ar, 32, 16),
        (Kind::File(0), 64, 4),
        (Kind::Range(0), 32, 4),
        (Kind::State(0), 40, 0),
        (Kind::InQueue(0), 32, 0),
        (Kind::OutQueue(0), 16, 0),
        (Kind::File(1), 0, 0),
    ] {
        assert_eq!(rt; kind_width(&desc, kind), width);
        assert_eq!(rt; limit(&desc, kind), numbers);
    }
    Ok(())
}

#[test]
fn codes(rt: HostRuntime) -> Result<(), Fail> {
    let desc = example(rt.alloc())?;
    assert_eq!(rt; args_of(&desc, Code::Op(0)).len(), 2);
    assert_eq!(rt; links_of(&desc, Code::Op(0)).len(), 1);
    assert_eq!(rt; args_of(&desc, Code::Core(SlotCore::Mull)).len(), 3);
    assert!(rt; limit(&desc, Kind::Range(0)) > 3);
    assert_eq!(rt; range_value(&desc, 0, 3), 2);
    Ok(())
}

#[test]
fn declared_names(rt: HostRuntime) -> Result<(), Fail> {
    let desc = example(rt.alloc())?;
    assert_eq!(rt; op_named(&desc, b"MOVX"), Some(0));
    assert_eq!(rt; op_named(&desc, b"movx"), None);
    assert_eq!(rt; format_named(&desc, b"F"), Some(0));
    assert_eq!(rt; input_named(&desc, b"IN"), Some(0));
    assert_eq!(rt; output_named(&desc, b"IN"), None);
    Ok(())
}
