//! Texts with their tokens, or with their first fault and its place.

ghost use Rattle.std.specs.Prelude.{◌≤◌, length};

use std::alloc::{AllocError, Global};
use std::test::Fail;
use tie_lexer::{LexRefusal, LexRule, TokenKind, lex};

/// The letters of the kinds with start and end, or the rule and the place.
fn shown(alloc: Global, text: &[u8]) -> Result<String, AllocError>
    requires { length text.now ≤ 1048576 }
{
    match lex(alloc, text) {
        Ok(found) => {
            let mut all = String::new(alloc);
            for token in &found {
                let kind = match token.kind {
                    TokenKind::Word => "w",
                    TokenKind::Number => "n",
                    TokenKind::Sized => "s",
                    TokenKind::Mark => "m",
                };
                let one = format!(in alloc; "{}{}-{} ", kind, token.start, token.end)?;
                all.push_str(&one)?;
            }
            Ok(all)
        }
        Err(LexRefusal::Fault { rule, place }) => {
            let name = match rule {
                LexRule::BadByte => "BadByte",
                LexRule::OpenComment => "OpenComment",
                LexRule::BadLiteral => "BadLiteral",
            };
            format!(in alloc; "{} {}", name, place)
        }
        Err(LexRefusal::NoMemory) => String::from_str(alloc, "NoMemory"),
    }
}

#[test]
fn texts(rt: HostRuntime) -> Result<(), Fail> {
    let table: [(&[u8], &str); 65] = [
        (b"", ""),
        (b" \t\r\n", ""),
        (b"operation ADD_1 {}", "w0-9 w10-15 m16-17 m17-18 "),
        (b"a", "w0-1 "),
        (b"_a", "BadByte 0"),
        (b"abcdefghijklmnopqrstuvwxyz012345", "w0-32 "),
        (b" abcdefghijklmnopqrstuvwxyz0123456", "BadLiteral 1"),
        (b"007", "n0-3 "),
        (b"123456789012345678901234567890123456789", "n0-39 "),
        (b"1234567890123456789012345678901234567890", "BadLiteral 0"),
        (b"12ab", "n0-2 w2-4 "),
        (b"0xaF9g", "n0-5 w5-6 "),
        (b"0x0123456789abcdefABCDEF0123456789", "n0-34 "),
        (b"0x0123456789abcdefABCDEF0123456789a", "BadLiteral 0"),
        (b"1 0x", "BadLiteral 2"),
        (b"0xg", "BadLiteral 0"),
        (b"0X1", "n0-1 w1-3 "),
        (b"00x1", "n0-2 w2-4 "),
        (b"8'hfF_0", "s0-7 "),
        (b"8'd1F", "s0-4 w4-5 "),
        (b"4'b01_2", "s0-6 n6-7 "),
        (b"8'", "BadLiteral 0"),
        (b"x 8'", "BadLiteral 2"),
        (b"8'h", "BadLiteral 0"),
        (b"8'o7", "BadLiteral 0"),
        (b"8'H7", "BadLiteral 0"),
        (b"8'h_7", "BadLiteral 0"),
        (b"8'd_", "BadLiteral 0"),
        (b"8'b2", "BadLiteral 0"),
        (b"8' h7", "BadLiteral 0"),
        (b"8 'h7", "BadByte 2"),
        (b"'h7", "BadByte 0"),
        (b"0x1'h7", "BadByte 3"),
        (b"1234567890123456789012345678901234567890'd1", "s0-43 "),
        (
            b"8'h0123456789012345678901234567890123456789012345678901234567890",
            "s0-64 ",
        ),
        (
            b"8'h01234567890123456789012345678901234567890123456789012345678901",
            "BadLiteral 0",
        ),
        (
            b"8'b01010101010101010101010101010101010101010101010101010101010101",
            "s0-65 ",
        ),
        (
            b"{}()[],;:?",
            "m0-1 m1-2 m2-3 m3-4 m4-5 m5-6 m6-7 m7-8 m8-9 m9-10 ",
        ),
        (b"+-*^~!", "m0-1 m1-2 m2-3 m3-4 m4-5 m5-6 "),
        (b"= == != < <=", "m0-1 m2-4 m5-7 m8-9 m10-12 "),
        (
            b"> >= << >> & && | ||",
            "m0-1 m2-4 m5-7 m8-10 m11-12 m13-15 m16-17 m18-20 ",
        ),
        (b"<<==&&&", "m0-2 m2-4 m4-6 m6-7 "),
        (b"!==", "m0-2 m2-3 "),
        (b"a/b", "BadByte 1"),
        (b"/", "BadByte 0"),
        (b"a#b", "BadByte 1"),
        (b"a// b $ \x7e\nc", "w0-1 w10-11 "),
        (b"a//", "w0-1 "),
        (b"// \x7f\n\x80", "BadByte 3"),
        (b"\x00", "BadByte 0"),
        (b"ab\xff", "BadByte 2"),
        (b"/**/a/* x * / **/b", "w4-5 w17-18 "),
        (b"/*/", "OpenComment 0"),
        (b"a /*/ */b", "w0-1 w8-9 "),
        (b"a /* \x80 */ $", "BadByte 5"),
        (b"a /* \x80 ", "OpenComment 2"),
        (b"/* /* */ */", "BadByte 10"),
        (b"/*", "OpenComment 0"),
        (b"a<=b", "w0-1 m1-3 w3-4 "),
        (b"a< =b", "w0-1 m1-2 m3-4 w4-5 "),
        (b"8'b012", "s0-5 n5-6 "),
        (b"a_b", "w0-3 "),
        (b"a / b", "BadByte 2"),
        (b"/* a */ */", "BadByte 9"),
        (b"state A 8 8'hFF", "w0-5 w6-7 n8-9 s10-15 "),
    ];
    for (text, want) in table {
        assert!(rt; text.len() <= 1048576);
        let got = shown(rt.alloc(), text)?;
        assert_eq!(rt; got.as_str(), want);
    }
    Ok(())
}

/// As many copies of the bytes as are wanted.
fn copies(alloc: Global, bytes: &[u8], count: u32) -> Result<Vec<u8>, AllocError> {
    let mut text = Vec::new(alloc);
    for _ in 0..count {
        text.extend_from_slice(bytes)?;
    }
    Ok(text)
}

#[test]
fn million_bytes(rt: HostRuntime) -> Result<(), Fail> {
    let table: [(&[u8], u32, &str); 6] = [
        (b"/**/", 262144, ""),
        (b" /**/\n//*/\r\n", 87381, ""),
        (b"/* ", 349525, "OpenComment 0"),
        (b"7", 1048576, "BadLiteral 0"),
        (b"x", 1048576, "BadLiteral 0"),
        (b"\t", 1048576, ""),
    ];
    for (bytes, count, want) in table {
        let text = copies(rt.alloc(), bytes, count)?;
        assert!(rt; text.len() <= 1048576);
        let got = shown(rt.alloc(), &text)?;
        assert_eq!(rt; got.as_str(), want);
    }
    let brackets = copies(rt.alloc(), b"(", 1048576)?;
    assert!(rt; brackets.len() <= 1048576);
    let found = match lex(rt.alloc(), &brackets) {
        Ok(found) => found.len(),
        Err(_) => 0,
    };
    assert_eq!(rt; found, 1048576);
    Ok(())
}

#[test]
fn sized_of_200_bytes(rt: HostRuntime) -> Result<(), Fail> {
    let mut text = copies(rt.alloc(), b"8'b", 1)?;
    text.extend_from_slice(&copies(rt.alloc(), b"1", 197)?)?;
    assert!(rt; text.len() <= 1048576);
    let fits = shown(rt.alloc(), &text)?;
    assert_eq!(rt; fits.as_str(), "s0-200 ");
    text.push(b'_')?;
    assert!(rt; text.len() <= 1048576);
    let long = shown(rt.alloc(), &text)?;
    assert_eq!(rt; long.as_str(), "BadLiteral 0");
    Ok(())
}
