//! Texts with their trees, or with their first fault.

ghost use Rattle.std.specs.Prelude.{◌≤◌, length};

use crate::shown::Shown;
use std::alloc::{AllocError, Global};
use std::test::Fail;
use tie_ast::{ParseRefusal, parse};
use tie_lexer::lex;

/// What `parse` answers: the declarations with a blank after each, or `$` and the place of the fault.
fn answer(alloc: Global, text: &[u8], places: bool) -> Result<Vec<u8>, AllocError>
    requires { length text.now ≤ 1048576 }
{
    let mut shown = Shown {
        out: Vec::new(alloc),
        places,
        alloc,
    };
    if let Ok(tokens) = lex(alloc, text) {
        match parse(alloc, text, tokens.as_slice()) {
            Ok(tree) => {
                for decl in tree.declarations.as_slice() {
                    shown.decl(decl)?;
                    shown.text(b" ")?;
                }
            }
            Err(ParseRefusal::Fault { place }) => {
                let fault = format!(in alloc; "${}", place)?;
                shown.text(fault.as_bytes())?;
            }
            Err(ParseRefusal::NoMemory) => shown.text(b"no memory")?,
        }
    }
    let Shown { out, .. } = shown;
    Ok(out)
}

#[test]
fn trees(rt: HostRuntime) -> Result<(), Fail> {
    let table: [(&[u8], &[u8]); 34] = [
        (b"", b""),
        (b"state A 8", b"state A 8 "),
        (
            b"state A 8 5 state B 0x10 8'hFF",
            b"state A 8 5 state B 0x10 '8'hFF ",
        ),
        (b"regfile F 32 16 f", b"regfile F 32 16 f "),
        (b"queue Q 8 in queue R 9 out", b"pops Q 8 pushes R 9 "),
        (b"table t 8 2 {1,8'd2}", b"table t 8 2{1,'8'd2,} "),
        (
            b"immediate_range r -8 7 1 immediate_range s 0 -0 2",
            b"immediate_range r -8 7 1 immediate_range s 0 -0 2 ",
        ),
        (
            b"function f () {} function [7:0] g (a, [3:0] b) { assign g = a; }",
            b"function f(){} function [7:0]g(a,[3:0]b,){g=a;} ",
        ),
        (b"operation o {} {} {}", b"operation o{}{}{} "),
        (
            b"operation o {in AR a, out F b, inout r c} {inout A, in Q, out R} {wire x; wire [1:0] y; wire z = 1; wire [0:0] w = x; assign b = y;}",
            b"operation o{in AR a,out F b,inout r c,}{inout A,in Q,out R,}{wire x;wire [1:0]y;wire z=1;wire [0:0]w=x;b=y;} ",
        ),
        (
            b"schedule s {o, p} {use a, b Estage; def c Mstage;} schedule q {o} {}",
            b"schedule s{o,p,}{use a,b,E;def c,M;} schedule q{o,}{} ",
        ),
        (
            b"format f 64 {a, b} slot_opcodes a {ADD, o} format g 32 {c}",
            b"format f 64{a,b,} slot_opcodes a{ADD,o,} format g 32{c,} ",
        ),
        (
            b"function f () { assign f = a - b - c; }",
            b"function f(){f=((a-b)-c);} ",
        ),
        (
            b"function f () { assign f = a + b * c - d; }",
            b"function f(){f=((a+(b*c))-d);} ",
        ),
        (
            b"function f () { assign f = a || b && c | d ^ e & f == g < h << i + j * k; }",
            b"function f(){f=(a||(b&&(c|(d^(e&(f==(g<(h<<(i+(j*k))))))))));} ",
        ),
        (
            b"function f () { assign f = a * b + c << d < e == f & g ^ h | i && j || k; }",
            b"function f(){f=((((((((((a*b)+c)<<d)<e)==f)&g)^h)|i)&&j)||k);} ",
        ),
        (
            b"function f () { assign f = a != b == c; }",
            b"function f(){f=((a!=b)==c);} ",
        ),
        (
            b"function f () { assign f = a <= b > c >= d < e; }",
            b"function f(){f=((((a<=b)>c)>=d)<e);} ",
        ),
        (
            b"function f () { assign f = a >> b << c; }",
            b"function f(){f=((a>>b)<<c);} ",
        ),
        (
            b"function f () { assign f = a & b & c | d; }",
            b"function f(){f=(((a&b)&c)|d);} ",
        ),
        (
            b"function f () { assign f = a ? b : c ? d : e; }",
            b"function f(){f=(a?b:(c?d:e));} ",
        ),
        (
            b"function f () { assign f = a ? b ? c : d : e; }",
            b"function f(){f=(a?(b?c:d):e);} ",
        ),
        (
            b"function f () { assign f = a || b ? c + 1 : d; }",
            b"function f(){f=((a||b)?(c+1):d);} ",
        ),
        (
            b"function f () { assign f = (a ? b : c) + d; }",
            b"function f(){f=(<(a?b:c)>+d);} ",
        ),
        (
            b"function f () { assign f = (a - (b - c)); }",
            b"function f(){f=<(a-<(b-c)>)>;} ",
        ),
        (
            b"function f () { assign f = ~ a + ! b; }",
            b"function f(){f=((~a)+(!b));} ",
        ),
        (
            b"function f () { assign f = & a & | b | ^ c ^ ~ ! d; }",
            b"function f(){f=(((&a)&(|b))|((^c)^(~(!d))));} ",
        ),
        (
            b"function f () { assign f = 8'hF * 3; }",
            b"function f(){f=('8'hF*3);} ",
        ),
        (
            b"function f () { assign f = x[7:0] + x[3] + t[i + 1]; }",
            b"function f(){f=((x[7:0]+x[3])+t[(i+1)]);} ",
        ),
        (
            b"function f () { assign f = t[(5)] + t[5 + 0] + t[8'd5]; }",
            b"function f(){f=((t[<5>]+t[(5+0)])+t['8'd5]);} ",
        ),
        (
            b"function f () { assign f = f() + g(a) + h(a, b ? c : d); }",
            b"function f(){f=((f()+g(a,))+h(a,(b?c:d),));} ",
        ),
        (
            b"function f () { assign f = TIEadd(a, b, c) + TIEmul(a, b, 1) + TIEmux(s, a, b); }",
            b"function f(){f=((add(a,b,c,)+mul(a,b,1,))+mux(s,a,b,));} ",
        ),
        (
            b"function f () { assign f = {a} + {a, 5, {b, c}}; }",
            b"function f(){f=({a,}+{a,5,{b,c,},});} ",
        ),
        (
            b"function f () { assign f = {5{a}} + {5} + {5, b} + {3{{2{x[1:0]}}}}; }",
            b"function f(){f=((({5*a}+{5,})+{5,b,})+{3*{2*x[1:0]}});} ",
        ),
    ];
    for (text, want) in table {
        assert!(rt; text.len() <= 1048576);
        let got = answer(rt.alloc(), text, false)?;
        assert_eq!(rt; got.as_slice(), want);
    }
    Ok(())
}

#[test]
fn places(rt: HostRuntime) -> Result<(), Fail> {
    let table: [(&[u8], &[u8]); 8] = [
        (b"state A 8 5", b"state A@6 8@8 5@10 "),
        (
            b"table t 8 1 { 8'd2 }",
            b"table t@6 8@8 1@10{@12'8'd2@14,} ",
        ),
        (
            b"immediate_range r -8 7 1",
            b"immediate_range r@16 -@188@19 7@21 1@23 ",
        ),
        (
            b"function [7:0] g ( a ) { assign g = f ( a ) ; }",
            b"function [7@10:0@12]g@15(@17a@19,){@23g@32=f@36(@38a@40,);} ",
        ),
        (
            b"operation o {in AR a}{out A}{wire w = {2{~x}};}",
            b"operation o@10{@12in AR@16 a@19,}{@21out A@26,}{@28wire w@34={@382@39*@40(~@41x@42)};} ",
        ),
        (
            b"schedule s{o}{use a Mstage;}",
            b"schedule s@9{@10o@11,}{@13use a@18,M@20;} ",
        ),
        (
            b"format f 64{a} slot_opcodes a{o}",
            b"format f@7 64@9{@11a@12,} slot_opcodes a@28{@29o@30,} ",
        ),
        (
            b"function f(){assign f=(a&b)+TIEadd(1,{c});}",
            b"function f@9(@10){@12f@20=(<@22(a@23&@24b@25)>+@27add@28(@341@35,{@37c@38,},));} ",
        ),
    ];
    for (text, want) in table {
        assert!(rt; text.len() <= 1048576);
        let got = answer(rt.alloc(), text, true)?;
        assert_eq!(rt; got.as_slice(), want);
    }
    Ok(())
}

/// The text without its `$`, and what `answer` says of a fault there.
fn marked(alloc: Global, marked: &[u8]) -> Result<(Vec<u8>, Vec<u8>), AllocError> {
    let mut text = Vec::new(alloc);
    let mut want = Vec::new(alloc);
    for byte in marked {
        if *byte == b'$' {
            let fault = format!(in alloc; "${}", text.len())?;
            want.extend_from_slice(fault.as_bytes())?;
        } else {
            text.push(*byte)?;
        }
    }
    Ok((text, want))
}

/// In each row a `$` is where the fault is.
#[test]
fn faults(rt: HostRuntime) -> Result<(), Fail> {
    let table: [&[u8]; 127] = [
        b"$x",
        b"state $",
        b"state A $",
        b"state A 8 8'd1 $8'd1",
        b"state $state 8",
        b"state A $A",
        b"$5",
        b"$in",
        b"state A 8 $;",
        b"regfile F 8 4 $4",
        b"regfile F 8 4 $",
        b"regfile $8",
        b"queue Q 8 $",
        b"queue Q 8 $inout",
        b"queue Q $in",
        b"queue $in 8",
        b"table t 8 2 {$}",
        b"table t 8 2 {1,$}",
        b"table t 8 2 {1 $2}",
        b"table t 8 2 {$a}",
        b"table t 8 2 $(",
        b"table t 8 $8'd2 {1}",
        b"immediate_range r $+ 1",
        b"immediate_range r - $- 1",
        b"immediate_range r 1 2 $-3",
        b"immediate_range r 1 2 $",
        b"immediate_range r 1 $8'd2",
        b"function $(",
        b"function f ($8)",
        b"function f (a $b)",
        b"function f (a,$)",
        b"function f (a) $;",
        b"function [$a:0] f () {}",
        b"function [7:$1] f () {}",
        b"function [7:$00] f () {}",
        b"function [7:$0x0] f () {}",
        b"function [7 $] f () {}",
        b"function f ([7:0] $) {}",
        b"function f () {$",
        b"function f () { $f = a; }",
        b"function f () { assign f = a; } $}",
        b"operation o $(",
        b"operation o {$AR a} {} {}",
        b"operation o {in AR $} {} {}",
        b"operation o {in $in} {} {}",
        b"operation o {in AR a,$} {} {}",
        b"operation o {in AR a} {in A $b} {}",
        b"operation o {} {in A,$} {}",
        b"operation o {} {} $",
        b"operation o {} {$wire} {}",
        b"operation o {} {} { wire $; }",
        b"operation o {} {} { wire [1:0] $= 1; }",
        b"operation o {} {} { wire x $+ 1; }",
        b"operation o {} {} { wire x = $; }",
        b"operation o {} {} { assign $[1:0] x = 1; }",
        b"operation o {} {} { assign x $; }",
        b"operation o {} {} { assign x = 1 $}",
        b"operation o {} {} { wire x $, y; }",
        b"operation o {} {} { assign $wire = 1; }",
        b"schedule s {$} {}",
        b"schedule s {o} {use $Estage;}",
        b"schedule s {o} {use a, $Estage;}",
        b"schedule s {o} {use a $b; }",
        b"schedule s {o} {def a Estage $}",
        b"schedule s {o} {$o}",
        b"schedule s {o} {use a $;}",
        b"schedule s {o} $schedule",
        b"format f 64 {$}",
        b"format f $a {a}",
        b"format f 64 {a $b}",
        b"format f 64 {a} $,",
        b"slot_opcodes a {$}",
        b"slot_opcodes a {ADD,$}",
        b"slot_opcodes $64 {a}",
        b"function f () { assign f = $",
        b"function f () { assign f = $;",
        b"function f () { assign f = a + $;",
        b"function f () { assign f = a $b;",
        b"function f () { assign f = a + $* b;",
        b"function f () { assign f = $* a;",
        b"function f () { assign f = $== a;",
        b"function f () { assign f = a ? $: b;",
        b"function f () { assign f = a ? b $;",
        b"function f () { assign f = a ? b : $;",
        b"function f () { assign f = $? a : b;",
        b"function f () { assign f = ~ $;",
        b"function f () { assign f = ! $);",
        b"function f () { assign f = a & & b | | $;",
        b"function f () { assign f = ($);",
        b"function f () { assign f = (a $;",
        b"function f () { assign f = (a $, b);",
        b"function f () { assign f = x[$];",
        b"function f () { assign f = x[7:$];",
        b"function f () { assign f = x[7:$a];",
        b"function f () { assign f = x[7:0 $;",
        b"function f () { assign f = x[a $:0];",
        b"function f () { assign f = x[(7) $:0];",
        b"function f () { assign f = x[7 + 1 $:0];",
        b"function f () { assign f = x[7 $,1];",
        b"function f () { assign f = x[8'd7 $:0];",
        b"function f () { assign f = x[7:0] $[0];",
        b"function f () { assign f = f(a,$);",
        b"function f () { assign f = f(a $;",
        b"function f () { assign f = f($,);",
        b"function f () { assign f = f() $(a);",
        b"function f () { assign f = TIEadd($);",
        b"function f () { assign f = TIEmul $a;",
        b"function f () { assign f = TIEmux(a,$);",
        b"function f () { assign f = TIEadd(a $;",
        b"function f () { assign f = 1 $(a);",
        b"function f () { assign f = 8'd1 $[0];",
        b"function f () { assign f = {$};",
        b"function f () { assign f = {a,$};",
        b"function f () { assign f = {a $;",
        b"function f () { assign f = {2{$}};",
        b"function f () { assign f = {2{a}$;",
        b"function f () { assign f = {2{a} $, b};",
        b"function f () { assign f = {a ${b}};",
        b"function f () { assign f = {(2) ${b}};",
        b"function f () { assign f = {2{a $, b}};",
        b"function f () { assign f = {2 + 1 ${b}};",
        b"function f () { assign f = $Estage;",
        b"function f () { assign f = $in;",
        b"function f () { assign f = $wire;",
        b"function f () { assign f = a $= b;",
        b"function f () { assign f = $- 1;",
        b"function f () { assign f = $+ 1;",
    ];
    for row in table {
        let (text, want) = marked(rt.alloc(), row)?;
        assert!(rt; text.len() <= 1048576);
        let got = answer(rt.alloc(), text.as_slice(), false)?;
        assert_eq!(rt; got.as_slice(), want.as_slice());
    }
    Ok(())
}

/// As many copies as are wanted, between a beginning and an end.
fn repeated(
    alloc: Global,
    before: &[u8],
    part: &[u8],
    count: u32,
    after: &[u8],
) -> Result<Vec<u8>, AllocError> {
    let mut text = Vec::new(alloc);
    text.extend_from_slice(before)?;
    for _ in 0..count {
        text.extend_from_slice(part)?;
    }
    text.extend_from_slice(after)?;
    Ok(text)
}

/// An expression of 1,024 tokens is read and one of 1,025 is not, however deep and long the text is.
#[test]
fn limits(rt: HostRuntime) -> Result<(), Fail> {
    let begin = b"function f(){assign f=".as_slice();
    let table: [(&[u8], &[u8], u32, &[u8], &[u8]); 12] = [
        (begin, b"~", 1024, b"a;}", b"$1046"),
        (begin, b"a+", 512, b"a;}", b"$1046"),
        (begin, b"a ", 1, b"?b:c;}", b"function f(){f=(a?b:c);} "),
        (begin, b"(", 20000, b"", b"$1046"),
        (begin, b"{", 20000, b"", b"$1046"),
        (begin, b"{2{", 10000, b"", b"$1046"),
        (begin, b"(", 1024, b")", b"$1046"),
        (begin, b"(", 1023, b"", b"$1045"),
        (b"", b"(", 20000, b"", b"$0"),
        (b"", b"{", 1048576, b"", b"$0"),
        (b"table t 8 2 {1", b",1", 20000, b"}}", b"$40015"),
        (b"", b"state A 1 ", 10000, b"state A", b"$100007"),
    ];
    for (before, part, count, after, want) in table {
        let text = repeated(rt.alloc(), before, part, count, after)?;
        assert!(rt; text.len() <= 1048576);
        let got = answer(rt.alloc(), text.as_slice(), false)?;
        assert_eq!(rt; got.as_slice(), want);
    }
    let deepest = repeated(rt.alloc(), begin, b"~", 1023, b"a;}")?;
    assert!(rt; deepest.len() <= 1048576);
    let tokens = lex(rt.alloc(), deepest.as_slice()).ok().ok_or("tokens")?;
    let tree = parse(rt.alloc(), deepest.as_slice(), tokens.as_slice())
        .ok()
        .ok_or("tree")?;
    assert_eq!(rt; tree.declarations.len(), 1);
    Ok(())
}

/// A million brackets are refused where an expression has too many tokens, and where the grammar has none.
#[test]
fn millions(rt: HostRuntime) -> Result<(), Fail> {
    let table: [(&[u8], &[u8], &[u8]); 2] = [
        (b"function f(){assign f=", b"(", b"$1046"),
        (b"", b"{", b"$0"),
    ];
    for (before, part, want) in table {
        let text = repeated(rt.alloc(), before, part, 1000000, b"")?;
        assert!(rt; text.len() <= 1048576);
        let got = answer(rt.alloc(), text.as_slice(), false)?;
        assert_eq!(rt; got.as_slice(), want);
    }
    Ok(())
}
