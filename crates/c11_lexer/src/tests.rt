use crate::{LexFault, Token, TokenKind, lex};
use std::alloc::{AllocError, Global};
use std::process::Abort;
use std::test::Fail;

fn push_bytes(out: &mut String, bytes: &[u8]) -> Result<(), AllocError> {
    for byte in bytes {
        out.push(char::from(*byte))?;
    }
    Ok(())
}

// Its line and column, its slice, and its kind with the value.
fn push_token(out: &mut String, text: &[u8], token: &Token) -> Result<(), AllocError> {
    let line = token.line;
    let column = token.column;
    write!(out, "{line}:{column} ")?;
    let slice = text.get(token.start as usize..token.end as usize);
    push_bytes(out, slice.unwrap_or(b"no slice"))?;
    match &token.kind {
        TokenKind::Word => out.push_str(" word")?,
        TokenKind::Literal(value) => {
            let ctype = value.ctype();
            let number = u64::try_from(value.number()).unwrap_or(0);
            write!(out, " {ctype:?} {number}")?;
        }
        TokenKind::Text(bytes) => {
            out.push_str(" text ")?;
            push_bytes(out, bytes.as_slice())?;
        }
        TokenKind::Mark => out.push_str(" mark")?,
        TokenKind::Include => out.push_str(" include")?,
        TokenKind::Define => out.push_str(" define")?,
    }
    out.push_str("; ")
}

fn scanned(rt: &impl Abort, alloc: Global, text: &[u8]) -> Result<Vec<Token>, LexFault> {
    assert!(rt; text.len() <= 65536);
    lex(alloc, text)
}

fn shown(rt: &impl Abort, alloc: Global, text: &[u8]) -> Result<String, Fail> {
    let tokens = scanned(rt, alloc, text)?;
    let mut out = String::new(alloc);
    for token in tokens.as_slice() {
        push_token(&mut out, text, token)?;
    }
    Ok(out)
}

fn letters(alloc: Global, count: usize) -> Result<String, AllocError> {
    let mut word = String::new(alloc);
    for _ in 0..count {
        word.push('a')?;
    }
    Ok(word)
}

#[test]
fn tokens_are_taken_by_longest_match(rt: HostRuntime) -> Result<(), Fail> {
    let cases = [
        ("a+++b", "1:1 a word; 1:2 ++ mark; 1:4 + mark; 1:5 b word; "),
        (
            "x>>>=1",
            "1:1 x word; 1:2 >> mark; 1:4 >= mark; 1:6 1 Int 1; ",
        ),
        (
            "<<=>>=<<>>",
            "1:1 <<= mark; 1:4 >>= mark; 1:7 << mark; 1:9 >> mark; ",
        ),
        (
            "<=>===!=&&||",
            "1:1 <= mark; 1:3 >= mark; 1:5 == mark; 1:7 != mark; 1:9 && mark; 1:11 || mark; ",
        ),
        (
            "--+=-=*=/=%=",
            "1:1 -- mark; 1:3 += mark; 1:5 -= mark; 1:7 *= mark; 1:9 /= mark; 1:11 %= mark; ",
        ),
        (
            "&=|=^=~!",
            "1:1 &= mark; 1:3 |= mark; 1:5 ^= mark; 1:7 ~ mark; 1:8 ! mark; ",
        ),
        (
            "?:;,()[]{}",
            "1:1 ? mark; 1:2 : mark; 1:3 ; mark; 1:4 , mark; 1:5 ( mark; 1:6 ) mark; 1:7 [ mark; 1:8 ] mark; 1:9 { mark; 1:10 } mark; ",
        ),
        (
            "* / % & | ^ <>=",
            "1:1 * mark; 1:3 / mark; 1:5 % mark; 1:7 & mark; 1:9 | mark; 1:11 ^ mark; 1:13 < mark; 1:14 >= mark; ",
        ),
        ("_a1 int", "1:1 _a1 word; 1:5 int word; "),
        ("a/*x*/b/**/c", "1:1 a word; 1:7 b word; 1:12 c word; "),
        ("a/* \n * / */b", "1:1 a word; 2:8 b word; "),
        (
            "a//b\nc//*d\n*/e//f",
            "1:1 a word; 2:1 c word; 3:1 * mark; 3:2 / mark; 3:3 e word; ",
        ),
        ("a\r\n\x0c\x0bb\tc", "1:1 a word; 2:3 b word; 2:5 c word; "),
        ("", ""),
        (
            "\"a\\n\\t\\\\\\\"~ \"b",
            "1:1 \"a\\n\\t\\\\\\\"~ \" text a\n\t\\\"~ ; 1:14 b word; ",
        ),
        ("\"\"", "1:1 \"\" text ; "),
        ("#include <stdio.h>", "1:1 #include <stdio.h> include; "),
        (
            "#define A 1\r\n",
            "1:1 #define define; 1:9 A word; 1:11 1 Int 1; ",
        ),
        (
            "\t# include<threads.h>//x",
            "1:2 # include<threads.h> include; ",
        ),
        (
            "#/*a*/include/*b*/<assert.h>/*c*/ /*d*/",
            "1:1 #/*a*/include/*b*/<assert.h> include; ",
        ),
        (
            "#include <stdatomic.h>/*x\n*/#define A 1",
            "1:1 #include <stdatomic.h> include; 2:3 #define define; 2:11 A word; 2:13 1 Int 1; ",
        ),
        (
            "/*a*/#/*b*/define/*c*/A/*d*/1/*e*/",
            "1:6 #/*b*/define define; 1:23 A word; 1:29 1 Int 1; ",
        ),
        (
            "a /*\n*/ # define if 010 // x\nb",
            "1:1 a word; 2:4 # define define; 2:13 if word; 2:16 010 Int 8; 3:1 b word; ",
        ),
    ];
    for (text, want) in cases {
        assert_eq!(rt;
            shown(&rt, rt.alloc(), text.as_bytes())?.as_str(),
            want,
            "at {text}"
        );
    }
    Ok(())
}

#[test]
fn a_literal_has_the_first_type_that_holds_it(rt: HostRuntime) -> Result<(), Fail> {
    let cases = [
        ("0", "1:1 0 Int 0; "),
        ("2147483647", "1:1 2147483647 Int 2147483647; "),
        ("2147483648", "1:1 2147483648 Long 2147483648; "),
        ("4294967295", "1:1 4294967295 Long 4294967295; "),
        (
            "9223372036854775807",
            "1:1 9223372036854775807 Long 9223372036854775807; ",
        ),
        ("0x1F", "1:1 0x1F Int 31; "),
        ("0x7fffffff", "1:1 0x7fffffff Int 2147483647; "),
        ("0X80000000", "1:1 0X80000000 Unsigned 2147483648; "),
        ("0xFFFFFFFF", "1:1 0xFFFFFFFF Unsigned 4294967295; "),
        ("0x100000000", "1:1 0x100000000 Long 4294967296; "),
        (
            "0x7fffffffffffffff",
            "1:1 0x7fffffffffffffff Long 9223372036854775807; ",
        ),
        (
            "0x8000000000000000",
            "1:1 0x8000000000000000 ULong 9223372036854775808; ",
        ),
        ("017777777777", "1:1 017777777777 Int 2147483647; "),
        ("020000000000", "1:1 020000000000 Unsigned 2147483648; "),
        (
            "01777777777777777777777",
            "1:1 01777777777777777777777 ULong 18446744073709551615; ",
        ),
        ("0u", "1:1 0u Unsigned 0; "),
        ("4294967295U", "1:1 4294967295U Unsigned 4294967295; "),
        ("4294967296u", "1:1 4294967296u ULong 4294967296; "),
        ("1l", "1:1 1l Long 1; "),
        (
            "9223372036854775807L",
            "1:1 9223372036854775807L Long 9223372036854775807; ",
        ),
        ("0x1l", "1:1 0x1l Long 1; "),
        (
            "0x8000000000000000L",
            "1:1 0x8000000000000000L ULong 9223372036854775808; ",
        ),
        ("1ul", "1:1 1ul ULong 1; "),
        (
            "18446744073709551615Lu",
            "1:1 18446744073709551615Lu ULong 18446744073709551615; ",
        ),
    ];
    for (text, want) in cases {
        assert_eq!(rt;
            shown(&rt, rt.alloc(), text.as_bytes())?.as_str(),
            want,
            "at {text}"
        );
    }
    Ok(())
}

#[test]
fn the_first_fault_is_told_with_its_place(rt: HostRuntime) {
    let cases = [
        ("@ \"", LexFault::Byte(1, 1)),
        ("1.5", LexFault::Byte(1, 2)),
        ("a\n 'b'", LexFault::Byte(2, 2)),
        ("x #define A 1", LexFault::Byte(1, 3)),
        ("a\\", LexFault::Byte(1, 2)),
        ("\u{e9}", LexFault::Byte(1, 1)),
        ("08", LexFault::Literal(1, 1)),
        ("a 0x", LexFault::Literal(1, 3)),
        ("1uu", LexFault::Literal(1, 1)),
        ("1lul", LexFault::Literal(1, 1)),
        ("0b1", LexFault::Literal(1, 1)),
        ("1_", LexFault::Literal(1, 1)),
        ("9223372036854775808", LexFault::Literal(1, 1)),
        ("9223372036854775808l", LexFault::Literal(1, 1)),
        ("0x10000000000000000", LexFault::Literal(1, 1)),
        ("18446744073709551616u", LexFault::Literal(1, 1)),
        ("a \"b", LexFault::Literal(1, 3)),
        ("\"b\n\"", LexFault::Literal(1, 1)),
        ("\"\\q\"", LexFault::Literal(1, 1)),
        ("\"\t\"", LexFault::Literal(1, 1)),
        ("\"\u{e9}\"", LexFault::Literal(1, 1)),
        ("/* x", LexFault::Comment(1, 1)),
        ("a /*/", LexFault::Comment(1, 3)),
        ("#define A 1 /* x", LexFault::Comment(1, 13)),
        ("#define A 99999999999999999999", LexFault::Literal(1, 11)),
        ("#", LexFault::Directive(1, 1)),
        ("##", LexFault::Directive(1, 1)),
        (" #pragma once", LexFault::Directive(1, 2)),
        ("#define A 1 x", LexFault::Directive(1, 1)),
        ("#define A 1;", LexFault::Directive(1, 1)),
        ("#define A -1", LexFault::Directive(1, 1)),
        ("#define A", LexFault::Directive(1, 1)),
        ("#define SIZE1", LexFault::Directive(1, 1)),
        ("#define 1 1", LexFault::Directive(1, 1)),
        ("#define A 08", LexFault::Directive(1, 1)),
        ("#defineA 1", LexFault::Directive(1, 1)),
        ("#include <math.h>", LexFault::Directive(1, 1)),
        ("#include \"stdio.h\"", LexFault::Directive(1, 1)),
        ("#include < stdio.h>", LexFault::Directive(1, 1)),
        ("#include <stdio.h> x", LexFault::Directive(1, 1)),
        ("#include <stdio.h", LexFault::Directive(1, 1)),
        ("# /*\n*/ define A 1", LexFault::Directive(1, 1)),
        ("a\n 08", LexFault::Literal(2, 2)),
        ("a\n /*", LexFault::Comment(2, 2)),
        ("a\n #x", LexFault::Directive(2, 2)),
        ("a /**/ # define A 1", LexFault::Byte(1, 8)),
        ("\"\x7f\"", LexFault::Literal(1, 1)),
        ("#define A 18446744073709551616", LexFault::Literal(1, 11)),
        (
            "#define A 18446744073709551616 x",
            LexFault::Directive(1, 1),
        ),
    ];
    for (text, want) in cases {
        match scanned(&rt, rt.alloc(), text.as_bytes()) {
            Ok(_) => assert!(rt; false, "no fault at {text}"),
            Err(fault) => assert!(rt; fault == want, "{fault:?} at {text}"),
        }
    }
}

#[test]
fn words_and_texts_have_limits(rt: HostRuntime) -> Result<(), Fail> {
    let alloc = rt.alloc();
    let longest = letters(alloc, 127)?;
    let word = longest.as_str();
    let one = format!(in alloc; "1:1 {word} word; ")?;
    assert_eq!(rt; shown(&rt, alloc, word.as_bytes())?.as_str(), one.as_str());
    let name = format!(in alloc; "#define {word} 1")?;
    assert!(rt; scanned(&rt, alloc, name.as_bytes()).is_ok());
    let long = format!(in alloc; "{word}a")?;
    assert!(rt; scanned(&rt, alloc, long.as_bytes()).err() == Some(LexFault::Literal(1, 1)));
    let long_name = format!(in alloc; "#define {word}a 1")?;
    assert!(rt; scanned(&rt, alloc, long_name.as_bytes()).err() == Some(LexFault::Directive(1, 1)));
    let full = format!(in alloc; "\"{word}{word}\\n\\\\\"")?;
    assert!(rt; scanned(&rt, alloc, full.as_bytes()).is_ok());
    let past = format!(in alloc; "\"{word}{word}\\n\\\\a\"")?;
    assert!(rt; scanned(&rt, alloc, past.as_bytes()).err() == Some(LexFault::Literal(1, 1)));
    assert!(rt; scanned(&rt, alloc, b"/*\xff\x00*/ //\x80").is_ok());
    Ok(())
}

// Doubled marks that are none, a comment that ends in two stars, and octal numbers with a suffix (ISO/IEC 9899:2011, 6.4.4.1 and 6.4.6).
#[test]
fn pieces_that_are_easily_mistaken(rt: HostRuntime) -> Result<(), Fail> {
    let zeros = "000000000000000000000";
    let octal = format!(in rt.alloc(); "01{zeros}l")?;
    let octal_row = format!(in rt.alloc(); "1:1 01{zeros}l ULong 9223372036854775808; ")?;
    let cases = [
        ("!!x", "1:1 ! mark; 1:2 ! mark; 1:3 x word; "),
        ("a=-b", "1:1 a word; 1:2 = mark; 1:3 - mark; 1:4 b word; "),
        ("a/***/b", "1:1 a word; 1:7 b word; "),
        ("040000000000", "1:1 040000000000 Long 4294967296; "),
        (octal.as_str(), octal_row.as_str()),
        ("0x1uL", "1:1 0x1uL ULong 1; "),
        ("010U", "1:1 010U Unsigned 8; "),
    ];
    for (text, want) in cases {
        assert_eq!(rt;
            shown(&rt, rt.alloc(), text.as_bytes())?.as_str(),
            want,
            "at {text}"
        );
    }
    for text in ["1ll", "1LL", "1ull"] {
        assert!(rt;
            scanned(&rt, rt.alloc(), text.as_bytes()).err() == Some(LexFault::Literal(1, 1)),
            "at {text}"
        );
    }
    Ok(())
}
