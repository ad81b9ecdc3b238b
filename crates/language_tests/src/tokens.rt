ghost use Rattle.std.specs.Prelude.{◌≤◌};

use conf_lex::*;
use conf_tree::{Token, TokenKind};
use net_base::{Bytes, ConfError, Items};
use std::alloc::Global;
use std::process::Abort;
use std::test::*;

fn letter(kind: TokenKind) -> u8 {
    match kind {
        TokenKind::Word => b'w',
        TokenKind::Quoted => b'q',
        TokenKind::Mark => b'm',
        TokenKind::LineEnd => b'e',
    }
}

// A token as its line, the letter of its kind, and its text behind a colon.
fn shown(alloc: Global, token: &Token, all: &mut Bytes) -> Result<(), Fail> {
    let line = format!(in alloc; "{}", token.line)?;
    all.extend_from_slice(line.as_bytes())?;
    all.push(letter(token.kind))?;
    if token.kind != TokenKind::LineEnd {
        all.push(b':')?;
        all.extend_from_slice(token.text.as_slice())?;
    }
    Ok(())
}

// A token as its line, the letter of its kind, and its places.
fn placed(alloc: Global, token: &Token, all: &mut Bytes) -> Result<(), Fail> {
    let line = format!(in alloc; "{}", token.line)?;
    let places = format!(in alloc; "{}-{}", token.start, token.end)?;
    all.extend_from_slice(line.as_bytes())?;
    all.push(letter(token.kind))?;
    all.extend_from_slice(places.as_bytes())?;
    Ok(())
}

// The tokens of a text with blanks between them, or its fault.
fn said(alloc: Global, text: &[u8], limit: usize, places: bool) -> Result<Bytes, Fail>
    requires { limit ≤ 134217728 }
{
    let mut all = Items::new(alloc);
    match tokens(alloc, text, limit) {
        Ok(list) => {
            for token in list.iter() {
                if !all.is_empty() {
                    all.push(b' ')?;
                }
                if places {
                    placed(alloc, token, &mut all)?;
                } else {
                    shown(alloc, token, &mut all)?;
                }
            }
        }
        Err(ConfError::Fault(fault)) => {
            let fault = format!(in alloc; "{fault}")?;
            all.extend_from_slice(fault.as_bytes())?;
        }
        Err(ConfError::NoMemory) => return Err("memory")?,
    }
    Ok(all)
}

// Each text has the tokens beside it.
fn check(
    rt: &impl Abort,
    alloc: Global,
    cases: &[(&'static [u8], &'static [u8])],
) -> Result<(), Fail> {
    for (text, expected) in cases {
        let found = said(alloc, text, TEXT_LIMIT, false)?;
        assert_eq!(rt; found.as_slice(), *expected, "of {text:?}");
    }
    Ok(())
}

// Only printable ASCII, blanks, tabs and LF stand outside quotes, comments too.
#[test]
fn comments_are_outside_quotes(rt: HostRuntime) -> Result<(), Fail> {
    check(
        &rt,
        rt.alloc(),
        &[
            (b"# \xc3\xa9\n", b"1 BadByte"),
            (b"#\r\n", b"1 BadByte"),
            (b"# \x00", b"1 BadByte"),
            (b"a \x7f", b"1 BadByte"),
            (b"# \x7f", b"1 BadByte"),
            (b"a\x7f", b"1 BadByte"),
            (b"a\n\x80", b"2 BadByte"),
            (b"# \t\"~!\n", b"1e 2e"),
            (b"a#b\nc", b"1w:a 1e 2w:c 2e"),
            (b"\"a\"#b", b"1q:a 1e"),
            (b"#", b"1e"),
            (b"", b"1e"),
            (b"\n", b"1e 2e"),
            (b"! ~\t", b"1w:! 1w:~ 1e"),
        ],
    )
}

// Between quotes stands any UTF-8 but `"` and LF, without escapes.
#[test]
fn quotes_hold_any_utf8(rt: HostRuntime) -> Result<(), Fail> {
    check(
        &rt,
        rt.alloc(),
        &[
            (b"\"\t\r\x00\x7f\"", b"1q:\t\r\x00\x7f 1e"),
            (
                b"\"\xc3\xa9 \xe2\x82\xac \xf0\x9f\x98\x80\"",
                b"1q:\xc3\xa9 \xe2\x82\xac \xf0\x9f\x98\x80 1e",
            ),
            (b"\"a\\\"", b"1q:a\\ 1e"),
            (b"\"a\\\" b", b"1q:a\\ 1w:b 1e"),
            (b"\"\"", b"1q: 1e"),
            (b"\"# {,\"", b"1q:# {, 1e"),
            (b"\"$x\"", b"1q:$x 1e"),
            (b"\"\xed\xa0\x80\"", b"1 BadByte"),
            (b"\"\xc0\xaf\"", b"1 BadByte"),
            (b"\"\xe0\x80\xaf\"", b"1 BadByte"),
            (b"\"\xf4\x90\x80\x80\"", b"1 BadByte"),
            (b"\"\x80\"", b"1 BadByte"),
            (b"\xef\xbb\xbfAS 1", b"1 BadByte"),
            (b"\"a\\\n\xc3(\"", b"2 BadByte"),
            (b"\"\xe2\x82\n", b"1 BadByte"),
            (b"\"\xe2\x82", b"1 BadByte"),
            (b"\"\xe2\x82\"", b"1 BadByte"),
            (b"\"\xc3\\\n\xa9\"", b"1 BadByte"),
            (b"\"\\\n\xc3\\\n\xa9\"", b"2 BadByte"),
            (b"\"\xc3\xa9\xff\"", b"1 BadByte"),
        ],
    )
}

// A carriage return is a byte like others in quotes alone, and joins nothing.
#[test]
fn carriage_returns(rt: HostRuntime) -> Result<(), Fail> {
    check(
        &rt,
        rt.alloc(),
        &[
            (b"AS 5\r\n", b"1 BadByte"),
            (b"\n\\\r\n", b"2 BadByte"),
            (b"\\\r\n", b"1 BadByte"),
            (b"\"a\r\n", b"1 OpenQuote"),
            (b"\"a\r\"", b"1q:a\r 1e"),
        ],
    )
}

// A backslash before LF goes away with it, wherever it stands. Elsewhere it is a byte of a word.
#[test]
fn joined_lines(rt: HostRuntime) -> Result<(), Fail> {
    check(
        &rt,
        rt.alloc(),
        &[
            (b"AS 65\\\n001\n", b"1w:AS 1w:65001 2e 3e"),
            (b"AS\\\n5", b"1w:AS5 2e"),
            (b"a >\\\n= b", b"1w:a 1m:>= 2w:b 2e"),
            (b"\"a\\\nb\"", b"1q:ab 2e"),
            (b"\"\\\n\"", b"1q: 2e"),
            (b"x = a\\\nb\n$x", b"2e 3w:ab 3e"),
            (b"# a\\\nb c\nd", b"2e 3w:d 3e"),
            (b"a\\b", b"1w:a\\b 1e"),
            (b"a\\ \nb", b"1w:a\\ 1e 2w:b 2e"),
            (b"a\\", b"1w:a\\ 1e"),
            (b"a\\\\\nb", b"1w:a\\b 2e"),
            (b"\\\n\\\na", b"3w:a 3e"),
            (b"\\\n\\x", b"2w:\\x 2e"),
            (b"a\\\n", b"1w:a 2e"),
            (b"a \\\n b\nc", b"1w:a 2w:b 2e 3w:c 3e"),
            (b"AS \\\n\n", b"1w:AS 2e 3e"),
            (b"# a\\\n\x7f", b"2 BadByte"),
        ],
    )
}

// A definition stands at the beginning of a joined line, also in braces.
#[test]
fn beginnings_of_lines(rt: HostRuntime) -> Result<(), Fail> {
    check(
        &rt,
        rt.alloc(),
        &[
            (b" \t x\t=5\n$x", b"1e 2w:5 2e"),
            (b"{ x = 5\n$x }", b"2 UnknownMacro"),
            (b"{\nx = 5\n$x }", b"1m:{ 1e 2e 3w:5 3m:} 3e"),
            (b"a \\\nx = 5\n$x", b"3 UnknownMacro"),
            (b"\\\nx = 5\n$x", b"2e 3w:5 3e"),
            (b"AS = 5\nAS $AS", b"1e 2w:AS 2w:5 2e"),
            (b"x=5\n$x", b"1e 2w:5 2e"),
            (b"a_b-1 = 5\n$a_b-1", b"1e 2w:5 2e"),
            (b"Zz9=q", b"1e"),
            (b"# x\nx = 5\n$x", b"1e 2e 3w:5 3e"),
        ],
    )
}

// What isn't NAME, `=` and words or one quoted text defines nothing.
#[test]
fn lines_of_another_form(rt: HostRuntime) -> Result<(), Fail> {
    check(
        &rt,
        rt.alloc(),
        &[
            (b"x = { 1, 2 }", b"1w:x 1m:= 1m:{ 1w:1 1m:, 1w:2 1m:} 1e"),
            (b"x = \"a\" b", b"1w:x 1m:= 1q:a 1w:b 1e"),
            (b"x = a \"b\"", b"1w:x 1m:= 1w:a 1q:b 1e"),
            (b"x = \"a\" \"b\"", b"1w:x 1m:= 1q:a 1q:b 1e"),
            (b"x == 1", b"1w:x 1m:= 1m:= 1w:1 1e"),
            (b"x == 1\n$x", b"2 UnknownMacro"),
            (b"x = \"{ 1, 2 }\"\n$x", b"1e 2m:{ 2w:1 2m:, 2w:2 2m:} 2e"),
            (b"x = 5 # six\n$x", b"1e 2w:5 2e"),
            (b"x = \"5\" # six\n$x", b"1e 2w:5 2e"),
            (b"x = { $y }", b"1 UnknownMacro"),
            (b"x \"=\" 5", b"1w:x 1q:= 1w:5 1e"),
            (b"\"x\" = 5", b"1q:x 1m:= 1w:5 1e"),
            (b"1x = 5", b"1w:1x 1m:= 1w:5 1e"),
            (b"x.y = 5", b"1w:x.y 1m:= 1w:5 1e"),
            (b"x >= 5", b"1w:x 1m:>= 1w:5 1e"),
            (b"x", b"1w:x 1e"),
            (b"= 5", b"1m:= 1w:5 1e"),
            (b"y = 1\nx = { $y }", b"1e 2w:x 2m:= 2m:{ 2w:1 2m:} 2e"),
        ],
    )
}

// A value may be empty.
#[test]
fn empty_values(rt: HostRuntime) -> Result<(), Fail> {
    check(
        &rt,
        rt.alloc(),
        &[
            (b"x =\n$x a", b"1e 2w:a 2e"),
            (b"x = \"\"\n$x", b"1e 2e"),
            (b"x = \"# no\"\n$x", b"1e 2e"),
            (b"x = # no\n$x", b"1e 2e"),
            (b"x =\n$x/8", b"2 UnknownMacro"),
            (b"x = \"\"\n$x/8", b"2 UnknownMacro"),
            (b"x =", b"1e"),
        ],
    )
}

// A quoted value is split into tokens, where any byte may stand in a word and no macro is replaced.
#[test]
fn quoted_values(rt: HostRuntime) -> Result<(), Fail> {
    check(
        &rt,
        rt.alloc(),
        &[
            (b"x = \"a # b\"\n$x", b"1e 2w:a 2e"),
            (b"a = \"$b\"\nAS $a", b"1e 2w:AS 2w:$b 2e"),
            (
                b"x = \"a>=b <= \xc3\xa9\x00\"\n$x",
                b"1e 2w:a 2m:>= 2w:b 2m:<= 2w:\xc3\xa9\x00 2e",
            ),
            (b"x = \"a\tb\"\n$x", b"1e 2w:a 2w:b 2e"),
            (b"x = \"a\\\nb\\\"\n$x", b"2e 3w:ab\\ 3e"),
            (b"x = \"a#b\"\n$x", b"1e 2w:a 2e"),
            (b"x = \"\r\"\n$x", b"1e 2w:\r 2e"),
            (
                b"x = \"a,b{=}\"\n$x",
                b"1e 2w:a 2m:, 2w:b 2m:{ 2m:= 2m:} 2e",
            ),
            (b"a = \"AS = 5\"\n$a", b"1e 2w:AS 2m:= 2w:5 2e"),
            (b"a = \"AS = 5\"\n$a\n$AS", b"3 UnknownMacro"),
            (b"x = \"# \x7f\"\n$x", b"1e 2e"),
        ],
    )
}

// The fault counts that a reader from the left knows first.
#[test]
fn first_faults(rt: HostRuntime) -> Result<(), Fail> {
    check(
        &rt,
        rt.alloc(),
        &[
            (b"$x\r", b"1 UnknownMacro"),
            (b"\r$x", b"1 BadByte"),
            (b"\"\xff", b"1 BadByte"),
            (b"\"a\\\n\xff\n", b"2 BadByte"),
            (b"\"a\\\nb\n", b"1 OpenQuote"),
            (b"a \\\n\"b\nc", b"2 OpenQuote"),
            (b"a \"b", b"1 OpenQuote"),
            (b"$x \"", b"1 UnknownMacro"),
            (b"a\n$x\n\"b", b"2 UnknownMacro"),
            (b"a\\\n $x", b"2 UnknownMacro"),
            (b"a $\\\nx", b"1 UnknownMacro"),
            (b"a \"\n$x", b"1 OpenQuote"),
            (b"\"a\n\r", b"1 OpenQuote"),
            (b"\n\n\"", b"3 OpenQuote"),
        ],
    )
}

// The tokens of a macro have the line of the word.
#[test]
fn lines_of_tokens(rt: HostRuntime) -> Result<(), Fail> {
    check(
        &rt,
        rt.alloc(),
        &[
            (b"x = \"a b\"\n\n $x\n", b"1e 2e 3w:a 3w:b 3e 4e"),
            (b"abc = 5\n$a\\\nbc", b"1e 2w:5 3e"),
            (b"x = a\\\n b\n$x \\\n c", b"2e 3w:a 3w:b 4w:c 4e"),
        ],
    )
}

// Marks and quotes end words.
#[test]
fn neighbours_without_blanks(rt: HostRuntime) -> Result<(), Fail> {
    check(
        &rt,
        rt.alloc(),
        &[
            (b"a\"b\"c", b"1w:a 1q:b 1w:c 1e"),
            (b"a>b", b"1w:a>b 1e"),
            (b">>=", b"1w:> 1m:>= 1e"),
            (b"<", b"1w:< 1e"),
            (b"<\n=", b"1w:< 1e 2m:= 2e"),
            (b"a<=b", b"1w:a 1m:<= 1w:b 1e"),
            (b"<>=", b"1w:< 1m:>= 1e"),
            (b"rib\"x\"rtable 5", b"1w:rib 1q:x 1w:rtable 1w:5 1e"),
            (b"{}", b"1m:{ 1m:} 1e"),
            (b"a,b", b"1w:a 1m:, 1w:b 1e"),
            (b">==", b"1m:>= 1m:= 1e"),
            (b"\"\"\"\"", b"1q: 1q: 1e"),
            (b"8-9", b"1w:8-9 1e"),
            (b"=>", b"1m:= 1w:> 1e"),
        ],
    )
}

// A NAME is as long as can be, and further bytes are glued to one token.
#[test]
fn words_with_dollars(rt: HostRuntime) -> Result<(), Fail> {
    check(
        &rt,
        rt.alloc(),
        &[
            (b"$", b"1w:$ 1e"),
            (b"$1", b"1w:$1 1e"),
            (b"a$b", b"1w:a$b 1e"),
            (b"+$x", b"1w:+$x 1e"),
            (b"$_a", b"1w:$_a 1e"),
            (b"$$a", b"1w:$$a 1e"),
            (b"a = 5\n$a-24", b"2 UnknownMacro"),
            (b"a = 5\n$a_", b"2 UnknownMacro"),
            (b"a = 5\n$a4", b"2 UnknownMacro"),
            (b"a = 5\n$a - $a", b"1e 2w:5 2w:- 2w:5 2e"),
            (b"a = 5\nb = 6\n$a$b", b"1e 2e 3w:5$b 3e"),
            (b"net = 10.0.0.0\n$net/8", b"1e 2w:10.0.0.0/8 2e"),
            (b"m = \"{\"\n$m:1", b"1e 2w:{:1 2e"),
            (b"m = a b\n$m:1", b"2 UnknownMacro"),
            (b"m = a b\n$m", b"1e 2w:a 2w:b 2e"),
            (b"a = 5\n$a,$a", b"1e 2w:5 2m:, 2w:5 2e"),
            (b"a = 5\n$a\"b\"", b"1e 2w:5 2q:b 2e"),
        ],
    )
}

// A definition sees those above it.
#[test]
fn later_definitions(rt: HostRuntime) -> Result<(), Fail> {
    check(
        &rt,
        rt.alloc(),
        &[
            (b"x = 1\nx = $x\n$x", b"1e 2e 3w:1 3e"),
            (b"x = $x", b"1 UnknownMacro"),
            (b"x = 1\n$x\nx = 2\n$x", b"1e 2w:1 2e 3e 4w:2 4e"),
            (b"x = 1\nx = $x $x\n$x", b"1e 2e 3w:1 3w:1 3e"),
            (b"x = 1\ny = $x\nx = 2\n$y", b"1e 2e 3e 4w:1 4e"),
            (b"y = \"{ 1 }\"\nx = $y\n$x", b"1e 2e 3m:{ 3w:1 3m:} 3e"),
            (b"$x\nx = 5", b"1 UnknownMacro"),
            (b"x = 5\ny = 6\n$y $x", b"1e 2e 3w:6 3w:5 3e"),
            (b"x = y\n$x = 5\n$y", b"3 UnknownMacro"),
            (b"x = y\n$x = 5", b"1e 2w:y 2m:= 2w:5 2e"),
            (b"y = $z\nx = $y\nz = 1", b"1 UnknownMacro"),
            (b"z = 1\ny = $z/$z\n$y", b"1e 2e 3w:1/$z 3e"),
        ],
    )
}

// The bytes behind a limit are not looked at, and what reaches it without an end isn't judged.
#[test]
fn limits(rt: HostRuntime) -> Result<(), Fail> {
    let cases: &[(&'static [u8], usize, &'static [u8])] = &[
        (b"abc", 3, b"1w:abc 1e"),
        (b"abcd", 3, b"1 TooLong"),
        (b"a\nbc", 2, b"2 TooLong"),
        (b"\n\n", 1, b"2 TooLong"),
        (b"$x y", 2, b"1 TooLong"),
        (b"$x y", 3, b"1 UnknownMacro"),
        (b"\"a\"", 2, b"1 TooLong"),
        (b"\"a\"", 3, b"1q:a 1e"),
        (b"\"a\"b", 3, b"1 TooLong"),
        (b"\"\xff\"", 2, b"1 BadByte"),
        (b"\"\xc3\xa9\"", 2, b"1 TooLong"),
        (b"\"\xc3", 2, b"1 BadByte"),
        (b"\r", 0, b"1 TooLong"),
        (b"", 0, b"1e"),
        (b"a\r", 1, b"1 TooLong"),
        (b"\ra", 1, b"1 BadByte"),
        (b"\"a\nb", 3, b"1 OpenQuote"),
        (b"\"a\nb", 2, b"1 TooLong"),
        (b">=", 1, b"1 TooLong"),
        (b"a\\\nb", 2, b"1 TooLong"),
        (b"a\\\nb", 3, b"2 TooLong"),
        (b"#\xc3\xa9", 2, b"1 BadByte"),
        (b"#a\n", 2, b"1 TooLong"),
        (b"{ $x", 4, b"1 UnknownMacro"),
        (b"$x { b", 3, b"1 UnknownMacro"),
        (b"\"\xe2(\x82", 3, b"1 BadByte"),
        (b"a\nb\n", 4, b"1w:a 1e 2w:b 2e 3e"),
    ];
    for (text, limit, expected) in cases {
        if *limit <= TEXT_LIMIT {
            let found = said(rt.alloc(), text, *limit, false)?;
            assert_eq!(rt; found.as_slice(), *expected, "of {text:?} up to {limit}");
        }
    }
    Ok(())
}

// A token stands from its first byte to behind its last one, and one that a macro gave where the word stands.
#[test]
fn places(rt: HostRuntime) -> Result<(), Fail> {
    let cases: &[(&'static [u8], &'static [u8])] = &[
        (
            b"AS \\\n \"b\\\nc\" >=\n",
            b"1w0-2 2q6-12 3m13-15 3e15-16 4e16-16",
        ),
        (b"A\\\nS ", b"1w0-4 2e5-5"),
        (b"AS\\\n x", b"1w0-2 2w5-6 2e6-6"),
        (b"x = \"a b\"\n $x", b"1e9-10 2w11-13 2w11-13 2e13-13"),
        (b">\\\n=", b"1m0-4 2e4-4"),
        (b"", b"1e0-0"),
        (b"\\\n", b"2e2-2"),
        (b"a = 5\n$a:1\\\n2 {", b"1e5-6 2w6-13 3m14-15 3e15-15"),
    ];
    for (text, expected) in cases {
        let found = said(rt.alloc(), text, TEXT_LIMIT, true)?;
        assert_eq!(rt; found.as_slice(), *expected, "of {text:?}");
    }
    Ok(())
}

// A quarter of the bytes that replacements may give, as the value of `x`, and then some lines.
fn replacing(alloc: Global, lines: &[u8]) -> Result<Bytes, Fail> {
    let mut text = Items::new(alloc);
    text.extend_from_slice(b"x = ".as_slice())?;
    for _ in 0..262_144 {
        text.push(b'a')?;
    }
    text.extend_from_slice(lines)?;
    Ok(text)
}

fn fault_of(alloc: Global, lines: &[u8]) -> Result<Bytes, Fail> {
    let text = replacing(alloc, lines)?;
    match tokens(alloc, text.as_slice(), TEXT_LIMIT) {
        Ok(_) => Ok(Items::from_slice(alloc, b"none".as_slice())?),
        Err(ConfError::Fault(fault)) => {
            let fault = format!(in alloc; "{fault}")?;
            Ok(Items::from_slice(alloc, fault.as_bytes())?)
        }
        Err(ConfError::NoMemory) => Err("memory")?,
    }
}

// Replacements give 1048576 bytes at most, those in values and further bytes counted.
#[test]
fn replacements(rt: HostRuntime) -> Result<(), Fail> {
    let cases: &[(&'static [u8], &'static [u8])] = &[
        (b"\n$x $x\n$x $x\n", b"none"),
        (b"\n$x $x\n$x $x\n$x", b"4 TooLong"),
        (b"\n$x $x\n$x\n$x/", b"4 TooLong"),
        (b"\n$x $x $x\n$x $x \x7f", b"3 TooLong"),
        (b"\ny = $x\nz = $x $x\n$x\nx =\n$x", b"none"),
        (b"\ny = $x\nz = $x $x\n$x\n\n$z", b"6 TooLong"),
        (b"\ny = $x\nz = $y $y\n$y\ny = b\n$y", b"6 TooLong"),
        (b"\nm = \">=\"\n$x $x $x\n$m\n$x", b"5 TooLong"),
    ];
    for (lines, expected) in cases {
        let found = fault_of(rt.alloc(), lines)?;
        assert_eq!(rt; found.as_slice(), *expected, "of {lines:?}");
    }
    Ok(())
}
