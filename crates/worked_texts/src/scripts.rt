//! Scripts: their trees, and the first faults of texts that are none.

use cell_values::{Kind, Word};
use script_syntax::{
    Binding, Expr, ReadScript, Script, Statement, SyntaxFault, SyntaxKind, Target, read_script,
};
use std::alloc::{AllocError, Global};
use std::process::Abort;
use std::test::Fail;

/// A text, and its tree: `NAME=FILE`, `NAME=#NUMBER` and `:KIND` for each entry, the area and the last step in angle
/// brackets, and `mean` where samples are means; and each statement, `!` before a reported one and `dynamic` before the section; an operation stands
/// before its operands in brackets.
static TREES: [(&str, &str); 41] = [
    ("areamap a.asc; initial", "<a.asc 0> dynamic "),
    ("areamap 1.5; initial", "<1.5 0> dynamic "),
    ("binding areamap A; timer 1 2 1; dynamic", "<A 2> dynamic "),
    (
        "binding A=a.asc; B=b.asc; areamap A; initial report C=A+B;",
        "A=a.asc B=b.asc <A 0> !C=+(A,B,) dynamic ",
    ),
    // blanks of each kind, comments, and a comment at the end without a line feed
    (
        "# a = ;\r\n\tbinding\tA =\ta.asc\r\n;areamap#\n a ;initial\rC = A ; # end",
        "A=a.asc <a 0> C=A dynamic ",
    ),
    // a first line that asks for means, and some that do not
    (
        "#! timeoutput mean\nareamap a; initial",
        "<a 0 mean> dynamic ",
    ),
    (
        "#! timeoutput mean\r\nareamap a; initial",
        "<a 0 mean> dynamic ",
    ),
    ("#! timeoutput median\nareamap a; initial", "<a 0> dynamic "),
    (" #! timeoutput mean\nareamap a; initial", "<a 0> dynamic "),
    ("\n#! timeoutput mean\nareamap a; initial", "<a 0> dynamic "),
    ("#! timeoutput mean \nareamap a; initial", "<a 0> dynamic "),
    (
        "#! timeoutput mean\r \nareamap a; initial",
        "<a 0> dynamic ",
    ),
    // entries with decimals of either sign, kinds, and files that are spelled like numbers and key words
    (
        "binding A=-1.5e+2; B=+.5; C=1e : ordinal; D=report:ldd; areamap timer; initial",
        "A=#-1.5e+2 B=#+.5 C=1e:ordinal D=report:ldd <timer 0> dynamic ",
    ),
    // kinds are no key words
    (
        "binding scalar=a : scalar; ldd=2 : boolean; areamap a; initial nominal=directional;",
        "scalar=a:scalar ldd=#2:boolean <a 0> nominal=directional dynamic ",
    ),
    (
        "areamap a; timer 1 100000 1; initial A=1; dynamic report B=A; C=B;",
        "<a 100000> A=#1 dynamic !B=A C=B ",
    ),
    ("areamap a; timer 1 000999 1; dynamic", "<a 999> dynamic "),
    // chains group from the left, and products before sums before comparisons before logic
    (
        "areamap a; initial A=a-b-c;",
        "<a 0> A=-(-(a,b,),c,) dynamic ",
    ),
    (
        "areamap a; initial A=a-b*c/d;",
        "<a 0> A=-(a,/(*(b,c,),d,),) dynamic ",
    ),
    (
        "areamap a; initial A=a or b xor c and d or e;",
        "<a 0> A=or(or(a,xor(b,and(c,d,),),),e,) dynamic ",
    ),
    (
        "areamap a; initial A=not a < b;",
        "<a 0> A=not(<(a,b,),) dynamic ",
    ),
    (
        "areamap a; initial A=not not a and b;",
        "<a 0> A=and(not(not(a,),),b,) dynamic ",
    ),
    (
        "areamap a; initial A=a + b == c - d;",
        "<a 0> A===(+(a,b,),-(c,d,),) dynamic ",
    ),
    // a sign binds tighter than a product, and signs may follow one another
    ("areamap a; initial A=-a*b;", "<a 0> A=*(-(a,),b,) dynamic "),
    (
        "areamap a; initial A=a---b;",
        "<a 0> A=-(a,-(-(b,),),) dynamic ",
    ),
    ("areamap a; initial A=a*-b;", "<a 0> A=*(a,-(b,),) dynamic "),
    // each operator under its first spelling
    (
        "areamap a; initial A=a & b | ! c; B=~a; C=a div b idiv c mod d;",
        "<a 0> A=or(and(a,b,),not(c,),) B=not(a,) C=mod(idiv(/(a,b,),c,),d,) dynamic ",
    ),
    (
        "areamap a; initial A=a eq b; B=a ne b; C=a lt b; D=a le b; E=a gt b; F=a ge b;",
        "<a 0> A===(a,b,) B=!=(a,b,) C=<(a,b,) D=<=(a,b,) E=>(a,b,) F=>=(a,b,) dynamic ",
    ),
    (
        "areamap a; initial A=a==b; B=a!=b; C=a<b; D=a<=b; E=a>b; F=a>=b;",
        "<a 0> A===(a,b,) B=!=(a,b,) C=<(a,b,) D=<=(a,b,) E=>(a,b,) F=>=(a,b,) dynamic ",
    ),
    // brackets leave no node
    (
        "areamap a; initial A=(a-(b-c));",
        "<a 0> A=-(a,-(b,c,),) dynamic ",
    ),
    (
        "areamap a; initial A=(a<b)<c;",
        "<a 0> A=<(<(a,b,),c,) dynamic ",
    ),
    // calls
    ("areamap a; initial A=f();", "<a 0> A=f() dynamic "),
    (
        "areamap a; initial A=f(a,-b,(c));",
        "<a 0> A=f(a,-(b,),c,) dynamic ",
    ),
    (
        "areamap a; initial A=f (g(),1)*2;",
        "<a 0> A=*(f(g(),#1,),#2,) dynamic ",
    ),
    // the forms of `if`
    (
        "areamap a; initial A=if(a, b);",
        "<a 0> A=if(a,b,) dynamic ",
    ),
    (
        "areamap a; initial A=if(a then b else c);",
        "<a 0> A=if(a,b,c,) dynamic ",
    ),
    (
        "areamap a; initial A=if(a,b else c)+if(a then b,c);",
        "<a 0> A=+(if(a,b,c,),if(a,b,c,),) dynamic ",
    ),
    (
        "areamap a; initial A=if(not a or b then c < d);",
        "<a 0> A=if(or(not(a,),b,),<(c,d,),) dynamic ",
    ),
    // numbers
    (
        "areamap a; initial A=1.+.5*1e5-1.5E-06;",
        "<a 0> A=-(+(#1.,*(#.5,#1e5,),),#1.5E-06,) dynamic ",
    ),
    // key words count with their case
    (
        "areamap a; initial Report=IF+Mod; AND=Not(a);",
        "<a 0> Report=+(IF,Mod,) AND=Not(a,) dynamic ",
    ),
    // words, numbers and file words of 64 bytes
    (
        "binding A23456789_123456789_123456789_123456789_123456789_123456789_1234=012345678.123456789_123456789-123456789+123456789_123456789_1234; \
         areamap a; initial A=1234567890123456789012345678901234567890123456789012345678901234;",
        "A23456789_123456789_123456789_123456789_123456789_123456789_1234=012345678.123456789_123456789-123456789+123456789_123456789_1234 \
         <a 0> A=#1234567890123456789012345678901234567890123456789012345678901234 dynamic ",
    ),
    // the model of rainfall and runoff
    (
        "# rainfall and runoff\nbinding\n RainTSS = rain.tss;  RainZone = zone.asc : nominal;  Soil = soil.asc : nominal;\n \
         InfilTbl = infil.tbl;  Ldd = ldd.asc : ldd;  Runoff = q;  OutTSS = out.tss;\n Factor = 0.5;\nareamap Ldd;\n\
         timer 1 2 1;\ninitial\n Infil = lookupscalar(InfilTbl, Soil);\n Total = 0;\ndynamic\n \
         Rain = timeinputscalar(RainTSS, RainZone) * Factor;\n report Runoff = accuthresholdflux(Ldd, Rain, Infil);\n \
         Total = Total + maptotal(Rain);\n report OutTSS = timeoutput(RainZone, Total);\n",
        "RainTSS=rain.tss RainZone=zone.asc:nominal Soil=soil.asc:nominal InfilTbl=infil.tbl Ldd=ldd.asc:ldd Runoff=q \
         OutTSS=out.tss Factor=#0.5 <Ldd 2> Infil=lookupscalar(InfilTbl,Soil,) Total=#0 dynamic \
         Rain=*(timeinputscalar(RainTSS,RainZone,),Factor,) !Runoff=accuthresholdflux(Ldd,Rain,Infil,) \
         Total=+(Total,maptotal(Rain,),) !OutTSS=timeoutput(RainZone,Total,) ",
    ),
];

/// A text, and its first fault.
static FAULTS: [(&str, &str); 67] = [
    // worked examples
    ("areamap a.asc; initial report C = A + ;", "1:39 token"),
    ("", "1:1 end"),
    ("@", "1:1 byte"),
    (" @", "1:2 byte"),
    ("  # nothing", "1:1 end"),
    ("#! timeoutput mean", "1:1 end"),
    // a script that is not whole
    ("areamap a; initial A=1; dynamic", "1:25 token"),
    ("areamap a;", "1:11 end"),
    ("areamap a; timer 1 2 1;", "1:24 end"),
    ("areamap a; timer 1 2 1; initial A=1;\n  ", "1:37 end"),
    ("areamap a; initial A=1", "1:23 end"),
    ("binding", "1:8 end"),
    ("areamap a; initial A=f(", "1:24 end"),
    // sections out of place
    ("areamap a; dynamic A=1;", "1:12 token"),
    ("areamap a; timer 1 2 1; dynamic initial", "1:33 token"),
    ("areamap a; initial initial", "1:20 token"),
    ("initial A=1;", "1:1 token"),
    ("binding A=a; timer 1 2 1;", "1:14 token"),
    // bytes
    ("areamap a;\ninitial A=1 $;", "2:13 byte"),
    ("areamap a; initial A=a.b;", "1:23 byte"),
    ("areamap a; initial A=.;", "1:22 byte"),
    ("areamap a; initial A=1\u{e9};", "1:23 byte"),
    ("binding A=@; areamap a; initial", "1:11 byte"),
    ("areamap @", "1:9 byte"),
    // a bad byte comes behind a token that is taken by no script
    ("areamap a; initial A=; @", "1:22 token"),
    // file places
    ("binding A=-; areamap a; initial", "1:11 token"),
    ("binding A=.x; areamap a; initial", "1:11 token"),
    ("binding A=-x; areamap a; initial", "1:11 token"),
    ("binding A=;", "1:11 token"),
    ("binding A==b;", "1:10 token"),
    ("binding A= =b;", "1:12 token"),
    ("binding A=a b;", "1:13 token"),
    ("binding A=a:metric; areamap a; initial", "1:13 token"),
    ("areamap -5; initial", "1:9 token"),
    ("areamap ; initial", "1:9 token"),
    ("areamap a b; initial", "1:11 token"),
    // numbers
    ("areamap a; initial A=1e;", "1:23 token"),
    ("areamap a; initial A=1e1234567;", "1:30 token"),
    ("areamap a; initial A=1..5;", "1:24 token"),
    ("areamap a; initial A=1(2);", "1:23 token"),
    // operators
    ("areamap a; initial A=a = = b;", "1:24 token"),
    ("areamap a; initial A== b;", "1:21 token"),
    ("areamap a; initial A=a<b<c;", "1:25 token"),
    ("areamap a; initial A=a==b!=c;", "1:26 token"),
    ("areamap a; initial A=a+not b;", "1:24 token"),
    ("areamap a; initial A=a<!b;", "1:24 token"),
    ("areamap a; initial A=-not b;", "1:23 token"),
    ("areamap a; initial A=+a;", "1:22 token"),
    ("areamap a; initial A=a b;", "1:24 token"),
    ("areamap a; initial A=mod;", "1:22 token"),
    ("areamap a; initial mod=a;", "1:20 token"),
    // brackets and calls
    ("areamap a; initial A=();", "1:23 token"),
    ("areamap a; initial A=(a,b);", "1:24 token"),
    ("areamap a; initial A=(a)(b);", "1:25 token"),
    ("areamap a; initial A=f(a,);", "1:26 token"),
    ("areamap a; initial A=f(a;", "1:25 token"),
    ("areamap a; initial A=f(a then b);", "1:26 token"),
    ("areamap a; initial A=if a;", "1:25 token"),
    ("areamap a; initial A=if(a);", "1:26 token"),
    ("areamap a; initial A=if(a then b then c);", "1:34 token"),
    ("areamap a; initial A=if(a else b);", "1:27 token"),
    ("areamap a; initial A=if(a,b,c,d);", "1:30 token"),
    ("areamap a; initial report A;", "1:28 token"),
    // the numbers of `timer`
    ("areamap a; timer 01 1 1; dynamic", "1:18 number"),
    ("areamap a; timer 1 100001 1; dynamic", "1:20 number"),
    ("areamap a; timer 1 0 1; dynamic", "1:20 number"),
    ("areamap a; timer 1 2 1.; dynamic", "1:22 number"),
];

/// More texts and their first faults, with long words.
static LONG: [(&str, &str); 10] = [
    ("areamap a; timer 1 0000001 1; dynamic", "1:20 number"),
    ("areamap a; timer 1 2 1 1; dynamic", "1:24 token"),
    ("areamap a; timer a 2 1; dynamic", "1:18 token"),
    (
        "areamap a; initial A23456789_123456789_123456789_123456789_123456789_123456789_12345=1;",
        "1:20 long",
    ),
    (
        "areamap a; initial A=12345678901234567890123456789012345678901234567890123456789012345;",
        "1:22 long",
    ),
    (
        "areamap A23456789_123456789_123456789_123456789_123456789_123456789_12345; initial",
        "1:9 long",
    ),
    // a decimal is long, and a run that is none is no token that may stand there, however long
    (
        "binding A=-12345678901234567890123456789012345678901234567890123456789012345; areamap a; initial",
        "1:11 long",
    ),
    (
        "binding A=-x2345678901234567890123456789012345678901234567890123456789012345; areamap a; initial",
        "1:11 token",
    ),
    // at one place the length is told first
    (
        "areamap a; timer 12345678901234567890123456789012345678901234567890123456789012345 2 1; dynamic",
        "1:18 long",
    ),
    (
        "A23456789_123456789_123456789_123456789_123456789_123456789_12345",
        "1:1 long",
    ),
];

// The word of a kind.
fn kind_word(kind: Kind) -> &'static [u8] {
    match kind {
        Kind::Boolean => b":boolean ",
        Kind::Nominal => b":nominal ",
        Kind::Ordinal => b":ordinal ",
        Kind::Scalar => b":scalar ",
        Kind::Directional => b":directional ",
        Kind::Ldd => b":ldd ",
    }
}

// The word of a fault.
fn fault_word(kind: SyntaxKind) -> &'static str {
    match kind {
        SyntaxKind::Byte => "byte",
        SyntaxKind::Token => "token",
        SyntaxKind::End => "end",
        SyntaxKind::Long => "long",
        SyntaxKind::Many => "many",
        SyntaxKind::Large => "large",
        SyntaxKind::Number => "number",
    }
}

// Appends a word and what ends it.
fn add(text: &mut Vec<u8>, word: &Word, end: &[u8]) -> Result<(), AllocError> {
    text.extend_from_slice(word.bytes())?;
    text.extend_from_slice(end)
}

// Appends an entry.
fn add_entry(text: &mut Vec<u8>, binding: &Binding) -> Result<(), AllocError> {
    add(text, &binding.name, b"=")?;
    match &binding.target {
        Target::File(file) => add(text, file, b"")?,
        Target::Number(number) => {
            text.extend_from_slice(b"#")?;
            add(text, number, b"")?;
        }
    }
    match binding.kind {
        Some(kind) => text.extend_from_slice(kind_word(kind)),
        None => text.extend_from_slice(b" "),
    }
}

// Appends an expression.
fn add_expr(text: &mut Vec<u8>, expr: &Expr) -> Result<(), AllocError> {
    match expr {
        Expr::Name(word) => add(text, word, b""),
        Expr::Number(word) => {
            text.extend_from_slice(b"#")?;
            add(text, word, b"")
        }
        Expr::Call { word, args } => {
            add(text, word, b"(")?;
            for arg in args.as_slice() {
                add_expr(text, arg)?;
                text.extend_from_slice(b",")?;
            }
            text.extend_from_slice(b")")
        }
    }
}

// Appends statements.
fn add_statements(text: &mut Vec<u8>, statements: &[Statement]) -> Result<(), AllocError> {
    for statement in statements {
        if statement.report {
            text.extend_from_slice(b"!")?;
        }
        add(text, &statement.name, b"=")?;
        add_expr(text, &statement.expr)?;
        text.extend_from_slice(b" ")?;
    }
    Ok(())
}

// A tree as text.
fn shown(alloc: Global, script: &Script) -> Result<Vec<u8>, AllocError> {
    let mut text = Vec::new(alloc);
    for binding in script.bindings.as_slice() {
        add_entry(&mut text, binding)?;
    }
    text.extend_from_slice(b"<")?;
    add(&mut text, &script.area, b" ")?;
    let steps = script.steps;
    let mean = if script.mean { " mean" } else { "" };
    let steps = format!(in alloc; "{steps}{mean}> ")?;
    text.extend_from_slice(steps.as_bytes())?;
    add_statements(&mut text, script.initial.as_slice())?;
    text.extend_from_slice(b"dynamic ")?;
    add_statements(&mut text, script.dynamic.as_slice())?;
    Ok(text)
}

// A fault as text.
fn told(alloc: Global, fault: SyntaxFault) -> Result<Vec<u8>, AllocError> {
    let line = fault.line;
    let column = fault.column;
    let kind = fault_word(fault.kind);
    let text = format!(in alloc; "{line}:{column} {kind}")?;
    Vec::from_slice(alloc, text.as_bytes())
}

// What a text is read as.
fn read(alloc: Global, text: &[u8]) -> Result<Script, ReadScript> {
    if text.len() > 1_000_000 {
        return Err(ReadScript::Memory);
    }
    read_script(alloc, text)
}

// What a text is read as: its tree or its fault, as text.
fn outcome(alloc: Global, text: &[u8]) -> Result<Vec<u8>, AllocError> {
    match read(alloc, text) {
        Ok(script) => shown(alloc, &script),
        Err(ReadScript::Syntax(fault)) => told(alloc, fault),
        Err(ReadScript::Memory) => Err(AllocError),
    }
}

// Compares what the texts of a table are read as.
fn expect_outcomes(rt: &impl Abort, alloc: Global, rows: &[(&str, &str)]) -> Result<(), Fail> {
    for (text, wanted) in rows {
        let found = outcome(alloc, text.as_bytes())?;
        assert_eq!(rt; found.as_slice(), wanted.as_bytes(), "of {text}");
    }
    Ok(())
}

// A text with so many equal parts in it.
fn repeated(
    alloc: Global,
    front: &str,
    part: &str,
    count: u32,
    end: &str,
) -> Result<Vec<u8>, AllocError> {
    let mut text = Vec::from_slice(alloc, front.as_bytes())?;
    for _ in 0..count {
        text.extend_from_slice(part.as_bytes())?;
    }
    text.extend_from_slice(end.as_bytes())?;
    Ok(text)
}

// Compares the fault of a text with so many equal parts, or sees that it has none.
fn expect_repeated(
    rt: &impl Abort,
    alloc: Global,
    parts: (&str, &str, u32, &str),
    wanted: Option<&str>,
) -> Result<(), AllocError> {
    let (front, part, count, end) = parts;
    let text = repeated(alloc, front, part, count, end)?;
    let found = outcome(alloc, text.as_slice())?;
    match wanted {
        Some(fault) => assert_eq!(rt; found.as_slice(), fault.as_bytes(), "of {part}"),
        None => assert!(rt; found.len() > 30, "of {part}"),
    }
    Ok(())
}

/// A front, a part that stands so often, and an end; and the fault where there is one.
static REPEATED: [((&str, &str, u32, &str), Option<&str>); 12] = [
    // 256 brackets, signs, sums and commas are read, and one more is not
    (
        ("areamap a.asc; initial C = ", "(", 300, ""),
        Some("1:284 large"),
    ),
    (("areamap a; initial C=", "-", 256, "1;"), None),
    (
        ("areamap a; initial C=", "-", 257, "1;"),
        Some("1:278 large"),
    ),
    (
        ("areamap a; initial C=", "!", 257, "1;"),
        Some("1:278 large"),
    ),
    (("areamap a; initial C=1", "+1", 256, ";"), None),
    (
        ("areamap a; initial C=1", "+1", 257, ";"),
        Some("1:535 large"),
    ),
    (("areamap a; initial C=f(1", ",1", 255, ");"), None),
    (
        ("areamap a; initial C=f(1", ",1", 256, ");"),
        Some("1:535 large"),
    ),
    // each statement counts for itself
    (("areamap a; initial ", "C=1+(2)*f(3,4); ", 1000, ""), None),
    // 1,000 entries and statements are read, and one more is not
    (("binding ", "A=a; ", 1000, "areamap a; initial B=1;"), None),
    (
        ("binding ", "A=a; ", 1001, "areamap a; initial B=1;"),
        Some("1:5009 many"),
    ),
    (
        (
            "areamap a; timer 1 2 1; initial ",
            "A=1;",
            999,
            "dynamic A=1; report",
        ),
        Some("1:4042 many"),
    ),
];

#[test]
fn reads_trees(rt: HostRuntime) -> Result<(), Fail> {
    expect_outcomes(&rt, rt.alloc(), &TREES)
}

#[test]
fn tells_first_faults(rt: HostRuntime) -> Result<(), Fail> {
    expect_outcomes(&rt, rt.alloc(), &FAULTS)?;
    expect_outcomes(&rt, rt.alloc(), &LONG)
}

#[test]
fn keeps_the_limits_of_counts(rt: HostRuntime) -> Result<(), Fail> {
    for (parts, wanted) in REPEATED.iter() {
        expect_repeated(&rt, rt.alloc(), *parts, *wanted)?;
    }
    Ok(())
}

// So many opening brackets and as many closing ones.
fn nested(alloc: Global, count: u32) -> Result<Vec<u8>, AllocError> {
    let mut text = repeated(alloc, "areamap a; initial C=", "(", count, "1")?;
    for _ in 0..count {
        text.extend_from_slice(b")")?;
    }
    text.extend_from_slice(b";")?;
    Ok(text)
}

#[test]
fn reads_256_brackets(rt: HostRuntime) -> Result<(), Fail> {
    let text = nested(rt.alloc(), 256)?;
    let found = outcome(rt.alloc(), text.as_slice())?;
    assert_eq!(rt; found.as_slice(), b"<a 0> C=#1 dynamic ".as_slice());
    Ok(())
}
