//! What units are (C11 6.7 to 6.9): productions, scopes of names, labels, ladders.
use crate::shown::source_text;
use std::alloc::{AllocError, Global};
use std::test::Fail;

struct Case {
    source: &'static [u8],
    wanted: &'static str,
}

// What is otherwise than wanted.
fn unlike(alloc: Global, cases: &[Case]) -> Result<String, AllocError> {
    let mut out = String::new(alloc);
    for case in cases {
        let found = source_text(alloc, case.source)?;
        if found.as_str() != case.wanted {
            out.push_str(case.wanted)?;
            out.push_str(" but ")?;
            out.push_str(found.as_str())?;
            out.push_str("; ")?;
        }
    }
    Ok(out)
}

const EXTERNALS: [Case; 25] = [
    Case {
        source: b"",
        wanted: "",
    },
    Case {
        source: b";",
        wanted: ";",
    },
    Case {
        source: b";;",
        wanted: "; ;",
    },
    Case {
        source: b"int x;",
        wanted: "D1",
    },
    Case {
        source: b"int x, *y, z[3];",
        wanted: "D3",
    },
    Case {
        source: b"struct s;",
        wanted: "D0",
    },
    Case {
        source: b"int x = 1, y = {1, {2}, };",
        wanted: "D2",
    },
    Case {
        source: b"int a[2] = {[0] = 1, [1] = 2};",
        wanted: "D1",
    },
    Case {
        source: b"struct s t = {.a.b[1] = 2, 3};",
        wanted: "D1",
    },
    Case {
        source: b"int x __asm__(\"y\") __attribute__((used)) = 2;",
        wanted: "D1",
    },
    Case {
        source: b"int x asm(\"y\" \"z\");",
        wanted: "D1",
    },
    Case {
        source: b"_Static_assert(1, \"a\" \"b\");",
        wanted: "assert",
    },
    Case {
        source: b"typedef int T; T x;",
        wanted: "D1 D1",
    },
    Case {
        source: b"int f(void);",
        wanted: "D1",
    },
    Case {
        source: b"int f(void){}",
        wanted: "{ }-13",
    },
    Case {
        source: b"static int f(int a, ...){return a;}",
        wanted: "{ return-E }-35",
    },
    Case {
        source: b"int f(){} int x;",
        wanted: "{ }-9 D1",
    },
    Case {
        source: b"__attribute__((noreturn)) void f(void);",
        wanted: "D1",
    },
    Case {
        source: b"int",
        wanted: "no 1:1",
    },
    Case {
        source: b"x",
        wanted: "no 1:1",
    },
    Case {
        source: b"int x",
        wanted: "no 1:5",
    },
    Case {
        source: b"int f(void){",
        wanted: "no 1:12",
    },
    Case {
        source: b"int x = ;",
        wanted: "no 1:9",
    },
    Case {
        source: b"int f(void){} }",
        wanted: "no 1:15",
    },
    Case {
        source: b"int x = {};",
        wanted: "no 1:10",
    },
];

const STATEMENTS: [Case; 16] = [
    Case {
        source: b"int f(void){;}",
        wanted: "{ N }-14",
    },
    Case {
        source: b"int f(void){x;{}}",
        wanted: "{ E { } }-17",
    },
    Case {
        source: b"int f(void){return;return 1;}",
        wanted: "{ return-N return-E }-29",
    },
    Case {
        source: b"int f(void){while(x)x=1;}",
        wanted: "{ while E }-25",
    },
    Case {
        source: b"int f(void){do x=1; while(x);}",
        wanted: "{ do E while-21 }-30",
    },
    Case {
        source: b"int f(void){for(;;);}",
        wanted: "{ for-NNN N }-21",
    },
    Case {
        source: b"int f(void){for(int i=0;i<3;i=i+1){continue;break;}}",
        wanted: "{ for-D1EE { continue break } }-52",
    },
    Case {
        source: b"int f(void){for(x=0;;x=1);}",
        wanted: "{ for-ENE N }-27",
    },
    Case {
        source: b"int f(void){switch(x){case 1: default: break;}}",
        wanted: "{ switch { case default break } }-47",
    },
    Case {
        source: b"int f(void){a: goto a;}",
        wanted: "{ a: goto-a }-23",
    },
    Case {
        source: b"int f(void){__attribute__((fallthrough));}",
        wanted: "{ attribute }-42",
    },
    Case {
        source: b"int f(void){__attribute__((unused)) int x;}",
        wanted: "{ D1 }-43",
    },
    Case {
        source: b"int f(void){_Static_assert(1,\"\");}",
        wanted: "{ assert }-34",
    },
    Case {
        source: b"int f(void){do x; while(x)}",
        wanted: "no 1:27",
    },
    Case {
        source: b"int f(void){x}",
        wanted: "no 1:14",
    },
    Case {
        source: b"int f(void){case: ;}",
        wanted: "no 1:17",
    },
];

const LADDERS: [Case; 8] = [
    Case {
        source: b"int f(void){if(a)x;}",
        wanted: "{ (if E) }-20",
    },
    Case {
        source: b"int f(void){if(a)x;else y;}",
        wanted: "{ (if E else E) }-27",
    },
    Case {
        source: b"int f(void){if(a)x;else if(b)y;else z;}",
        wanted: "{ (if E or E else E) }-39",
    },
    Case {
        source: b"int f(void){if(a)if(b)x;else y;}",
        wanted: "{ (if (if E else E)) }-32",
    },
    Case {
        source: b"int f(void){if(a)if(b)x;else y;else z;}",
        wanted: "{ (if (if E else E) else E) }-39",
    },
    Case {
        source: b"int f(void){if(a)x;else while(b)if(c)y;else z;}",
        wanted: "{ (if E else while (if E else E)) }-47",
    },
    Case {
        source: b"int f(void){if(a)while(b)if(c)y;else z;}",
        wanted: "{ (if while (if E else E)) }-40",
    },
    Case {
        source: b"int f(void){else x;}",
        wanted: "no 1:13",
    },
];

const SCOPES: [Case; 34] = [
    Case {
        source: b"typedef int T; int main(void){T (T); return 0;}",
        wanted: "D1 { D1 return-E }-47",
    },
    Case {
        source: b"typedef int T; int f(void){T * x;}",
        wanted: "D1 { D1 }-34",
    },
    Case {
        source: b"int T; int f(void){T * x;}",
        wanted: "D1 { E }-26",
    },
    Case {
        source: b"typedef int T; int f(void){int T; T * x;}",
        wanted: "D1 { D1 E }-41",
    },
    Case {
        source: b"typedef int T; int f(void){{int T;} T * x;}",
        wanted: "D1 { { D1 } D1 }-43",
    },
    Case {
        source: b"typedef int T; int f(int T){T * x;}",
        wanted: "D1 { E }-35",
    },
    Case {
        source: b"typedef int T; int f(T T){T * x;}",
        wanted: "D1 { E }-33",
    },
    Case {
        source: b"int f(void){{typedef int T; T x;} T * x;}",
        wanted: "{ { D1 D1 } E }-41",
    },
    Case {
        source: b"typedef int T; int f(void){int T = T, x = T;}",
        wanted: "D1 { D2 }-45",
    },
    Case {
        source: b"typedef int T; int T2, f(void); T x;",
        wanted: "D1 D2 D1",
    },
    Case {
        source: b"typedef int T; int f(void){int x = (T)1, T = 2, y = T;}",
        wanted: "D1 { D3 }-55",
    },
    Case {
        source: b"typedef int T; int f(void){T: x; T: ;}",
        wanted: "D1 { T: E T: N }-38",
    },
    Case {
        source: b"typedef int T; int f(void){goto T; T: ;}",
        wanted: "D1 { goto-T T: N }-40",
    },
    Case {
        source: b"typedef int T; struct T {T T;}; struct T x;",
        wanted: "D1 D0 D1",
    },
    Case {
        source: b"typedef int T; int f(void){for(int T=0;T;)T*x; T*x;}",
        wanted: "D1 { for-D1EN E D1 }-52",
    },
    Case {
        source: b"typedef int T; int f(void){for(;;){int T;} T*x;}",
        wanted: "D1 { for-NNN { D1 } D1 }-48",
    },
    Case {
        source: b"typedef int T; int f(void){if(sizeof(enum{T}))T; T*x;}",
        wanted: "D1 { (if E) D1 }-54",
    },
    Case {
        source: b"typedef int T; int f(void){if(sizeof(enum{T}))x; else if(T)T;else T; T*x;}",
        wanted: "D1 { (if E or E else E) D1 }-74",
    },
    Case {
        source: b"typedef int T; int f(void){if(a)sizeof(enum{T});else T*x;}",
        wanted: "no 1:54",
    },
    Case {
        source: b"typedef int T; int f(void){while(sizeof(enum{T}))T; T*x;}",
        wanted: "D1 { while E D1 }-57",
    },
    Case {
        source: b"typedef int T; int f(void){switch(sizeof(enum{T}))T; T*x;}",
        wanted: "D1 { switch E D1 }-58",
    },
    Case {
        source: b"typedef int T; int f(void){do sizeof(enum{T}); while(sizeof(T)); T*x;}",
        wanted: "D1 { do E while-48 D1 }-70",
    },
    Case {
        source: b"typedef int T; int f(void){L: sizeof(enum{T}); T*x;}",
        wanted: "D1 { L: E E }-52",
    },
    Case {
        source: b"typedef int T; int f(void){int x[sizeof(enum{T})]; T*x;}",
        wanted: "D1 { D1 E }-56",
    },
    Case {
        source: b"typedef int T; int f(int a[sizeof(enum{T})]){T*x;}",
        wanted: "D1 { E }-50",
    },
    Case {
        source: b"typedef int T; int f(int a[sizeof(enum{T})]); T*x;",
        wanted: "D1 D1 D1",
    },
    Case {
        source: b"typedef int T; int (*f(int T))(int U){T*x; return U;}",
        wanted: "D1 { E return-E }-53",
    },
    Case {
        source: b"typedef int T; typedef int U; int (*f(int T))(int U){U*x;}",
        wanted: "D1 D1 { D1 }-58",
    },
    Case {
        source: b"typedef int f(void); f g;",
        wanted: "D1 D1",
    },
    Case {
        source: b"int f(void){return 0;} int g(void){typedef int f; f x;}",
        wanted: "{ return-E }-22 { D1 D1 }-55",
    },
    Case {
        source: b"typedef int T; enum {T2 = sizeof(T)}; int f(void){enum {T}; T*x;}",
        wanted: "D1 D0 { D0 E }-65",
    },
    Case {
        source: b"typedef int T; int f(void){T T; T*x;}",
        wanted: "D1 { D1 E }-37",
    },
    Case {
        source: b"typedef int T; int f(void){unsigned T; T = 1;}",
        wanted: "D1 { D1 E }-46",
    },
    Case {
        source: b"typedef int T; int f(void){T = 1;}",
        wanted: "no 1:30",
    },
];

#[test]
fn externals(rt: HostRuntime) -> Result<(), Fail> {
    let alloc = rt.alloc();
    let found = unlike(alloc, &EXTERNALS)?;
    assert_eq!(rt; found.as_str(), "");
    Ok(())
}

#[test]
fn statements(rt: HostRuntime) -> Result<(), Fail> {
    let alloc = rt.alloc();
    let found = unlike(alloc, &STATEMENTS)?;
    assert_eq!(rt; found.as_str(), "");
    Ok(())
}

#[test]
fn ladders(rt: HostRuntime) -> Result<(), Fail> {
    let alloc = rt.alloc();
    let found = unlike(alloc, &LADDERS)?;
    assert_eq!(rt; found.as_str(), "");
    Ok(())
}

#[test]
fn scopes(rt: HostRuntime) -> Result<(), Fail> {
    let alloc = rt.alloc();
    let found = unlike(alloc, &SCOPES)?;
    assert_eq!(rt; found.as_str(), "");
    Ok(())
}
