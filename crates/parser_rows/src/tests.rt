ghost use Rattle.std.specs.Prelude.{◌<◌, ◌^◌, length};

use c_lexer::tokens;
use c_parser::{ParseFault, parse};
use std::alloc::Global;
use std::fmt::Write;
use std::process::Abort;
use std::test::Fail;

// Each source with `tree`, where it is one, or with its first fault, as `KIND LINE:COLUMN`.
static OUTER: [(&[u8], &str); 49] = [
    (b"", "tree"),
    (b" \n", "tree"),
    // Faults and their places.
    (b"int main(void){switch(0){}}", "OutOfProfile 1:16"),
    (b"int main(void){return 1;\n", "Syntax 1:25"),
    (b"int main(void){return 1;}\n}", "Syntax 2:1"),
    (b"unsigned x;", "OutOfProfile 1:1"),
    (b"int unsigned;", "OutOfProfile 1:5"),
    (b"int", "Syntax 1:4"),
    (b"3", "Syntax 1:1"),
    (b";", "Syntax 1:1"),
    (b"int x; // end", "tree"),
    (b"int x // end", "Syntax 1:6"),
    // Specifiers.
    (b"int a;", "tree"),
    (b"long a;", "tree"),
    (b"long int a;", "tree"),
    (b"long long a;", "tree"),
    (b"long long int a;", "tree"),
    (b"long long long a;", "Syntax 1:11"),
    (b"int long a;", "Syntax 1:5"),
    (b"long int long a;", "Syntax 1:10"),
    (b"void *a;", "tree"),
    (b"struct s a;", "tree"),
    (b"struct a;", "Syntax 1:9"),
    (b"struct;", "Syntax 1:7"),
    (b"pthread_t a;", "tree"),
    (b"pthread_mutex_t a;", "tree"),
    (b"pthread_cond_t a;", "tree"),
    (b"pthread_barrier_t a;", "tree"),
    // Structs.
    (b"struct s { int a; };", "tree"),
    (b"struct s { int a, *b[3]; long c; };", "tree"),
    (b"struct s { };", "Syntax 1:12"),
    (b"struct s { int a; }", "Syntax 1:20"),
    (b"struct s { int a; } x;", "Syntax 1:21"),
    (b"struct s { int a = 1; };", "Syntax 1:18"),
    (b"static struct s { int a; };", "Syntax 1:17"),
    (b"struct s { int a };", "Syntax 1:18"),
    // Functions and parameters.
    (b"int f();", "tree"),
    (b"int f(void);", "tree"),
    (b"int f(void *);", "tree"),
    (b"int f(void, int);", "tree"),
    (b"int f(int a, struct s *b);", "tree"),
    (b"int f(int,);", "Syntax 1:11"),
    (b"int f(,int);", "Syntax 1:7"),
    (b"int f(a);", "Syntax 1:7"),
    (b"int f(int a[]);", "Syntax 1:12"),
    (b"static void *f(void *a) {}", "tree"),
    (b"int f() {};", "Syntax 1:11"),
    (b"int f(), g();", "Syntax 1:8"),
    (b"int *f(void) { return 0; } int g;", "tree"),
];

static OBJECTS: [(&[u8], &str); 16] = [
    // Objects, declarators and initials.
    (b"static int a = 1, *b, c[2][3];", "tree"),
    (b"int a[];", "Syntax 1:7"),
    (b"int a[1, 2];", "Syntax 1:8"),
    (b"int a[b ? 1 : 2];", "tree"),
    (b"int *;", "Syntax 1:6"),
    (b"int a,;", "Syntax 1:7"),
    (b"int a = 1, 2;", "Syntax 1:12"),
    (b"int a[2] = {1, 2};", "tree"),
    (b"int a[2] = {1, 2,};", "tree"),
    (b"int a[2] = {1, 2,,};", "Syntax 1:18"),
    (b"int a[2] = {};", "Syntax 1:13"),
    (b"int a[2] = {{1}, {2,},};", "tree"),
    (b"int a = (1, 2);", "tree"),
    (b"pthread_mutex_t m = PTHREAD_MUTEX_INITIALIZER;", "tree"),
    (b"pthread_cond_t c[1] = {PTHREAD_COND_INITIALIZER};", "tree"),
    (b"int a = PTHREAD_MUTEX_INITIALIZER + 1;", "Syntax 1:35"),
];

static POINTERS: [(&[u8], &str); 22] = [
    // Pointers to functions.
    (b"int (*f)(int) = g, *x, (*h)();", "tree"),
    (b"static void **(*f)(void *, int *a) = 0;", "tree"),
    (b"struct s { int (*f)(int), x; };", "tree"),
    (b"int f(int (*g)(int (*)(void)), long);", "Syntax 1:22"),
    (b"int f(int (*g)(int (*h)(void)), long);", "tree"),
    (b"int f(void (*g)(void));", "tree"),
    (b"int f(void, void (*g)());", "tree"),
    (b"void f(){int *(*g)(int) = {h}, (*i)(void);}", "tree"),
    (b"void f(){for(int (*g)(int) = 0;;);}", "tree"),
    (b"int (*f)(int) = g", "Syntax 1:18"),
    (b"int (*f)(int) {}", "Syntax 1:15"),
    (b"int (*f)(int)[2];", "Syntax 1:14"),
    (b"int (*f)(int)(int);", "Syntax 1:14"),
    (b"int (*f)[3];", "Syntax 1:9"),
    (b"int (*f[3])(int);", "Syntax 1:8"),
    (b"int (**f)(int);", "Syntax 1:7"),
    (b"int (f)(int);", "Syntax 1:6"),
    (b"int (*f);", "Syntax 1:9"),
    (b"int (*f(int a))(int) {}", "Syntax 1:8"),
    (b"int f(int (*)(int));", "Syntax 1:13"),
    (b"void f(){int x = (int (*)(int))0;}", "Syntax 1:23"),
    (b"void f(){(*g)(1);}", "Syntax 1:14"),
];

static STATEMENTS: [(&[u8], &str); 30] = [
    // Statements.
    (b"void f(){;}", "tree"),
    (b"void f(){{}}", "tree"),
    (b"void f(){int a; a = 1; int b;}", "tree"),
    (b"void f(){break;}", "tree"),
    (b"void f(){break}", "Syntax 1:15"),
    (b"void f(){continue;}", "tree"),
    (b"void f(){return;}", "tree"),
    (b"void f(){return int;}", "Syntax 1:17"),
    (b"void f(){if(a)b;}", "tree"),
    (b"void f(){if(a)b;else c;}", "tree"),
    (b"void f(){if(a)if(b)c;else d;}", "tree"),
    (b"void f(){if(a)if(b)c;else d;else e;}", "tree"),
    (b"void f(){if(a)b;else c;else d;}", "Syntax 1:24"),
    (b"void f(){if(a){}else;}", "tree"),
    (b"void f(){if(a)int b;}", "Syntax 1:15"),
    (b"void f(){if a;}", "Syntax 1:13"),
    (b"void f(){else;}", "Syntax 1:10"),
    (b"void f(){while(a)b;}", "tree"),
    (b"void f(){while()b;}", "Syntax 1:16"),
    (b"void f(){do a;while(b);}", "tree"),
    (b"void f(){do a;while(b)}", "Syntax 1:23"),
    (b"void f(){do if(a)b;else c;while(d);}", "tree"),
    (b"void f(){for(;;);}", "tree"),
    (b"void f(){for(a;b;c)d;}", "tree"),
    (b"void f(){for(int i=0;i<9;++i){}}", "tree"),
    (b"void f(){for(int i;;)if(a)b;else c;}", "tree"),
    (b"void f(){for(;;)}", "Syntax 1:17"),
    (b"void f(){for(a;b)c;}", "Syntax 1:17"),
    (b"void f(){a:b;}", "Syntax 1:11"),
    (b"void f(){goto a;}", "OutOfProfile 1:10"),
];

static EXPRESSIONS: [(&[u8], &str); 26] = [
    // Expressions.
    (b"int a = 1 + 2 * 3 - 4 / 5 % 6;", "tree"),
    (
        b"int a = b || c && d | e ^ f & g == h != i < j > k <= l >= m << n >> o;",
        "tree",
    ),
    (b"int a = b = c += d;", "tree"),
    (b"int a = b + c = d;", "tree"),
    (b"int a = b ? c, d : e ? f : g;", "tree"),
    (b"int a = b ? c = d : e;", "tree"),
    (b"int a = b ? c : d = e;", "tree"),
    (b"int a = b ? c;", "Syntax 1:14"),
    (b"int a = - - ! ~ * & ++ -- b;", "tree"),
    (b"int a = sizeof b;", "tree"),
    (b"int a = sizeof(int);", "tree"),
    (b"int a = sizeof(int)b;", "Syntax 1:20"),
    (b"int a = sizeof(b)[1];", "tree"),
    (b"int a = sizeof(b) + 1;", "tree"),
    (b"int a = sizeof int;", "Syntax 1:16"),
    (b"int a = (long *)(void *)b;", "tree"),
    (b"int a = (int)-b;", "tree"),
    (b"int a = b[1].c->d++--;", "tree"),
    (b"int a = b.1;", "Syntax 1:11"),
    (b"int a = b(c, d)(e);", "Syntax 1:16"),
    (b"int a = b(c,);", "Syntax 1:13"),
    (b"int a = b();", "tree"),
    (b"int a = (b)(c);", "Syntax 1:12"),
    (b"int a = ();", "Syntax 1:10"),
    (b"int a = 'x' + \"y\" + NULL;", "tree"),
    (b"int a = b +;", "Syntax 1:12"),
];

fn write_fault(out: &mut String, fault: ParseFault) -> Result<(), Fail> {
    let (kind, line, column) = match fault {
        ParseFault::Syntax { at } => ("Syntax", at.line, at.column),
        ParseFault::Nesting { at } => ("Nesting", at.line, at.column),
        ParseFault::OutOfProfile { at } => ("OutOfProfile", at.line, at.column),
        ParseFault::OutOfMemory => ("OutOfMemory", 0, 0),
    };
    write!(out, "{kind} {line}:{column}")?;
    Ok(())
}

fn shown(alloc: Global, text: &[u8]) -> Result<String, Fail>
    requires { length text.now < 3000 }
{
    let mut out = String::new(alloc);
    match tokens(alloc, text) {
        Ok(found) => match parse(alloc, &found) {
            Ok(_) => out.push_str("tree")?,
            Err(fault) => write_fault(&mut out, fault)?,
        },
        Err(_) => out.push_str("no tokens")?,
    }
    Ok(out)
}

fn check_rows(rt: &impl Abort, alloc: Global, mut rows: &[(&[u8], &str)]) -> Result<(), Fail> {
    while let [row, rest @ ..] = rows {
        assert!(rt; row.0.len() < 3000);
        let found = shown(alloc, row.0)?;
        assert_eq!(rt; found.as_str(), row.1, "at {:?}", row.0);
        rows = rest;
    }
    Ok(())
}

#[test]
fn reads_the_outermost_level(rt: HostRuntime) -> Result<(), Fail> {
    check_rows(&rt, rt.alloc(), &OUTER)
}

#[test]
fn reads_objects(rt: HostRuntime) -> Result<(), Fail> {
    check_rows(&rt, rt.alloc(), &OBJECTS)
}

#[test]
fn reads_pointers_to_functions(rt: HostRuntime) -> Result<(), Fail> {
    check_rows(&rt, rt.alloc(), &POINTERS)
}

#[test]
fn reads_statements(rt: HostRuntime) -> Result<(), Fail> {
    check_rows(&rt, rt.alloc(), &STATEMENTS)
}

#[test]
fn reads_expressions(rt: HostRuntime) -> Result<(), Fail> {
    check_rows(&rt, rt.alloc(), &EXPRESSIONS)
}

// A function that returns 0 in so many parentheses.
fn check_depth(rt: &impl Abort, alloc: Global, depth: usize, answer: &str) -> Result<(), Fail> {
    let mut text = Vec::new(alloc);
    text.extend_from_slice(b"int main(void){return ")?;
    for _ in 0..depth {
        text.push(b'(')?;
    }
    text.push(b'0')?;
    for _ in 0..depth {
        text.push(b')')?;
    }
    text.extend_from_slice(b";}")?;
    assert!(rt; text.len() < 3000);
    let found = shown(alloc, text.as_slice())?;
    assert_eq!(rt; found.as_str(), answer);
    Ok(())
}

#[test]
fn goes_to_the_limit(rt: HostRuntime) -> Result<(), Fail> {
    check_depth(&rt, rt.alloc(), 254, "tree")?;
    check_depth(&rt, rt.alloc(), 255, "Nesting 1:278")
}

// A function with so many pointers to functions in one another's parameters.
fn check_pointers(rt: &impl Abort, alloc: Global, depth: usize, answer: &str) -> Result<(), Fail> {
    let mut text = Vec::new(alloc);
    text.extend_from_slice(b"int f(")?;
    for _ in 0..depth {
        text.extend_from_slice(b"int(*a)(")?;
    }
    for _ in 0..depth {
        text.push(b')')?;
    }
    text.extend_from_slice(b");")?;
    assert!(rt; text.len() < 3000);
    let found = shown(alloc, text.as_slice())?;
    assert_eq!(rt; found.as_str(), answer);
    Ok(())
}

#[test]
fn nests_parameters_to_the_limit(rt: HostRuntime) -> Result<(), Fail> {
    check_pointers(&rt, rt.alloc(), 256, "tree")?;
    check_pointers(&rt, rt.alloc(), 257, "Nesting 1:2062")
}
