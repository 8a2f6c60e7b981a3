ghost use Rattle.std.specs.Prelude.{◌≤◌, ◌^◌, length};

use c_sites::FunctionInfo;
use front::typed;
use rr_base::{Bytes, CellKind, Site};
use std::alloc::Global;
use std::fmt::Write;
use std::test::Fail;

// Sources with their sites: each one's name, size and element size, and the kinds of its cells.
static SITES: [(&[u8], &str); 12] = [
    (b"int x; int main(void){return 0;}", "x 1/1 W; "),
    (
        b"struct p {int a; int *q;}; struct p v[3]; int main(void){return 0;}",
        "v 6/2 WPWPWP; ",
    ),
    (
        b"int a[2][3]; int *b[2]; pthread_mutex_t m; pthread_cond_t c[2]; pthread_barrier_t r; pthread_rwlock_t w; struct s {pthread_mutex_t l; int n[2];}; struct s t; int main(void){return 0;}",
        "a 6/1 WWWWWW; b 2/1 PP; m 1/1 M; c 2/1 CC; r 1/1 B; w 1/1 R; t 3/3 MWW; ",
    ),
    (
        b"int main(void){int a; int b; int *p = &b; return 0;}",
        "main.b@1:27 1/1 W; ",
    ),
    (
        b"int main(void){int a; {int a; &a;} return a;}",
        "main.a@1:28 1/1 W; ",
    ),
    (
        b"int main(void){int a; {int a; a = 1;} sizeof &(a); return a;}",
        "main.a@1:20 1/1 W; ",
    ),
    (
        b"int f(int a, int b){return *&a;} int main(void){int *p; int v[2]; struct s *q; return 0;} struct s {int m;};",
        "f.a@1:11 1/1 W; main.v@1:61 2/1 WW; ",
    ),
    (
        b"int main(void){int *p = malloc(3); p = (int *)(malloc(1)); return 0;}",
        "malloc@1:25 1/1 W; malloc@1:48 1/1 W; ",
    ),
    (
        b"struct p {int a; int *b;}; int main(void){struct p *q = malloc(2); struct p **r = &q; return 0;}",
        "main.q@1:53 1/1 P; malloc@1:57 2/2 WP; ",
    ),
    (
        b"int main(void){for(int i=0;i<3;i++){int *p = &i;} for(int i=0;i<3;i++){} return 0;}",
        "main.i@1:24 1/1 W; ",
    ),
    (
        b"int x = 0; int main(void){int y[2]; int *z = &x; return 0;} int w; int f(int v); pthread_t t;",
        "x 1/1 W; main.y@1:31 2/1 WW; w 1/1 W; t 1/1 W; ",
    ),
    (
        b"int main(void){if(1){int a; &a;}else{int a; a = 2;} while(0){int a; int b; &b;} return 0;}",
        "main.a@1:26 1/1 W; main.b@1:73 1/1 W; ",
    ),
];

// Sources with their functions: each one's name, how many formals and registers it has, and whether a thread begins with
// it.
static FUNCTIONS: [(&[u8], &str); 8] = [
    (b"int main(void){return 0;}", "main 0/0 root; "),
    (
        b"int f(int a); int main(void){return f(1);} int f(int b){return b;}",
        "main 0/0 root; f 1/1; ",
    ),
    (
        b"void *w(void *p){int a; int b[2]; &a; return p;} int f(int i, int j){return i;} int main(void){long t; pthread_create(&t,NULL,w,NULL); return f(1,2);}",
        "w 1/1 root; f 2/2; main 0/0 root; ",
    ),
    (
        b"void *w(void *p){return p;} int main(void){long t; sizeof pthread_create(&t,NULL,w,NULL); return 0;}",
        "w 1/1; main 0/0 root; ",
    ),
    (
        b"void *w(void *p){return p;} void *v(void *p){long t; if(0){int c = pthread_create(&t,NULL,w,p);} return p;} int main(void){return 0;}",
        "w 1/1 root; v 1/2; main 0/0 root; ",
    ),
    (
        b"int g(int a){for(int i=0;i<3;i++){int j; j=a;} while(0){int k; &k; int *l; l=&a;} return a;} int main(void){return 0;}",
        "g 1/3; main 0/0 root; ",
    ),
    (
        b"struct s {int a;}; int f(pthread_mutex_t *m, struct s *p){struct s v; v.a = 1; return v.a;} int main(void){return 0;}",
        "f 2/2; main 0/0 root; ",
    ),
    (
        b"int x; void f(void){pthread_mutex_t m; int y; { int y; &y; } y = 1;} int main(){int a = 1; return a;}",
        "f 0/1; main 0/1 root; ",
    ),
];

fn letter_of(kind: CellKind) -> u8 {
    match kind {
        CellKind::Whole => b'W',
        CellKind::Pointer => b'P',
        CellKind::Mutex => b'M',
        CellKind::Cond => b'C',
        CellKind::Barrier => b'B',
        CellKind::Rw => b'R',
    }
}

fn push_site(alloc: Global, out: &mut Bytes, site: &Site) -> Result<(), Fail> {
    let mut sizes = String::new(alloc);
    write!(sizes, " {}/{} ", site.layout.size, site.layout.element)?;
    out.extend_from_slice(site.name.as_slice())?;
    out.extend_from_slice(sizes.as_str().as_bytes())?;
    for kind in site.layout.kinds.as_slice() {
        out.push(letter_of(*kind))?;
    }
    out.extend_from_slice(b"; ")?;
    Ok(())
}

fn sites_shown(alloc: Global, text: &[u8]) -> Result<Bytes, Fail>
    requires { length text.now ≤ 2 ^ 20 }
{
    let mut out = Bytes::new(alloc);
    if let Ok(found) = typed(alloc, text) {
        for site in found.sites().as_slice() {
            push_site(alloc, &mut out, site)?;
        }
    }
    Ok(out)
}

#[test]
fn lists_the_sites(rt: HostRuntime) -> Result<(), Fail> {
    for row in SITES.as_slice() {
        assert!(rt; row.0.len() < 2000);
        let found = sites_shown(rt.alloc(), row.0)?;
        assert_eq!(rt; found.as_slice(), row.1.as_bytes(), "at {:?}", row.0);
    }
    Ok(())
}

fn push_function(alloc: Global, out: &mut Bytes, function: &FunctionInfo) -> Result<(), Fail> {
    let mut counts = String::new(alloc);
    write!(counts, " {}/{}", function.formals, function.registers)?;
    out.extend_from_slice(function.name.as_slice())?;
    out.extend_from_slice(counts.as_str().as_bytes())?;
    if function.is_root {
        out.extend_from_slice(b" root")?;
    }
    out.extend_from_slice(b"; ")?;
    Ok(())
}

fn functions_shown(alloc: Global, text: &[u8]) -> Result<Bytes, Fail>
    requires { length text.now ≤ 2 ^ 20 }
{
    let mut out = Bytes::new(alloc);
    if let Ok(found) = typed(alloc, text) {
        for function in found.functions().as_slice() {
            push_function(alloc, &mut out, function)?;
        }
    }
    Ok(out)
}

#[test]
fn lists_the_functions(rt: HostRuntime) -> Result<(), Fail> {
    for row in FUNCTIONS.as_slice() {
        assert!(rt; row.0.len() < 2000);
        let found = functions_shown(rt.alloc(), row.0)?;
        assert_eq!(rt; found.as_slice(), row.1.as_bytes(), "at {:?}", row.0);
    }
    Ok(())
}
