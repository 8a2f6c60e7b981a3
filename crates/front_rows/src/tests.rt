ghost use Rattle.std.specs.Prelude.{◌≤◌, ◌^◌, length};

use front::{CompileFault, typed};
use std::alloc::Global;
use std::fmt::Write;
use std::process::Abort;
use std::test::Fail;

// Each source with `sound`, where no rule is broken, or with its first fault, as `NUMBER LINE:COLUMN`.

// Names and their scopes.
static NAMES: [(&[u8], &str); 38] = [
    (b"int a; int a; int main(void){return 0;}", "10 1:12"),
    (b"int a; int b; int main(void){return 0;}", "sound"),
    (b"int main(void){int a; int a; return 0;}", "10 1:27"),
    (b"int main(void){int a; {int a;} return 0;}", "sound"),
    (b"int a; int main(void){int a; return a;}", "sound"),
    (
        b"int f(int a){int a; return 0;} int main(void){return 0;}",
        "10 1:18",
    ),
    (
        b"int f(int a){{int a;} return 0;} int main(void){return 0;}",
        "sound",
    ),
    (b"int f(int a, int a); int main(void){return 0;}", "10 1:18"),
    (
        b"int f(int a); int g(int a); int main(void){return 0;}",
        "sound",
    ),
    (b"int puts; int main(void){return 0;}", "10 1:5"),
    (b"int EOF; int main(void){return 0;}", "10 1:5"),
    (b"int main(void){int free; return 0;}", "10 1:20"),
    (b"int f(int printf); int main(void){return 0;}", "10 1:11"),
    (
        b"struct puts {int EOF;}; int main(void){return 0;}",
        "sound",
    ),
    (
        b"struct a {int a;}; int a; int main(void){return 0;}",
        "sound",
    ),
    (
        b"struct s {int a;}; struct s {int b;}; int main(void){return 0;}",
        "10 1:27",
    ),
    (
        b"struct s {int a; int a;}; int main(void){return 0;}",
        "10 1:22",
    ),
    (
        b"struct s {int a;}; struct t {int a;}; int main(void){return 0;}",
        "sound",
    ),
    (b"int f(void); int f; int main(void){return 0;}", "10 1:18"),
    (b"int f; int f(void); int main(void){return 0;}", "10 1:12"),
    (
        b"int f(void){return 0;} int f(void){return 0;} int main(void){return 0;}",
        "10 1:28",
    ),
    (
        b"int f(void); int f(void); int f(void){return 0;} int f(void); int main(void){return 0;}",
        "sound",
    ),
    (
        b"int f(void); int f(int a); int main(void){return 0;}",
        "11 1:18",
    ),
    (
        b"int f(int a); int f(int *a); int main(void){return 0;}",
        "11 1:19",
    ),
    (
        b"int f(void); void f(void); int main(void){return 0;}",
        "11 1:19",
    ),
    (
        b"int f(void); long f(void); int main(void){return 0;}",
        "sound",
    ),
    (b"int f(); int f(void); int main(void){return 0;}", "sound"),
    (b"int main(void){return y;} int y;", "9 1:23"),
    (b"int y; int main(void){return y;}", "sound"),
    (b"int main(void){{int y;} return y;}", "9 1:32"),
    (
        b"int main(void){for(int i=0;i<3;i++){} return i;}",
        "9 1:46",
    ),
    (
        b"int main(void){int i; for(int i=0;i<3;i++){int i;} return i;}",
        "sound",
    ),
    (b"int main(void){int x = x; return 0;}", "sound"),
    (b"int a[sizeof a]; int main(void){return 0;}", "9 1:14"),
    (b"int f(void); int main(void){return f();}", "9 1:36"),
    (
        b"int f(void); int main(void){return f();} int f(void){return 1;}",
        "sound",
    ),
    (b"int f(void); int main(void){return 0;}", "sound"),
    (
        b"int main(void){return g();} int g(void){return 1;}",
        "9 1:23",
    ),
];

// Structs, Void, parameters and results.
static STRUCTS: [(&[u8], &str); 29] = [
    (b"struct s *p; int main(void){return 0;}", "9 1:8"),
    (
        b"struct s *p; struct s {int a;}; int main(void){return 0;}",
        "sound",
    ),
    (
        b"struct s x; struct s {int a;}; int main(void){return 0;}",
        "9 1:8",
    ),
    (
        b"struct s {struct s a;}; int main(void){return 0;}",
        "9 1:18",
    ),
    (
        b"struct s {struct s *a;}; int main(void){return 0;}",
        "sound",
    ),
    (
        b"struct s {int a[sizeof(struct s)];}; int main(void){return 0;}",
        "9 1:31",
    ),
    (
        b"struct s *p; int main(void){return p->a;} struct s {int a;};",
        "9 1:39",
    ),
    (
        b"struct s {int a;}; struct s *p; int main(void){return p->a;}",
        "sound",
    ),
    (
        b"struct s {int a;}; struct s *p; int main(void){return p->b;}",
        "9 1:58",
    ),
    (
        b"struct s *p; int main(void){return sizeof *p;} struct s {int a;};",
        "11 1:36",
    ),
    (
        b"struct s *p; int main(void){p = p + 1; p = &*p; p = &p[1]; p = malloc(1); return 0;} struct s {int a;};",
        "sound",
    ),
    (
        b"struct s {int a;}; struct s x; int main(void){return x.a;}",
        "sound",
    ),
    (
        b"struct s {int a;}; struct s x; int main(void){return x->a;}",
        "11 1:55",
    ),
    (
        b"struct s {int a;}; struct s *p; int main(void){return p.a;}",
        "11 1:56",
    ),
    (
        b"struct s {int a;}; struct s x; struct s y; int main(void){x = y; return 0;}",
        "11 1:61",
    ),
    (
        b"struct s {int a;}; struct s x; int main(void){x; return 0;}",
        "11 1:47",
    ),
    (b"void x; int main(void){return 0;}", "11 1:6"),
    (b"void *x; int main(void){return 0;}", "sound"),
    (b"struct s {void x;}; int main(void){return 0;}", "11 1:16"),
    (b"int f(void x); int main(void){return 0;}", "11 1:12"),
    (b"int f(int a, void); int main(void){return 0;}", "11 1:14"),
    (
        b"struct s {int a;}; int f(struct s x); int main(void){return 0;}",
        "11 1:35",
    ),
    (
        b"struct s {int a;}; int f(struct s *x); int main(void){return 0;}",
        "sound",
    ),
    (
        b"struct s {int a;}; struct s f(void); int main(void){return 0;}",
        "11 1:29",
    ),
    (
        b"struct s {int a;}; struct s *f(void); int main(void){return 0;}",
        "sound",
    ),
    (b"int f(int){return 0;} int main(void){return 0;}", "11 1:7"),
    (b"int f(int); int main(void){return 0;}", "sound"),
    (
        b"int f(pthread_mutex_t m); pthread_mutex_t g(void); int main(void){return 0;}",
        "sound",
    ),
    (
        b"int f(pthread_mutex_t m){return 0;} pthread_mutex_t m; int main(void){return f(m);}",
        "11 1:78",
    ),
];

// Lengths, and the sizes of objects.
static ARRAYS: [(&[u8], &str); 26] = [
    (b"int n; int a[n]; int main(void){return 0;}", "19 1:14"),
    (b"int a[3]; int main(void){return 0;}", "sound"),
    (b"int a[0]; int main(void){return 0;}", "11 1:5"),
    (b"int a[-1]; int main(void){return 0;}", "11 1:5"),
    (b"int a[1/0]; int main(void){return 0;}", "19 1:7"),
    (b"int a[1||1/0]; int main(void){return 0;}", "sound"),
    (b"int a[(1,2)]; int main(void){return 0;}", "19 1:7"),
    (b"int a['a']; int main(void){return 0;}", "sound"),
    (b"int a[EBUSY]; int main(void){return 0;}", "sound"),
    (b"int a[sizeof(int)]; int main(void){return 0;}", "sound"),
    (b"int a[(int)2]; int main(void){return 0;}", "sound"),
    (b"int a[1?2:3]; int main(void){return 0;}", "sound"),
    (b"int a[(int)NULL]; int main(void){return 0;}", "19 1:7"),
    (
        b"int a[2]; int b[sizeof a]; int c[sizeof b - 1]; int main(void){return 0;}",
        "sound",
    ),
    (
        b"int a[2]; int b[sizeof a - 2]; int main(void){return 0;}",
        "11 1:15",
    ),
    (b"int a[65536]; int main(void){return 0;}", "16 1:5"),
    (b"int a[65535]; int main(void){return 0;}", "sound"),
    (b"int a[256][256]; int main(void){return 0;}", "16 1:5"),
    (
        b"struct s {int a[65535]; int b;}; int main(void){return 0;}",
        "16 1:8",
    ),
    (
        b"struct s {int a[65535];}; int main(void){return 0;}",
        "sound",
    ),
    // The cells are those of all that is declared, and the struct's name stands before the doubled member.
    (
        b"struct s {int a; int a[65535];}; int main(void){return 0;}",
        "16 1:8",
    ),
    (b"int main(void){int a[65536]; return 0;}", "16 1:20"),
    (
        b"struct s {int a[40000];}; struct s x[2]; int main(void){return 0;}",
        "16 1:36",
    ),
    (b"int *a[65535]; int main(void){return 0;}", "sound"),
    (
        b"int a[9223372036854775807]; int main(void){return 0;}",
        "16 1:5",
    ),
    (
        b"int a[4294967296][4294967296]; int main(void){return 0;}",
        "16 1:5",
    ),
];

// What objects start as.
static STARTS: [(&[u8], &str); 35] = [
    (b"int a = 1; int main(void){return 0;}", "sound"),
    (b"int *p = 1; int main(void){return 0;}", "11 1:8"),
    (b"int *p = 0; int main(void){return 0;}", "sound"),
    (b"int *p = NULL; int main(void){return 0;}", "sound"),
    (b"int x; int *p = &x; int main(void){return 0;}", "sound"),
    (b"int v[2]; int *p = v; int main(void){return 0;}", "sound"),
    (
        b"int v[2]; int *p = v + 1; int main(void){return 0;}",
        "19 1:20",
    ),
    (b"int x; int y = x; int main(void){return 0;}", "19 1:16"),
    (
        b"int x; int *p = &x; int *q = p; int main(void){return 0;}",
        "19 1:30",
    ),
    (b"long *p; int **q = &p; int main(void){return 0;}", "sound"),
    (b"int *p = &5; int main(void){return 0;}", "12 1:10"),
    (b"int x = NULL; int main(void){return 0;}", "11 1:7"),
    (b"int a[2] = {1, 2}; int main(void){return 0;}", "sound"),
    (
        b"int a[2] = {1, 2, 3}; int main(void){return 0;}",
        "11 1:10",
    ),
    (b"int a[3] = {1}; int main(void){return 0;}", "sound"),
    (b"int a = {1}; int main(void){return 0;}", "sound"),
    (b"int a = {1, 2}; int main(void){return 0;}", "11 1:7"),
    (b"int a[2] = 1; int main(void){return 0;}", "11 1:10"),
    (
        b"struct s {int a; int *p;}; struct s x = {1, NULL}; int main(void){return 0;}",
        "sound",
    ),
    (
        b"struct s {int a; int *p;}; struct s x = {NULL, NULL}; int main(void){return 0;}",
        "11 1:39",
    ),
    (
        b"struct s {int a; int *p;}; struct s x = 1; int main(void){return 0;}",
        "11 1:39",
    ),
    (
        b"struct s {int a; int *p;}; struct s x = {1, NULL, 2}; int main(void){return 0;}",
        "11 1:39",
    ),
    (
        b"int a[2][2] = {{1, 2}, {3}}; int main(void){return 0;}",
        "sound",
    ),
    (
        b"int a[2][2] = {1, 2}; int main(void){return 0;}",
        "11 1:13",
    ),
    (
        b"pthread_mutex_t m = PTHREAD_MUTEX_INITIALIZER; pthread_cond_t c = PTHREAD_COND_INITIALIZER; int main(void){return 0;}",
        "sound",
    ),
    (
        b"pthread_cond_t c = PTHREAD_MUTEX_INITIALIZER; int main(void){return 0;}",
        "11 1:18",
    ),
    (
        b"int x = PTHREAD_MUTEX_INITIALIZER; int main(void){return 0;}",
        "11 1:7",
    ),
    (
        b"pthread_barrier_t b = PTHREAD_MUTEX_INITIALIZER; int main(void){return 0;}",
        "11 1:21",
    ),
    (
        b"pthread_mutex_t m = 0; int main(void){return 0;}",
        "11 1:19",
    ),
    (b"int x = 1/0; int main(void){return 0;}", "19 1:9"),
    (b"int x = 2*3; int main(void){return 0;}", "sound"),
    (b"int *p = malloc(1); int main(void){return 0;}", "19 1:10"),
    (
        b"int main(void){int x = 1; int y = x; int a[2] = {x, y}; return 0;}",
        "sound",
    ),
    (
        b"int main(void){int *p = malloc(1); int x = malloc(1); return 0;}",
        "20 1:44",
    ),
    (
        b"int main(void){int *p = {malloc(1)}; return 0;}",
        "20 1:26",
    ),
];

// `main`, and the first of several faults.
static MAINS: [(&[u8], &str); 12] = [
    (b"", "15 1:1"),
    (b"int f(void){return 0;}", "15 1:1"),
    (b"int main(void);", "15 1:1"),
    (b"int main(int a){return 0;}", "11 1:5"),
    (b"void main(void){}", "11 1:6"),
    (b"int main(){return 0;}", "sound"),
    (b"int main;", "11 1:5"),
    (b"long main(void){return 0;}", "sound"),
    (b"int x = y;", "9 1:9"),
    (b"int f(void){break;}", "11 1:13"),
    (b"int a = y; int b = z; int main(void){return 0;}", "9 1:9"),
    (b"int main(void){int puts = y; return 0;}", "10 1:20"),
];

// Operators.
static OPERATORS: [(&[u8], &str); 40] = [
    (b"x = x + 1", "sound"),
    (b"x = x + NULL", "11 2:22"),
    (b"x = p * 2", "11 2:22"),
    (b"x = x % 2", "sound"),
    (b"x = x << p", "11 2:22"),
    (b"x = x ^ 1 | x & 3", "sound"),
    (b"x = x < 1", "sound"),
    (b"x = p < q", "sound"),
    (b"x = p < r", "sound"),
    (b"x = p < v", "11 2:22"),
    (b"x = p < x", "11 2:22"),
    (b"x = p < 0", "sound"),
    (b"x = p < NULL", "sound"),
    (b"x = p == q", "sound"),
    (b"x = p == v", "sound"),
    (b"x = p == x", "11 2:22"),
    (b"x = p == 0", "sound"),
    (b"x = p != &t", "11 2:22"),
    (b"p = p + x", "sound"),
    (b"p = x + p", "sound"),
    (b"p = p - x", "sound"),
    (b"v = v + 1", "11 2:22"),
    (b"p = p + q", "11 2:22"),
    (b"x = x - p", "11 2:22"),
    (b"x = p - q", "sound"),
    (b"x = p - v", "11 2:22"),
    (b"x = v - v", "11 2:22"),
    (b"x = p - NULL", "sound"),
    (b"x = p - u", "11 2:22"),
    (b"x = !p", "sound"),
    (b"x = !t", "11 2:20"),
    (b"x = -x", "sound"),
    (b"x = -p", "11 2:20"),
    (b"x = ~p", "11 2:20"),
    (b"x = p && x", "sound"),
    (b"x = t && x", "11 2:22"),
    (b"x = x ? 1 : 2", "sound"),
    (b"p = x ? p : NULL", "sound"),
    (b"v = x ? p : v", "sound"),
    (b"x = x ? p : 1", "11 2:22"),
];

// Assignments, casts, places.
static ASSIGNMENTS: [(&[u8], &str); 42] = [
    (b"p = x ? p : 0", "sound"),
    (b"x = t ? 1 : 2", "11 2:22"),
    (b"x = p", "11 2:18"),
    (b"p = x", "11 2:18"),
    (b"p = v", "sound"),
    (b"v = p", "sound"),
    (b"p = 0", "sound"),
    (b"p = NULL", "sound"),
    (b"p = 1", "11 2:18"),
    (b"p = '\\0'", "11 2:18"),
    (b"p = &t", "11 2:18"),
    (b"x += 1", "sound"),
    (b"p += 1", "sound"),
    (b"p -= x", "sound"),
    (b"p *= 2", "11 2:18"),
    (b"v += 1", "11 2:18"),
    (b"a = p", "11 2:18"),
    (b"t = t", "11 2:18"),
    (b"x = (int)p", "sound"),
    (b"p = (int *)x", "sound"),
    (b"p = (int *)v", "sound"),
    (b"x = (int)t", "11 2:20"),
    (b"(void)x", "11 2:16"),
    (b"(struct s)x", "11 2:16"),
    (b"p = a", "sound"),
    (b"x = a[1]", "sound"),
    (b"x = 1[a]", "sound"),
    (b"x = x[1]", "11 2:21"),
    (b"x = *a", "sound"),
    (b"x = *x", "11 2:20"),
    (b"x = *v", "11 2:20"),
    (b"p = &x", "sound"),
    (b"p = &5", "12 2:20"),
    (b"p = &(x + 1)", "12 2:20"),
    (b"p = &(x)", "sound"),
    (b"p = &a[1]", "sound"),
    (b"p = &f(1)", "12 2:20"),
    (b"p = &f(1).m", "12 2:20"),
    (b"p = &(*u).m", "sound"),
    (b"p = &(y + 1)", "12 2:20"),
    (b"x++", "sound"),
    (b"++p", "sound"),
];

// Values, names and texts.
static VALUES: [(&[u8], &str); 40] = [
    (b"v++", "11 2:17"),
    (b"++5", "12 2:16"),
    (b"++f.m", "12 2:16"),
    (b"a++", "11 2:17"),
    (b"5++", "12 2:17"),
    (b"1 = 2", "12 2:18"),
    (b"(x + 1) = 2", "12 2:24"),
    (b"(x) = 1", "sound"),
    (b"x = sizeof x", "sound"),
    (b"x = sizeof t", "sound"),
    (b"x = sizeof(void)", "11 2:20"),
    (b"x, p", "sound"),
    (b"x, t", "11 2:19"),
    (b"mu", "11 2:16"),
    (b"u->m = t.m", "sound"),
    (b"t.k = 1", "9 2:18"),
    (b"y", "9 2:16"),
    (b"y + 1", "9 2:16"),
    (b"p * y", "11 2:18"),
    (b"main", "13 2:16"),
    (b"puts", "11 2:16"),
    (b"f", "sound"),
    (b"x()", "11 2:16"),
    (b"x = EOF", "sound"),
    (b"EOF()", "11 2:16"),
    (b"&EOF", "12 2:16"),
    (b"\"abc\"", "13 2:16"),
    (b"puts(\"abc\")", "sound"),
    (b"puts(x)", "20 2:21"),
    (b"puts((\"abc\"))", "20 2:21"),
    (b"printf(\"%d\\n\", x)", "sound"),
    (b"printf(\"%d\")", "13 2:16"),
    (b"printf(\"x\", x)", "13 2:16"),
    (b"printf(\"%%\")", "sound"),
    (b"printf(\"%c%i%ld%li%lld%lli\", x, x, x, x, x, x)", "sound"),
    (b"printf(\"%s\", p)", "20 2:23"),
    (b"printf(x)", "20 2:23"),
    (b"printf()", "13 2:16"),
    (b"printf(\"%d\", \"a\")", "13 2:29"),
    (b"printf(\"%d\", p)", "11 2:16"),
];

// Calls.
static CALLS: [(&[u8], &str); 40] = [
    (b"main()", "13 2:16"),
    (b"f(1)", "sound"),
    (b"f()", "13 2:16"),
    (b"f(1, 2)", "13 2:16"),
    (b"f(p)", "11 2:16"),
    (b"f(sizeof x)", "sound"),
    (b"pthread_join(x)", "13 2:16"),
    (b"pthread_join(x, NULL)", "sound"),
    (b"pthread_join(x, &v)", "sound"),
    (b"pthread_join(x, &x)", "11 2:16"),
    (b"pthread_mutex_lock(&mu)", "sound"),
    (b"pthread_mutex_lock(mu)", "11 2:16"),
    (b"pthread_mutex_lock(&x)", "11 2:16"),
    (b"pthread_create(&x, NULL, w, NULL)", "sound"),
    (b"pthread_create(&x, p, w, NULL)", "20 2:35"),
    (b"pthread_create(&x, 0, w, p)", "sound"),
    (b"pthread_create(&x, (NULL), w, NULL)", "sound"),
    (b"pthread_create(&x, NULL, f, NULL)", "14 2:41"),
    (b"pthread_create(&x, NULL, main, NULL)", "14 2:41"),
    (b"pthread_create(&x, NULL, (w), NULL)", "14 2:41"),
    (b"pthread_create(&x, NULL, y, NULL)", "9 2:41"),
    (b"pthread_create(&x, NULL, n, NULL)", "9 2:41"),
    (b"pthread_create(&x, NULL, NULL, NULL)", "14 2:41"),
    (b"pthread_create(&x, NULL, puts, NULL)", "14 2:41"),
    (b"pthread_create(x, NULL, w, NULL)", "11 2:16"),
    (b"pthread_mutex_init(&mu, NULL)", "sound"),
    (b"pthread_mutex_init(&mu, &x)", "20 2:40"),
    (b"p = malloc(1)", "sound"),
    (b"p = (malloc(1))", "sound"),
    (b"v = malloc(1)", "20 2:20"),
    (b"x = malloc(1)", "20 2:20"),
    (b"x = (int)(int *)malloc(1)", "sound"),
    (b"p = (int *)malloc(1)", "sound"),
    (b"malloc(1)", "20 2:16"),
    (b"p = x ? malloc(1) : NULL", "20 2:24"),
    (b"p += malloc(1)", "20 2:21"),
    (b"p = malloc()", "13 2:20"),
    (b"p = malloc(q)", "11 2:20"),
    (b"free(p); free(v)", "sound"),
    (b"free(x)", "11 2:16"),
];

// Statements.
static STATEMENTS: [(&[u8], &str); 14] = [
    (
        b"int *g(void){return malloc(1);} int main(void){return 0;}",
        "20 1:21",
    ),
    (b"int main(void){break; return 0;}", "11 1:16"),
    (b"int main(void){continue; return 0;}", "11 1:16"),
    (b"int main(void){while(1){continue;} return 0;}", "sound"),
    (
        b"int main(void){while(1){break;} break; return 0;}",
        "11 1:33",
    ),
    (
        b"int main(void){do{if(1)break;}while(1); return 0;}",
        "sound",
    ),
    (b"int f(void){return;} int main(void){return 0;}", "sound"),
    (
        b"void f(void){return 1;} int main(void){return 0;}",
        "11 1:14",
    ),
    (b"void f(void){return;} int main(void){return 0;}", "sound"),
    (
        b"int *f(void){return 1;} int main(void){return 0;}",
        "11 1:14",
    ),
    (
        b"int *f(void){return 0;} int main(void){return 0;}",
        "sound",
    ),
    (
        b"int f(void){return NULL;} int main(void){return 0;}",
        "11 1:13",
    ),
    (
        b"void *f(int *p){return p;} int main(void){return 0;}",
        "sound",
    ),
    (
        b"int f(void){return y;} int main(void){return 0;}",
        "9 1:20",
    ),
];

// Statements.
static STATEMENTS_IN: [(&[u8], &str); 12] = [
    (b"if(x){}", "sound"),
    (b"if(t){}", "11 2:16"),
    (b"while(p){}", "sound"),
    (b"while(t){}", "11 2:16"),
    (b"do{}while(t)", "11 2:16"),
    (b"do{}while(p)", "sound"),
    (b"for(;t;){}", "11 2:16"),
    (b"for(;;){break;}", "sound"),
    (b"for(t;;){break;}", "11 2:20"),
    (b"for(;;t){break;}", "11 2:22"),
    (b";", "sound"),
    (b"if(x) p = q; else y", "9 2:34"),
];

// What stands before the statements of the inner tables.
static FRONT: &[u8] =
    b"int x; int *p; int *q; long *r; void *v; int a[3]; struct s {int m;}; struct s t; struct s *u; pthread_mutex_t mu; int f(int i){return i;} void *w(void *i){return i;} void *n(void *i);\nint main(void){";

fn shown(alloc: Global, text: &[u8]) -> Result<String, Fail>
    requires { length text.now ≤ 2 ^ 20 }
{
    let mut out = String::new(alloc);
    match typed(alloc, text) {
        Ok(_) => out.push_str("sound")?,
        Err(CompileFault::Source(fault)) => write!(
            out,
            "{} {}:{}",
            fault.number, fault.at.line, fault.at.column
        )?,
        Err(CompileFault::OutOfMemory) => out.push_str("no memory")?,
    }
    Ok(out)
}

fn check_rows(rt: &impl Abort, alloc: Global, rows: &[(&[u8], &str)]) -> Result<(), Fail> {
    for row in rows {
        assert!(rt; row.0.len() < 2000);
        let found = shown(alloc, row.0)?;
        assert_eq!(rt; found.as_str(), row.1, "at {:?}", row.0);
    }
    Ok(())
}

// Statements, each in `main` after the same declarations.
fn check_inner(rt: &impl Abort, alloc: Global, rows: &[(&[u8], &str)]) -> Result<(), Fail> {
    for row in rows {
        let mut text = Vec::new(alloc);
        text.extend_from_slice(FRONT)?;
        text.extend_from_slice(row.0)?;
        text.extend_from_slice(b"; return 0;}")?;
        assert!(rt; text.len() < 2000);
        let found = shown(alloc, text.as_slice())?;
        assert_eq!(rt; found.as_str(), row.1, "at {:?}", row.0);
    }
    Ok(())
}

#[test]
fn tells_names(rt: HostRuntime) -> Result<(), Fail> {
    check_rows(&rt, rt.alloc(), &NAMES)
}

#[test]
fn tells_structs(rt: HostRuntime) -> Result<(), Fail> {
    check_rows(&rt, rt.alloc(), &STRUCTS)
}

#[test]
fn tells_arrays(rt: HostRuntime) -> Result<(), Fail> {
    check_rows(&rt, rt.alloc(), &ARRAYS)
}

#[test]
fn tells_starts(rt: HostRuntime) -> Result<(), Fail> {
    check_rows(&rt, rt.alloc(), &STARTS)
}

#[test]
fn tells_mains(rt: HostRuntime) -> Result<(), Fail> {
    check_rows(&rt, rt.alloc(), &MAINS)
}

#[test]
fn tells_operators(rt: HostRuntime) -> Result<(), Fail> {
    check_inner(&rt, rt.alloc(), &OPERATORS)
}

#[test]
fn tells_assignments(rt: HostRuntime) -> Result<(), Fail> {
    check_inner(&rt, rt.alloc(), &ASSIGNMENTS)
}

#[test]
fn tells_values(rt: HostRuntime) -> Result<(), Fail> {
    check_inner(&rt, rt.alloc(), &VALUES)
}

#[test]
fn tells_calls(rt: HostRuntime) -> Result<(), Fail> {
    check_inner(&rt, rt.alloc(), &CALLS)
}

#[test]
fn tells_statements(rt: HostRuntime) -> Result<(), Fail> {
    check_rows(&rt, rt.alloc(), &STATEMENTS)?;
    check_inner(&rt, rt.alloc(), &STATEMENTS_IN)
}

// Seventeen arrays of the greatest size, one on each line.
#[test]
fn counts_the_cells_of_globals(rt: HostRuntime) -> Result<(), Fail> {
    let mut text = String::new(rt.alloc());
    for number in 1..18 {
        writeln!(text, "int a{number}[65535];")?;
    }
    text.push_str("int main(void){return 0;}")?;
    assert!(rt; text.len() < 2000);
    let found = shown(rt.alloc(), text.as_str().as_bytes())?;
    assert_eq!(rt; found.as_str(), "18 17:5");
    Ok(())
}

// So many globals, one on each line.
fn check_sites(rt: &impl Abort, alloc: Global, many: u32, answer: &str) -> Result<(), Fail> {
    let mut text = String::new(alloc);
    for number in 0..many {
        writeln!(text, "int a{number};")?;
    }
    text.push_str("int main(void){return 0;}")?;
    assert!(rt; text.len() < 20_000);
    let found = shown(alloc, text.as_str().as_bytes())?;
    assert_eq!(rt; found.as_str(), answer);
    Ok(())
}

#[test]
fn counts_the_sites(rt: HostRuntime) -> Result<(), Fail> {
    check_sites(&rt, rt.alloc(), 1023, "sound")?;
    check_sites(&rt, rt.alloc(), 1024, "17 1024:5")
}
