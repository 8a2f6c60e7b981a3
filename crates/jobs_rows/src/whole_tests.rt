// Two sources that hold nearly every construct of the language and every call of the library, their logs, and what they print.

use crate::checks::check_files;
use samples::shelves::REPLAY;
use std::alloc::Global;
use std::process::Abort;
use std::sync::Wait;
use std::test::Fail;
use std::thread::Threads;
use std::time::Clock;

// Declarations, scopes, initials, operators, statements, pointers, members and prints, on one thread.
const EVERY_CONSTRUCT: &str = "#include <stdio.h>
#include <stdlib.h>
#include <pthread.h>
#define N 3
#define M -2
struct in { int u; int *w; };
struct big { int a; pthread_mutex_t m; int b[3]; struct in i; struct in j[2]; int *q; struct big *next; };
int late(int x);
void vlate(int *p);
int *plate(int *p, int n);
int g; int *gp = &g; int ga[4] = {1, N, M}; int gw[2][3] = {{1}, {2, 3}}; struct big gb = {1, PTHREAD_MUTEX_INITIALIZER, {2, 3}, {4, &g}, {{5}, {6, ga}}, ga};
int *gq[2] = {ga, &g}; int gs = {7}; int *gz = 0; int *gn = NULL; long gl = sizeof(struct big) * 2 - 1; int gc = 'a' + EBUSY; int gk = 1 ? 5 : 1 / 0; int gd = 0 && 1 / 0;
int first(void) { g++; return g; }
int main(void) {
int x = 1; int y = {2}; int z = {{3}}; int *p = ga; int **pp = &p; int c = 0;
printf(\"%d %d %d %d\\n\", x, y, z, gl); 
{ int x = 5; { int x = 6; g = x; } g += x; } printf(\"%d %d\\n\", g, x);
for (int x = 0; x < 2; x++) { int x = 9; g = g + x; } printf(\"%d %d\\n\", g, x);
{ struct big l = {x, PTHREAD_MUTEX_INITIALIZER, {g}, {late(2)}, {{x++, p}, {x}}}; printf(\"%d %d %d %d %d %d\\n\", l.a, l.b[0], l.b[1], l.i.u, l.j[0].u, l.j[1].u); l.next = &l; l.next->next->i.w = &l.a; *l.i.w = 77; printf(\"%d\\n\", l.a); }
{ int v[2][2] = {{1, x}, {{2}}}; int s[1] = {{{8}}}; printf(\"%d %d %d %d %d\\n\", v[0][0], v[0][1], v[1][0], v[1][1], *s); }
printf(\"%d\\n\", 1[ga] + *(ga + 2) + *(1 + ga)); printf(\"%d\\n\", (&ga[3])[-2]); printf(\"%d\\n\", *&*&x); printf(\"%d\\n\", (x, ga)[1]);
printf(\"%d\\n\", **pp); printf(\"%d\\n\", pp[0][1]); printf(\"%d\\n\", *gw[1] + gw[1][1] + (*gw)[0]); p = gw[1]; printf(\"%d\\n\", *p++ + *p); printf(\"%d\\n\", *--p); printf(\"%d\\n\", ++*p); printf(\"%d\\n\", (*p)++);
p += 2; p -= 1; p -= -1; printf(\"%d\\n\", p - gw[1]); printf(\"%d\\n\", gw[1] - p); printf(\"%d %d %d %d\\n\", p < gw[1], p >= gw[1], p == gw[1] + 2, gw[1] != p);
printf(\"%d %d %d %d\\n\", !p, p && 0, p || 0, p == 0); printf(\"%d %d\\n\", 0 == gz, NULL != gn); p = c ? p : 0; printf(\"%d\\n\", p == NULL); p = c ? NULL : ga; printf(\"%d\\n\", *p);
x = 5; x = x++ + x; printf(\"%d\\n\", x); x = x + (x = 3) + x; printf(\"%d\\n\", x); x += x++; printf(\"%d\\n\", x); ga[x = 1] = x + (x = 2); printf(\"%d %d\\n\", ga[1], x); ga[x--] += x; printf(\"%d\\n\", ga[2]);
x = first() + first() * first(); printf(\"%d\\n\", x); x = late(late(first())); printf(\"%d\\n\", x); vlate(&x); printf(\"%d\\n\", x); printf(\"%d\\n\", *plate(ga, 1)); *plate(ga, 2) = first(); printf(\"%d\\n\", ga[2]);
printf(\"%d %d %d\\n\", -9223372036854775807 - 1, -7 / 2, -7 % 2); printf(\"%d %d\\n\", -7 >> 1, 5 << 3); printf(\"%d %d %d\\n\", ~5, !5, -x); printf(\"%d\\n\", x ^ 6 | 9 & 12); 
printf(\"%d %d %d %d\\n\", sizeof x, sizeof ga, sizeof(struct big), sizeof(int *)); printf(\"%d\\n\", sizeof gw[0]); printf(\"%d\\n\", sizeof(x = 100)); printf(\"%d\\n\", x);
do { x--; if (x == 3) continue; if (x < 2) break; g++; } while (x > 0); printf(\"%d %d\\n\", x, g);
while (1) { x++; if (x < 4) continue; break; } printf(\"%d\\n\", x); for (;;) { if (x++ > 6) break; continue; } printf(\"%d\\n\", x);
for (x = 0, y = 9; x < y; x++, y--) { if (x == 2) continue; for (int k = 0; ; k++) { if (k == 2) break; g += k; } } printf(\"%d %d %d\\n\", x, y, g);
if (x) ; else g = 0; if (!x) g = 0; else if (y) g = 1; else g = 2; printf(\"%d\\n\", g); ; {} {;} x; *p; ga; ga[1]; gb.b; gb.i.u; &x; (void *)p; 5; 0; NULL; -x; !p; (x, y); x == y; x < y; p + 1; printf(\"%d\\n\", x);
{ int *h = malloc(2); h[1] = 4; int *k = (int *)malloc(sizeof(int) * 3); k[2] = h[1]++; struct big *b = malloc(sizeof(struct big)); b->a = k[2]; b->b[2] = h[1]; b->j[1].w = &b->a; (*b).next = b; printf(\"%d %d %d\\n\", *b->next->j[1].w, b->b[2], h[0]); *(&b->j[0] + 1)->w = 50; printf(\"%d\\n\", b->a); free(h); free(k); printf(\"%d\\n\", k[2]); p = (int *)(void *)b; printf(\"%d\\n\", *p); }
{ void *v = &gb; struct big *b = v; printf(\"%d %d %d %d\\n\", b->a, b->b[1], b->i.u, *b->i.w); printf(\"%d %d\\n\", b->j[1].u, *b->j[1].w); printf(\"%d %d %d\\n\", gb.q[1], *gq[0], gq[1] == &g); printf(\"%d %d %d %d\\n\", gs, gc, gk, gd); }
printf(\"%d\\n\", printf(\"ab%%c%c\\n\", 65 + 256)); printf(\"%d\\n\", putchar(300)); printf(\"%d\\n\", puts(\"\")); printf(\"x\\0y\\n\"); printf(\"%i%li%lld%lli%ld\\n\", 1, 2, 3, 4, 5);
printf(\"%d\\n\", x && y || z && !x); printf(\"%d\\n\", (x ? y : z) ? 1 : 0); printf(\"%d\\n\", x ? y ? 1 : 2 : 3); x = y = z = 4; printf(\"%d\\n\", x + y + z); x <<= 2; x >>= 1; x ^= 3; x |= 8; x &= 13; x *= 3; x /= 2; x %= 7; printf(\"%d\\n\", x);
gp = &ga[0]; *gp++ = 3; *gp-- += 2; gp[1] <<= 1; ++gp; gp = gp + 1; gp -= 1; printf(\"%d %d %d\\n\", ga[0], ga[1], *gp); gb.b[gb.a]++; gb.i.u -= gb.b[1]--; printf(\"%d %d\\n\", gb.b[1], gb.i.u);
printf(\"%d %d\\n\", (int)(long)x, (long)(void *)(long)M); printf(\"%d\\n\", (int *)5 == (int *)5); printf(\"%d\\n\", (int *)0 == NULL); printf(\"%d\\n\", EOF + EAGAIN + EXIT_FAILURE + EXIT_SUCCESS + PTHREAD_BARRIER_SERIAL_THREAD);
printf(\"%d\\n\", 07 + 0x1F + 10L + 'a' + '\\n' + '\\0' + '\\\\'); printf(\"%d %d\\n\", pthread_self(), pthread_equal(0, pthread_self()));
return x; }
int *plate(int *p, int n) { p = p + n; return p; }
int late(int x) { int *r = &x; { int x = *r + 1; return x; } }
void vlate(int *p) { if (*p > 3) { *p = 3; return; } *p = 4; }
";

// Its log.
const EVERY_CONSTRUCT_LOG: &str = "chimera log 1
slots 1
cells 16384
limit 16777216
profile all
input 4
68616cff
0 5 print O
0 11 print O
0 21 print O
0 49 print O
0 57 print O
0 69 print O
0 73 print O
0 75 print O
0 77 print O
0 80 print O
0 83 print O
0 86 print O
0 90 print O
0 97 print O
0 101 print O
0 105 print O
0 109 print O
0 117 print O
0 119 print O
0 124 print O
0 129 print O
0 132 print O
0 135 print O
0 139 print O
0 146 print O
0 152 print O
0 158 print O
0 165 print O
0 172 print O
0 187 print O
0 200 print O
0 205 print O
0 208 print O
0 216 print O
0 217 print O
0 218 print O
0 220 print O
0 222 print O
0 223 print O
0 224 print O
0 225 print O
0 227 print O
0 243 print O
0 257 print O
0 271 print O
0 330 print O
0 335 print O
0 349 print O
0 365 print O
0 369 print O
0 371 print O
0 375 print O
0 381 print O
0 385 print O
0 391 print O
0 396 print O
0 397 print O
0 398 print O
0 399 print O
0 400 print O
0 401 print O
0 402 print O
0 403 print O
0 404 print O
0 406 print O
0 408 print O
0 410 print O
0 413 print O
0 431 print O
0 453 print O
0 463 print O
0 465 print O
0 466 print O
0 467 print O
0 468 print O
0 469 print O
0 470 print O
0 472 halt H
";

// What it prints.
const EVERY_CONSTRUCT_PRINTS: &str = "1 2 3 25
11 1
29 1
1 29 0 3 1 2
77
1 2 2 0 8
4
3
2
3
1
3
6
5
2
3
3
2
-2
0 1 1 1
0 0 1 0
1 0
1
1
11
17
34
3 2
-1
1022
35
3
3
34
-9223372036854775808 -3 -1
-4 40
-6 0 -3
13
1 4 13 1
3
1
3
1 35
4
8
5 4 39
1
5
4 5 0
50
4
50
1 3 4 1
6 1
3 1 1
7 113 5 0
ab%cA
6
,300

1
x\0y
12345
1
1
1
12
6
3 10 10
3 0
6 -2
1
1
10
247
0 1
";

// Mutexes, conditions, barriers, threads, their results, and the input.
const THREADS_AND_OBJECTS: &str = "#include <stdio.h>
#include <stdlib.h>
#include <pthread.h>
#include <errno.h>
struct acc { pthread_mutex_t m; pthread_cond_t c; pthread_barrier_t b; int n; pthread_t t[2]; void *r[2]; };
struct acc A[2]; pthread_mutex_t gm[3]; pthread_barrier_t gb; int g = 1; int total;
int f(int f) { return f + g; }
int sh(int g) { g = g + 1; { int g = 5; g++; return g; } }
int early(void) { g = 2; int g = g; g = 4; return g; }
void bump(struct acc *a, int n) { pthread_mutex_lock(&a->m); a->n += n; pthread_cond_signal(&a->c); pthread_mutex_unlock(&a->m); }
void *deepexit(void *p, int n) { int k[2] = {n}; if (k[0] == 0) pthread_exit((void *)(long)(k[1] + 40)); deepexit(p, n - 1); return p; }
void *root1(void *p) { void **q = &p; struct acc *a = *q; for (int i = 0; i < 2; i++) { while (1) { if (i) return (void *)(long)(a->n = a->n + 7); bump(a, 1); break; } } return NULL; }
void *root2(void *p) { deepexit(p, 3); return NULL; }
void *root3(void *p) { int v = (int)(long)p; if (v > 2) return; pthread_mutex_lock(&gm[v]); total = total + v; pthread_mutex_unlock(&gm[v]); }
void *root4(void *p) { int k = pthread_barrier_wait(&gb); if (k == PTHREAD_BARRIER_SERIAL_THREAD) { pthread_mutex_lock(gm); total += 100; pthread_mutex_unlock(gm); } k = pthread_barrier_wait(&gb); return (void *)(long)(k ? 1 : 2); }
int main(void) {
pthread_t t[3]; pthread_mutex_t lm; pthread_cond_t lc = PTHREAD_COND_INITIALIZER; pthread_barrier_t lb; void *r; int e;
printf(\"%d %d %d %d\\n\", f(3), sh(1), early(), g);
e = pthread_mutex_init(&lm, NULL) + pthread_cond_init(&lc, 0) + pthread_barrier_init(&lb, (NULL), 1); printf(\"%d\\n\", e);
printf(\"%d %d %d\\n\", pthread_mutex_trylock(&lm), pthread_mutex_trylock(&lm), pthread_mutex_trylock(&lm) == EBUSY); pthread_mutex_unlock(&lm);
printf(\"%d %d\\n\", pthread_barrier_wait(&lb), pthread_cond_broadcast(&lc)); printf(\"%d\\n\", pthread_mutex_destroy(&lm) + pthread_cond_destroy(&lc) + pthread_barrier_destroy(&lb));
struct acc *a = &A[1]; pthread_mutex_init(&a->m, 0);
for (int i = 0; i < 2; i++) printf(\"%d\\n\", pthread_create(&a->t[i], NULL, root1, i ? A + 1 : (void *)a));
pthread_mutex_lock(&a->m); while (a->n < 2) pthread_cond_wait(&a->c, &a->m); pthread_mutex_unlock(&a->m);
for (int i = 0; i < 2; i++) { pthread_join(a->t[i], &a->r[i]); } printf(\"%d %d\\n\", a->n > 8, (int)(long)a->r[0] > 7);
pthread_create(t, NULL, root2, NULL); pthread_join(t[0], &r); printf(\"%d\\n\", (int)(long)r); 
for (e = 0; e < 3; e++) pthread_create(t + e, 0, root3, (void *)(long)e); while (--e >= 0) pthread_join(t[e], &r); printf(\"%d %d\\n\", total, r == NULL);
pthread_barrier_init(&gb, NULL, 2); pthread_create(&t[1], NULL, root4, NULL); void *x = root4(NULL); pthread_join(t[1], NULL); printf(\"%d %d\\n\", total, x != NULL);
printf(\"%d\\n\", pthread_create(&t[0], NULL, root3, (void *)9)); printf(\"%d %d\\n\", pthread_self(), pthread_equal(t[0], t[1])); 
printf(\"%d\\n\", pthread_create(&t[2], NULL, root3, (void *)9));
int c; while ((c = getchar()) != EOF) putchar(c + 1);
pthread_exit((void *)(long)g);
}
";

// A log of it on eight slots, with the weak locks of its races.
const THREADS_AND_OBJECTS_LOG: &str = "chimera log 1
slots 8
cells 16384
limit 16777216
profile all
input 4
68616cff
0 7 print O
0 8 minit m41
0 9 binit b43
0 10 print O
0 11 trylock m41
0 12 trylock m41
0 13 trylock m41
0 14 print O
0 15 unlock m41
0 16 arrive b43
0 17 signal c42
0 18 print O
0 19 print O
0 20 minit m24
0 22 draw T
0 25 start s1
0 26 print O
0 28 draw T
0 31 start s2
0 32 print O
0 34 lock m24
0 36 take w0.0
0 37 give w0.0
0 37 center c25
0 38 unlock m24
1 0 begin s1
2 0 begin s2
2 3 take w3.0
2 5 give w3.0
2 8 lock m24
2 9 take w0.0
2 11 give w0.0
2 11 signal c25
0 39 cwake c25
2 12 unlock m24
1 3 take w3.0
1 5 give w3.0
1 8 lock m24
1 9 take w0.0
1 11 give w0.0
1 11 signal c25
1 12 unlock m24
0 40 lock m24
0 42 take w0.0
0 43 give w0.0
0 43 unlock m24
1 15 take w0.0
1 17 give w0.0
1 18 end s1
0 46 join s1
2 15 take w0.0
2 17 give w0.0
2 18 end s2
0 51 join s2
0 55 take w0.0
0 56 give w0.0
0 57 print O
2 19 leave T
1 19 leave T
0 58 draw T
0 61 start s3
3 0 begin s3
3 4 take w2.0
3 7 give w2.0
3 8 take w2.0
3 11 give w2.0
3 12 take w2.0
3 15 give w2.0
3 16 take w2.0
3 19 give w2.0
3 19 take w2.0
3 20 give w2.0
3 21 end s3
0 63 join s3
0 67 print O
3 22 leave T
0 69 draw T
0 72 start s4
0 74 draw T
0 77 start s5
0 79 draw T
0 82 start s6
4 0 begin s4
4 3 lock m32
4 4 take w1.0
4 6 give w1.0
4 6 unlock m32
4 8 end s4
5 0 begin s5
5 3 lock m33
5 4 take w1.0
5 6 give w1.0
5 6 unlock m33
5 8 end s5
5 9 leave T
4 9 leave T
6 0 begin s6
6 3 lock m34
6 4 take w1.0
6 6 give w1.0
6 6 unlock m34
6 8 end s6
0 86 join s6
0 91 join s5
0 96 join s4
0 100 take w1.0
0 101 give w1.0
0 102 print O
0 103 binit b35
6 9 leave T
0 104 draw T
0 107 start s7
0 109 arrive b35
7 0 begin s7
7 3 arrive b35
0 110 pass b35
0 111 arrive b35
7 4 lock m32
7 5 take w1.0
7 7 give w1.0
7 7 unlock m32
7 8 arrive b35
0 112 pass b35
7 10 end s7
0 114 join s7
0 115 take w1.0
0 116 give w1.0
0 116 print O
0 117 draw T
0 118 print O
0 121 print O
0 122 draw T
0 123 print O
0 125 getchar I
0 126 print O
0 128 getchar I
0 129 print O
0 131 getchar I
0 132 print O
0 134 getchar I
0 135 print O
0 137 getchar I
0 140 end s0
7 11 leave T
0 141 leave T
";

// What it prints.
const THREADS_AND_OBJECTS_PRINTS: &str = "4 6 4 2
0
0 16 1
-1 0
0
0
0
1 1
40
3 1
103 1
11
0 0
11
ibm\0";

// A source, a log of it, and what is printed.
static ROWS: [(&str, &str, &str); 2] = [
    (EVERY_CONSTRUCT, EVERY_CONSTRUCT_LOG, EVERY_CONSTRUCT_PRINTS),
    (
        THREADS_AND_OBJECTS,
        THREADS_AND_OBJECTS_LOG,
        THREADS_AND_OBJECTS_PRINTS,
    ),
];

fn check_rows(
    rt: &(impl Abort + Threads + Wait + Clock + Sync),
    alloc: Global,
) -> Result<(), Fail> {
    for (source, log, prints) in ROWS {
        check_files(rt, alloc, &REPLAY, &[source], &[log], (prints, 0))?;
    }
    Ok(())
}

#[test]
fn prints_what_whole_sources_print(rt: HostRuntime) -> Result<(), Fail> {
    check_rows(&rt, rt.alloc())
}
