// Sources that several tests run.

/// A mutex is unlocked that isn't held.
pub const MISUSE: &str =
    "pthread_mutex_t m;\nint main(void) { pthread_mutex_unlock(&m); return 0; }\n";

/// A read-write lock is unlocked that nobody holds.
pub const RWLOCK_MISUSE: &str =
    "pthread_rwlock_t l;\nint main(void) { pthread_rwlock_unlock(&l); return 0; }\n";

/// A thread traps while `main` holds a lock and waits for it.
pub const HELD: &str = "#include <pthread.h>
pthread_mutex_t m;
int x = 1;
void *f(void *p) {
x = x + 9223372036854775807;
return NULL; }
int main(void) {
pthread_t a;
pthread_mutex_lock(&m);
pthread_create(&a, NULL, f, NULL);
pthread_join(a, NULL);
return 0; }
";

/// A number that no pointer holds.
pub const NO_POINTER: &str = "int main(void) {\nvoid *q = (void *)9007199254740992; return 0; }\n";

/// A thread divides by zero while `main` holds a lock.
pub const DIVIDES: &str = "#include <pthread.h>
pthread_mutex_t m;
void *f(void *p) {
int z = 0;
z = 1 / z;
return NULL; }
int main(void) {
pthread_t a;
pthread_mutex_lock(&m);
pthread_create(&a, NULL, f, NULL);
pthread_join(a, NULL);
return 0; }
";

/// No slot is left for the second thread.
pub const NONE_LEFT: &str = "#include <pthread.h>
#include <stdio.h>
void *f(void *p) { return p; }
int main(void) {
pthread_t t; pthread_t u;
pthread_create(&t, NULL, f, NULL);
printf(\"%d\\n\", pthread_create(&u, NULL, f, NULL));
return 0; }
";

/// The input is written to the output.
pub const ECHOES: &str =
    "int main(void) { int c = getchar(); while (c != EOF) { putchar(c); c = getchar(); } return 0; }\n";

/// Two threads wait for a number that `main` raises twice.
pub const WAITS: &str = "#include <pthread.h>
#include <stdio.h>
pthread_mutex_t m; pthread_cond_t c; int n;
void *f(void *p) {
long k = (long)p;
pthread_mutex_lock(&m);
while (n < k) pthread_cond_wait(&c, &m);
pthread_mutex_unlock(&m);
return NULL; }
int main(void) {
pthread_t a; pthread_t b;
pthread_create(&a, NULL, f, (void *)1);
pthread_create(&b, NULL, f, (void *)2);
pthread_mutex_lock(&m); n = n + 1; pthread_mutex_unlock(&m); pthread_cond_broadcast(&c);
pthread_mutex_lock(&m); n = n + 1; pthread_mutex_unlock(&m); pthread_cond_broadcast(&c);
pthread_join(a, NULL); pthread_join(b, NULL);
pthread_mutex_lock(&m);
printf(\"%d\\n\", n);
pthread_mutex_unlock(&m);
return 0; }
";

/// Three threads pass a barrier twice, and one of them counts each time.
pub const PASSES: &str = "#include <pthread.h>
#include <stdio.h>
pthread_mutex_t m; pthread_barrier_t b; int n;
void pass(void) { if (pthread_barrier_wait(&b) == PTHREAD_BARRIER_SERIAL_THREAD) { pthread_mutex_lock(&m); n = n + 1; pthread_mutex_unlock(&m); } }
void *f(void *p) { pass(); pass(); return NULL; }
int main(void) {
pthread_t t; pthread_t u;
pthread_barrier_init(&b, NULL, 3);
pthread_create(&t, NULL, f, NULL);
pthread_create(&u, NULL, f, NULL);
pass(); pass();
pthread_join(t, NULL); pthread_join(u, NULL);
pthread_mutex_lock(&m);
printf(\"%d\\n\", n);
pthread_mutex_unlock(&m);
return 0; }
";

/// A counter without a lock.
pub const COUNTER: &str = "#include <pthread.h>
#include <stdio.h>
int x;
void *inc(void *p) {
int t = x;
if (t >= 0)
x = t + 1;
return NULL; }
int main(void) {
pthread_t a; pthread_t b;
pthread_create(&a, NULL, inc, NULL);
pthread_create(&b, NULL, inc, NULL);
pthread_join(a, NULL); pthread_join(b, NULL);
printf(\"%d\\n\", x);
return 0; }
";

/// The lock is held by the caller of `h`; `f` stores without it.
pub const HELD_BY_CALLER: &str = "#include <pthread.h>
pthread_mutex_t m;
int x;
void h(void) { x = 2; }
void *f(void *p) {
x = 1;
pthread_mutex_lock(&m);
pthread_mutex_unlock(&m);
return NULL; }
void *g(void *p) {
pthread_mutex_lock(&m);
h();
pthread_mutex_unlock(&m);
return NULL; }
int main(void) {
pthread_t a; pthread_t b;
pthread_create(&a, NULL, f, NULL);
pthread_create(&b, NULL, g, NULL);
pthread_join(a, NULL); pthread_join(b, NULL);
return 0; }
";

/// Two threads with accesses that may race on one line.
pub const ONE_LINE: &str = "#include <pthread.h>
#include <stdio.h>
int x;
void *inc(void *p) {
x = x + 1;
return NULL; }
int main(void) {
pthread_t a; pthread_t b;
pthread_create(&a, NULL, inc, NULL);
pthread_create(&b, NULL, inc, NULL);
pthread_join(a, NULL); pthread_join(b, NULL);
printf(\"%d\\n\", x);
return 0; }
";

/// Two threads store the two halves of an array.
pub const HALVES: &str = "#include <pthread.h>
int v[8];
void *low(void *p) {
for (int i = 0; i < 4; i++)
v[i] = i;
return NULL; }
void *high(void *p) {
for (int i = 4; i < 8; i++)
v[i] = i;
return NULL; }
int main(void) {
pthread_t a; pthread_t b;
pthread_create(&a, NULL, low, NULL);
pthread_create(&b, NULL, high, NULL);
pthread_join(a, NULL); pthread_join(b, NULL);
return 0; }
";

/// A thread reads a number under a read-write lock, and `main` writes it.
pub const READERS: &str = "#include <pthread.h>
#include <stdio.h>
pthread_rwlock_t l;
int x;
void *f(void *p) {
pthread_rwlock_rdlock(&l);
int t = x;
pthread_rwlock_unlock(&l);
return (void *)(long)t; }
int main(void) {
pthread_t a;
pthread_create(&a, NULL, f, NULL);
pthread_rwlock_wrlock(&l);
x = 5;
pthread_rwlock_unlock(&l);
pthread_join(a, NULL);
return 0; }
";
