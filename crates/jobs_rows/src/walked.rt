// Logs that the tests of walks share, and a source with read-write locks.

use samples::logs::{FIRST, SLOTS_2, SLOTS_3};
use samples::weak_runs::{BEGIN, END_2, JOIN_1, LOAD_1, LOAD_2, PRINT, STARTS, STORE_1, STORE_2};

/// A writer and two readers of a table under read-write locks, and a count that the readers raise under one held for reading.
pub const CATALOGUE: &str = "#include <pthread.h>
#include <stdio.h>
#include <stdlib.h>
struct entry { int key; int value; struct entry *next; };
struct table { pthread_rwlock_t lock; struct entry *first; int count; };
struct table t;
pthread_rwlock_t stats = PTHREAD_RWLOCK_INITIALIZER;
int lookups;
int misses;
int racy;
int find(struct table *s, int key) {
  int value = -1;
  pthread_rwlock_rdlock(&s->lock);
  for (struct entry *e = s->first; e != NULL; e = e->next)
    if (e->key == key)
      value = e->value;
  pthread_rwlock_unlock(&s->lock);
  return value;
}
void put(struct table *s, int key, int value) {
  struct entry *e = malloc(sizeof(struct entry));
  e->key = key;
  e->value = value;
  pthread_rwlock_wrlock(&s->lock);
  e->next = s->first;
  s->first = e;
  s->count = s->count + 1;
  pthread_rwlock_unlock(&s->lock);
}
void *writer(void *p) {
  for (int i = 0; i < 3; i++)
    put(&t, i, i * 10);
  return NULL;
}
void *reader(void *p) {
  int sum = 0;
  for (int i = 0; i < 3; i++) {
    int v = find(&t, i);
    pthread_rwlock_wrlock(&stats);
    lookups = lookups + 1;
    if (v < 0)
      misses = misses + 1;
    pthread_rwlock_unlock(&stats);
    pthread_rwlock_rdlock(&stats);
    racy = racy + 1;
    pthread_rwlock_unlock(&stats);
    sum = sum + (v < 0 ? 0 : v);
  }
  return (void *)(long)sum;
}
int main(void) {
  pthread_t a; pthread_t b; pthread_t c;
  void *x; void *y;
  pthread_rwlock_init(&t.lock, NULL);
  pthread_create(&a, NULL, writer, NULL);
  pthread_create(&b, NULL, reader, NULL);
  pthread_create(&c, NULL, reader, NULL);
  pthread_join(a, NULL);
  pthread_join(b, &x);
  pthread_join(c, &y);
  pthread_rwlock_rdlock(&stats);
  printf(\"%d lookups, %d misses, %d read\\n\", lookups, misses, (int)((long)x + (long)y));
  pthread_rwlock_unlock(&stats);
  pthread_rwlock_destroy(&t.lock);
  return 0;
}
";

/// A log of it.
pub const CATALOGUE_LOG: &str =
    "chimera log 2\nslots 4\ncells 16384\nlimit 16777216\nprofile all\ninput 0\n\n0 1 rwinit r8\n0 2 draw T\n\
0 5 start s1\n0 6 draw T\n0 9 start s2\n0 10 draw T\n0 13 start s3\n1 0 begin s1\n1 5 take w1.0\n\
1 5 take w2.0\n1 7 give w1.0\n1 7 give w2.0\n1 7 wrlock r8\n1 13 rwunlock r8\n2 0 begin s2\n3 0 begin s3\n\
3 5 rdlock r8\n2 5 rdlock r8\n3 8 take w1.0\n3 9 give w1.0\n2 8 take w1.0\n2 9 give w1.0\n1 16 take w1.0\n\
3 9 take w2.0\n3 10 give w2.0\n2 9 take w2.0\n2 10 give w2.0\n1 16 take w2.0\n1 18 give w1.0\n1 18 give w2.0\n\
3 12 rwunlock r8\n2 12 rwunlock r8\n3 13 wrlock r11\n3 16 rwunlock r11\n3 17 rdlock r11\n3 18 take w0.0\n\
3 20 give w0.0\n3 20 rwunlock r11\n2 13 wrlock r11\n2 16 rwunlock r11\n2 17 rdlock r11\n2 18 take w0.0\n\
2 20 give w0.0\n2 20 rwunlock r11\n3 23 rdlock r8\n3 26 take w1.0\n3 27 give w1.0\n3 29 rwunlock r8\n\
2 23 rdlock r8\n2 26 take w1.0\n2 27 give w1.0\n2 29 rwunlock r8\n1 18 wrlock r8\n1 24 rwunlock r8\n\
3 30 wrlock r11\n3 35 rwunlock r11\n2 30 wrlock r11\n2 35 rwunlock r11\n2 36 rdlock r11\n2 37 take w0.0\n\
2 39 give w0.0\n3 36 rdlock r11\n2 39 rwunlock r11\n2 42 rdlock r8\n2 45 take w1.0\n2 46 give w1.0\n\
2 48 take w1.0\n2 49 give w1.0\n1 27 take w1.0\n1 27 take w2.0\n1 29 give w1.0\n1 29 give w2.0\n\
3 37 take w0.0\n3 39 give w0.0\n3 39 rwunlock r11\n3 42 rdlock r8\n2 51 rwunlock r8\n2 52 wrlock r11\n\
2 57 rwunlock r11\n3 45 take w1.0\n3 46 give w1.0\n3 48 take w1.0\n3 49 give w1.0\n3 51 rwunlock r8\n\
1 29 wrlock r8\n1 35 rwunlock r8\n1 38 end s1\n0 15 join s1\n1 39 leave T\n3 52 wrlock r11\n\
3 57 rwunlock r11\n3 58 rdlock r11\n3 59 take w0.0\n3 61 give w0.0\n3 61 rwunlock r11\n2 58 rdlock r11\n\
2 59 take w0.0\n2 61 give w0.0\n2 61 rwunlock r11\n2 64 end s2\n0 17 join s2\n3 64 end s3\n0 21 join s3\n\
0 24 rdlock r11\n0 29 print O\n0 30 rwunlock r11\n0 31 halt H\n3 65 leave T\n2 65 leave T\n";

/// A log in which both threads load the counter before either stores it.
pub const LOST: &[&str] = &[
    FIRST, SLOTS_3, STARTS, LOAD_1, BEGIN, LOAD_2, STORE_1, JOIN_1, STORE_2, END_2, PRINT,
];

/// A log of a thread that traps while `main` waits for it.
pub const TRAPS: &[&str] = &[
    FIRST,
    SLOTS_2,
    "0 1 lock m4\n0 2 draw T\n0 5 start s1\n1 0 begin s1\n1 3 take w0.0\n1 4 trap H\n0 7 stop H\n",
];
