use super::*;
use std::test::Fail;

const TWO: &str = "#include <pthread.h>
#include <stdio.h>
pthread_mutex_t m;
int total;
int hits;
int f0(int a) { int s = 0; for (int k = 0; k < 8; k++) s = s + a + k; return s; }
int f1(int a) { int s = 0; for (int k = 0; k < 8; k++) s = s + a + k; return s; }
void *w(void *p) {
int s = 0;
s = s + f0(0);
s = s + f1(1);
hits = hits + 1;
pthread_mutex_lock(&m);
total = total + s;
pthread_mutex_unlock(&m);
return NULL; }
int main(void) {
pthread_t t[4];
for (int i = 0; i < 4; i++)
pthread_create(&t[i], NULL, w, NULL);
for (int i = 0; i < 4; i++)
pthread_join(t[i], NULL);
printf(\"%d\\n\", total);
return 0; }
";

#[test]
fn makes_each_length(rt: HostRuntime) -> Result<(), Fail> {
    let rows = [
        (1, 496),
        (2, 593),
        (10, 1_369),
        (11, 1_469),
        (1_000, 103_069),
    ];
    for (n, bytes) in rows {
        let text = program_of(rt.alloc(), n)?;
        assert_eq!(rt; text.len(), bytes, "{n}");
    }
    let two = program_of(rt.alloc(), 2)?;
    assert_eq!(rt; two.as_slice(), TWO.as_bytes());
    Ok(())
}
