// The text of the made source.
ghost use Rattle.std.specs.Prelude.{◌≡◌, ◌≤◌, ◌++◌, ◌+◌, ◌*◌, ◌∷◌, [], length, map, sum_by, decimal, IfOk, OnOk};
ghost use Rattle.workload.specs.Program as program;

use rr_base::{Bytes, List};
use std::alloc::{AllocError, Global};

// A number after a word.
fn push_numbered(out: &mut Bytes, word: &[u8], number: u32) -> Result<(), AllocError>
    ensures { OnOk result (out.new ≡ out.old ++ (word.now ++ decimal number)) }
{
    rr_base::push_numbered(out, word, u64::from(number))
}

fn push_function(out: &mut Bytes, number: u32) -> Result<(), AllocError>
    ensures { OnOk result (out.new ≡ out.old ++ (program.function_line number ++ 10 ∷ [])) }
{
    push_numbered(out, b"int f", number)?;
    out.extend_from_slice(
        b"(int a) { int s = 0; for (int k = 0; k < 8; k++) s = s + a + k; return s; }\n",
    )
}

fn push_call(out: &mut Bytes, number: u32) -> Result<(), AllocError>
    ensures { OnOk result (out.new ≡ out.old ++ (program.call_line number ++ 10 ∷ [])) }
{
    push_numbered(out, b"s = s + f", number)?;
    push_numbered(out, b"(", number)?;
    out.extend_from_slice(b");\n")
}

#[tactic(auto, using(crate::proofs::Lines::text_next))]
fn push_functions(out: &mut Bytes, count: u32) -> Result<(), AllocError>
    ensures { OnOk result (out.new ≡ out.old ++ program.text_of (map program.function_line (program.numbers_below count))) }
{
    for number in 0..count {
        push_function(out, number)?;
    }
    Ok(())
}

#[tactic(auto, using(crate::proofs::Lines::text_next))]
fn push_calls(out: &mut Bytes, count: u32) -> Result<(), AllocError>
    ensures { OnOk result (out.new ≡ out.old ++ program.text_of (map program.call_line (program.numbers_below count))) }
{
    for number in 0..count {
        push_call(out, number)?;
    }
    Ok(())
}

const FIRST: &[u8] = b"#include <pthread.h>\n\
#include <stdio.h>\n\
pthread_mutex_t m;\n\
int total;\n\
int hits;\n";

const THREAD: &[u8] = b"void *w(void *p) {\n\
int s = 0;\n";

const LAST: &[u8] = b"hits = hits + 1;\n\
pthread_mutex_lock(&m);\n\
total = total + s;\n\
pthread_mutex_unlock(&m);\n\
return NULL; }\n\
int main(void) {\n\
pthread_t t[4];\n\
for (int i = 0; i < 4; i++)\n\
pthread_create(&t[i], NULL, w, NULL);\n\
for (int i = 0; i < 4; i++)\n\
pthread_join(t[i], NULL);\n\
printf(\"%d\\n\", total);\n\
return 0; }\n";

/// The made source with `n` functions.
pub fn program_of(alloc: Global, n: u32) -> Result<Bytes, AllocError>
    requires from { 1 ≤ n }
    requires to { n ≤ 1000 }
    ensures text { IfOk result (λ text. text ≡ program.program_text n) }

    // Beside what is always there, each number takes two lines, in which it stands three times.
    ensures len { IfOk result (λ text. length text ≡ 399 + sum_by (λ number. 94 + 3 * length (decimal number)) (program.numbers_below n)) }
{
    let mut out = List::new(alloc);
    out.extend_from_slice(FIRST)?;
    push_functions(&mut out, n)?;
    out.extend_from_slice(THREAD)?;
    push_calls(&mut out, n)?;
    out.extend_from_slice(LAST)?;
    Ok(out)
}
