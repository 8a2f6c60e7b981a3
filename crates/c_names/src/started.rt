//! The function that a thread is started with (POSIX pthread_create).
ghost use Rattle.std.specs.Prelude.{◌≡◌, map};
ghost use Rattle.std.specs.Option.{option_map};
ghost use Rattle.c_tree.specs.Tree.{listed};
ghost use Rattle.c_tree.specs.View.{exp_of};
ghost use Rattle.c_names.specs.Started as spec;

use c_tree::Expr;

fn name_of_start(e: &Expr) -> Option<&[u8]>
    ensures { option_map (λ n. n.now) result ≡ spec.name_of_start (exp_of e.now) }
{
    match e {
        Expr::Name { name, .. } => Some(name.as_slice()),
        _ => None,
    }
}

/// The name that the third argument is, if there is one.
pub fn third_name(es: &[Expr]) -> Option<&[u8]>
    ensures { option_map (λ n. n.now) result ≡ spec.third_name (listed (map exp_of es.now)) }
{
    match es {
        [_, _, third, ..] => name_of_start(third),
        _ => None,
    }
}
