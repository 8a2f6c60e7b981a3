// Lists in loops: as a `Vec` is gone over.
ghost use Rattle.std.specs.Prelude.{◌≡◌, ◌<◌, ◌^◌, length};
ghost use Rattle.std.specs.Slice.Iter.{iter_rest, iter_steps};
ghost use Rattle.std.specs.Iterator.Runs.{EveryRun, ItemsMapTo, ItemsAre};
ghost use Rattle.std.specs.declared.alloc.Global.{Global};
ghost use Rattle.std.specs.Vec.Iter.{into_iter_steps, into_iter_items, into_iter_len};

use crate::list::List;
use std::alloc::Global;
use std::slice::Iter;
use std::vec::IntoIter;

impl<T: Drop> IntoIterator for List<T> {
    type Item = T;

    type IntoIter = IntoIter<T, Global>;

    ghost into_iter_gives = { λ v r. (into_iter_items r ≡ v) × (into_iter_len r ≡ length v) × (into_iter_len r < 2 ^ 64) × EveryRun (into_iter_steps {X = T} {Z = Global}) (λ p. ItemsAre p (into_iter_items p.from)) };

    fn into_iter(self) -> IntoIter<T, Global> {
        self.into_vec().into_iter()
    }
}

impl<'a, T> IntoIterator for &'a List<T> {
    type Item = &'a T;

    type IntoIter = Iter<'a, T>;

    ghost into_iter_gives = { λ v r. (iter_rest r ≡ v.now) × (length (iter_rest r) < 2 ^ 64) × EveryRun (iter_steps {A = T}) (λ p. ItemsMapTo p (λ y. y.now) (iter_rest p.from)) };

    fn into_iter(self) -> Iter<'a, T> {
        self.as_slice().iter()
    }
}
