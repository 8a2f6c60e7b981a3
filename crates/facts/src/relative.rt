//! The locks at a point of a function, relative to its entry, and what steps make of them.
ghost use Rattle.std.specs.Prelude.{◌≡◌, true, [], ◌∷◌, IfOk, OnOk};
ghost use Rattle.std.specs.List.{filter};
ghost use Rattle.facts.specs.Locks as spec;
ghost use Rattle.facts.specs.Paths.{are_small, are_small_actuals};
ghost use Rattle.facts.specs.declared.locks.Minus.TheVariants.{Listed};

use crate::locks::{Held, LockPath, Minus, Naming, RelLocks};
use crate::paths::substitute;
use crate::sets::{add_item, add_items, ascend, merged};
use rr_base::List;
use std::alloc::{AllocError, Global};
use sync_objects::Mode;

// Whether the path is none of these, whatever they lead to.
fn is_clear(gone: &[LockPath], path: LockPath) -> bool
    ensures { result ≡ spec.is_clear gone.now path }
{
    for path_gone in gone {
        if path.may_be(*path_gone) {
            return false;
        }
    }
    true
}

// The locks whose paths are none of these.
fn cleared(alloc: Global, plus: &[Held], gone: &[LockPath]) -> Result<List<Held>, AllocError>
    ensures { IfOk result (λ kept. kept ≡ filter (λ h. spec.is_clear gone.now h.path) plus.now) }
{
    let kept: Vec<Held> = plus
        .iter()
        .copied()
        .filter(|held| is_clear(gone, held.path))
        .collect(alloc)?;
    Ok(List::from_vec(kept))
}

// The lock is held in this way, and for reading in any case.
fn take(plus: &mut List<Held>, mode: Mode, path: LockPath) -> Result<(), AllocError>
    ensures { OnOk result (plus.new ≡ spec.taken mode path plus.old) }
{
    let read = Held {
        path,
        mode: Mode::Read,
    };
    add_item(plus, read)?;
    match mode {
        Mode::Read => Ok(()),
        Mode::Write => add_item(plus, Held { path, mode }),
    }
}

// Adds a lock that is held so, if its path is known and can lead to a cell.
fn add_held(plus: &mut List<Held>, mode: Mode, path: Option<LockPath>) -> Result<(), AllocError>
    ensures { OnOk result (plus.new ≡ spec.and_held mode path plus.old) }
{
    match path {
        Some(path) if path.names_cell() => add_item(plus, Held { path, mode }),
        _ => Ok(()),
    }
}

// The locks that a called function holds, as its caller sees them.
fn plus_seen(
    alloc: Global,
    actuals: &[Option<LockPath>],
    plus: &[Held],
) -> Result<List<Held>, AllocError>
    requires plus { spec.held_are_small plus.now ≡ true }
    requires actuals { are_small_actuals actuals.now ≡ true }
    ensures { IfOk result (λ seen. seen ≡ spec.plus_seen actuals.now plus.now) }
{
    let mut seen = List::new(alloc);
    let mut left = plus.len();
    while left > 0 {
        left -= 1;
        let held = plus[left];
        add_held(&mut seen, held.mode, substitute(held.path, actuals))?;
    }
    Ok(seen)
}

// Adds a path, if it can lead to a cell.
fn add_if_cell(paths: &mut List<LockPath>, path: LockPath) -> Result<(), AllocError>
    ensures { OnOk result (paths.new ≡ spec.and_path (Some path) paths.old) }
{
    if path.names_cell() {
        add_item(paths, path)?;
    }
    Ok(())
}

// The locks that a called function may have given back, as its caller sees them.
fn listed_seen(
    alloc: Global,
    actuals: &[Option<LockPath>],
    paths: &[LockPath],
) -> Result<Minus, AllocError>
    requires paths { are_small paths.now ≡ true }
    requires actuals { are_small_actuals actuals.now ≡ true }
    ensures { IfOk result (λ seen. seen ≡ spec.listed_seen actuals.now paths.now) }
{
    let mut seen = List::new(alloc);
    let mut left = paths.len();
    while left > 0 {
        left -= 1;
        let Some(path) = substitute(paths[left], actuals) else {
            return Ok(Minus::All);
        };
        add_if_cell(&mut seen, path)?;
    }
    Ok(Minus::Listed(seen))
}

impl Minus {
    /// The same locks once more.
    pub fn copied(&self, alloc: Global) -> Result<Minus, AllocError>
        ensures { IfOk result (λ minus. minus ≡ self.now) }
    {
        match self {
            Minus::All => Ok(Minus::All),
            Minus::Listed(paths) => {
                let paths = paths.copied(alloc)?;
                Ok(Minus::Listed(paths))
            }
        }
    }

    /// The locks of either.
    pub fn joined(&self, alloc: Global, other: &Minus) -> Result<Minus, AllocError>
        ensures { IfOk result (λ minus. minus ≡ spec.both self.now other.now) }
    {
        let Minus::Listed(paths) = self else {
            return Ok(Minus::All);
        };
        let Minus::Listed(others) = other else {
            return Ok(Minus::All);
        };
        if ascend(others.as_slice()) {
            let joined = merged(alloc, paths.as_slice(), others.as_slice())?;
            return Ok(Minus::Listed(joined));
        }
        let mut joined = paths.copied(alloc)?;
        add_items(&mut joined, others.as_slice())?;
        Ok(Minus::Listed(joined))
    }

    // The locks that are none of these.
    fn kept(&self, alloc: Global, plus: &[Held]) -> Result<List<Held>, AllocError>
        ensures { IfOk result (λ kept. kept ≡ spec.without self.now plus.now) }
    {
        match self {
            Minus::All => Ok(List::new(alloc)),
            Minus::Listed(gone) => cleared(alloc, plus, gone.as_slice()),
        }
    }

    // These locks with a path.
    fn with_path(&self, alloc: Global, path: LockPath) -> Result<Minus, AllocError>
        ensures { IfOk result (λ minus. minus ≡ spec.both self.now (Listed (path ∷ []))) }
    {
        let Minus::Listed(paths) = self else {
            return Ok(Minus::All);
        };
        let mut paths = paths.copied(alloc)?;
        add_item(&mut paths, path)?;
        Ok(Minus::Listed(paths))
    }

    // What a called function may have given back, as its caller sees it.
    fn seen(&self, alloc: Global, actuals: &[Option<LockPath>]) -> Result<Minus, AllocError>
        requires small { spec.minus_is_small self.now ≡ true }
        requires actuals { are_small_actuals actuals.now ≡ true }
        ensures { IfOk result (λ minus. minus ≡ spec.minus_seen actuals.now self.now) }
    {
        match self {
            Minus::All => Ok(Minus::All),
            Minus::Listed(paths) => listed_seen(alloc, actuals, paths.as_slice()),
        }
    }
}

impl RelLocks {
    /// The same locks once more.
    pub fn copied(&self, alloc: Global) -> Result<RelLocks, AllocError>
        ensures { IfOk result (λ locks. locks ≡ self.now) }
    {
        let plus = self.plus.copied(alloc)?;
        let minus = self.minus.copied(alloc)?;
        Ok(RelLocks { plus, minus })
    }

    /// The locks once one of this name was taken in this way.
    pub fn locked(&self, alloc: Global, mode: Mode, naming: Naming) -> Result<RelLocks, AllocError>
        ensures { IfOk result (λ locks. locks ≡ spec.locked mode naming self.now) }
    {
        let Naming::Named(path) = naming else {
            return self.copied(alloc);
        };
        let mut plus = self.plus.copied(alloc)?;
        take(&mut plus, mode, path)?;
        let minus = self.minus.copied(alloc)?;
        Ok(RelLocks { plus, minus })
    }

    /// The locks once one of this name was given back.
    pub fn unlocked(&self, alloc: Global, naming: Naming) -> Result<RelLocks, AllocError>
        ensures { IfOk result (λ locks. locks ≡ spec.unlocked naming self.now) }
    {
        match naming {
            Naming::Unknown => Ok(RelLocks {
                plus: List::new(alloc),
                minus: Minus::All,
            }),
            Naming::Nowhere => self.copied(alloc),
            Naming::Named(path) => {
                let plus = cleared(alloc, self.plus.as_slice(), &[path])?;
                let minus = self.minus.with_path(alloc, path)?;
                Ok(RelLocks { plus, minus })
            }
        }
    }

    /// The locks after a call, where these were held before it, the called function's are `callee` at its exit, and
    /// its arguments are known so.
    pub fn through(
        &self,
        alloc: Global,
        actuals: &[Option<LockPath>],
        callee: &RelLocks,
    ) -> Result<RelLocks, AllocError>
        requires callee { spec.locks_are_small callee.now ≡ true }
        requires actuals { are_small_actuals actuals.now ≡ true }
        ensures { IfOk result (λ locks. locks ≡ spec.through actuals.now callee.now self.now) }
    {
        let gone = callee.minus.seen(alloc, actuals)?;
        let mut plus = gone.kept(alloc, self.plus.as_slice())?;
        let taken = plus_seen(alloc, actuals, callee.plus.as_slice())?;
        add_items(&mut plus, taken.as_slice())?;
        let minus = self.minus.joined(alloc, &gone)?;
        Ok(RelLocks { plus, minus })
    }
}
