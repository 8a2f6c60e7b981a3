//! The numbers of the locals and formals that are seen at a place of a source.
ghost use Rattle.std.specs.Prelude.{◌≡◌, [], ◌∷◌, map, OnOk, IfOk};
ghost use Rattle.c_numbers.specs.Numbered as spec;
ghost use Rattle.c_numbers.specs.NumberTables.{numbered_of};
ghost use Rattle.c_types.specs.Scopes.{with_name};

use c_tree::Name;
use indexmap::IndexMap;
use rr_base::List;
use std::alloc::{AllocError, Global};

/// The numbers of the names of one scope.
type Scope<'a> = IndexMap<&'a [u8], usize>;

/// The numbers of the names that are seen. The innermost scope is last.
#[derive(Drop)]
pub struct NumberTable<'a> {
    /// The number of the name that is declared next.
    next: usize,
    scopes: List<Scope<'a>>,
}

impl<'a> NumberTable<'a> {
    /// What is seen where a function begins.
    pub fn new(alloc: Global, next: usize) -> Result<NumberTable<'a>, AllocError>
        ensures { IfOk result (λ t. numbered_of t ≡ record { next = next; scopes = [] ∷ [] }) }
    {
        let mut scopes = List::new(alloc);
        scopes.push(IndexMap::new(alloc))?;
        Ok(NumberTable { next, scopes })
    }

    /// The number that the next name gets.
    pub fn next(&self) -> usize
        ensures { result ≡ (numbered_of self.now).next }
    {
        self.next
    }

    /// Opens a scope.
    pub fn open(&mut self, alloc: Global) -> Result<(), AllocError>
        ensures { OnOk result (numbered_of self.new ≡ spec.inside (numbered_of self.old)) }
    {
        self.scopes.push(IndexMap::new(alloc))
    }

    /// Closes the innermost scope.
    pub fn close(&mut self)
        ensures { numbered_of self.new ≡ spec.outside (numbered_of self.old) }
    {
        let _ = self.scopes.pop();
    }

    #[tactic(auto, unfolding(crate::specs::Numbered::following))]
    /// Uses a number for what has no name. More numbers than the machine can count don't fit its memory either.
    pub fn skip(&mut self) -> Result<(), AllocError>
        ensures { OnOk result (numbered_of self.new ≡ spec.following (numbered_of self.old) 1) }
    {
        let Some(next) = self.next.checked_add(1) else {
            return Err(AllocError);
        };
        self.next = next;
        Ok(())
    }

    /// The next number goes to a name.
    pub fn number(&mut self, name: &'a Name) -> Result<(), AllocError>
        ensures { OnOk result (numbered_of self.new ≡ spec.number_name (numbered_of self.old) name.now) }
    {
        let next = self.next;
        if let Some(mut scope) = self.scopes.pop() {
            add(&mut scope, name.text.as_slice(), next)?;
            self.scopes.push(scope)?;
        }
        self.skip()
    }

    /// The number that a name has in the innermost scope that declares it.
    pub fn seen(&self, name: &[u8]) -> Option<usize>
        ensures { result ≡ spec.number_seen (numbered_of self.now).scopes name.now }
    {
        let mut left = self.scopes.len();
        while left > 0 {
            left -= 1;
            match self.scopes.at(left).get(name) {
                Some(number) => return Some(*number),
                None => {}
            }
        }
        None
    }
}

/// Adds a name to a scope. One that is there keeps its number.
fn add<'a>(scope: &mut Scope<'a>, name: &'a [u8], number: usize) -> Result<(), AllocError>
    ensures { OnOk result (map (λ e. (e.0.now, e.1)) scope.new.entries ≡ with_name (map (λ e. (e.0.now, e.1)) scope.old.entries) name.now number) }
{
    match scope.get(name) {
        Some(_) => Ok(()),
        None => {
            scope.insert(name, number)?;
            Ok(())
        }
    }
}
