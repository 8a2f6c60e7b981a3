// How a thread gives the stripes of its regions.
ghost use Rattle.std.specs.Prelude.{◌≡◌, ◌<◌, ◌≤◌, ◌^◌, ◌+◌, ◌∷◌, [], length, map, filter, slice_get, IfSome, not, ◌==◌, nat_le};
ghost use Rattle.std.specs.Option.{option_copied};
ghost use Rattle.thread_interpreter.specs.Flows.{changed_at};
ghost use Rattle.flow_code.specs.Next.{on_unless};
ghost use Rattle.flow_code.specs.Holding.{number_of_pair as number_of_a_pair, is_listed as is_listed_in, nesting as nesting_of, open_ones, with_pairs, takes as takes_a, is_open_of as is_open_of_region, open_place as open_place_of, first_alone as first_alone_of, pairs_at as pairs_of, alone_at, to_give as to_give_of, give_or_quiet as give_or_quiet_of, give_due as give_due_of, cut, gives_at, gave, parting as parting_of, parting_due as parting_due_of, left_of, left_by, keeping};

use crate::place::instr_at;
use crate::region::OpenRegion;
use crate::state::ThreadState;
use crate::stripes::{
    forget_owed, has_stripe, keep_after, keep_listed, number_of_pair, owes, release,
};
use flow_code::{Act, Code, Instr, Stripe};
use sync_objects::{ObjId, Op};
use word_semantics::{Due, LibraryCall};

// In how many open regions the stripe is.
pub(crate) fn nesting(regions: &[OpenRegion], number: u32) -> usize
    ensures { result ≡ nesting_of regions.now number }
{
    regions
        .iter()
        .filter(|region| has_stripe(&region.stripes, number))
        .count()
}

// Whether no other open region has the stripe of one.
fn is_alone(regions: &[OpenRegion], pair: (u16, u8)) -> bool
    ensures { result ≡ nat_le (nesting_of regions.now (number_of_a_pair pair)) 1 }
{
    nesting(regions, number_of_pair(pair)) <= 1
}

// The first of these stripes that no other open region has.
fn first_alone(regions: &[OpenRegion], pairs: &[(u16, u8)]) -> Option<(u16, u8)>
    ensures { result ≡ first_alone_of regions.now pairs.now }
{
    let mut rest = pairs;
    while let [first, following @ ..] = rest {
        if is_alone(regions, *first) {
            return Some(*first);
        }
        rest = following;
    }
    None
}

// Drops the regions that have no stripes.
fn drop_empty(regions: &mut Vec<OpenRegion>)
    ensures { regions.new.items ≡ open_ones regions.old.items }
{
    regions.retain(|region| !region.stripes.is_empty());
}

fn keep_in(region: &mut OpenRegion, stripes: &[Stripe])
    ensures { region.new ≡ with_pairs region.old (filter (λ x. is_listed_in stripes.now (number_of_a_pair x)) region.old.stripes) }
{
    keep_listed(&mut region.stripes, stripes);
}

fn keep_at(regions: &mut Vec<OpenRegion>, at: usize, stripes: &[Stripe])
    ensures { regions.new.items ≡ changed_at (λ r. with_pairs r (filter (λ x. is_listed_in stripes.now (number_of_a_pair x)) r.stripes)) (slice_get regions.old.items at) regions.old.items at }
{
    if at < regions.len() {
        keep_in(&mut regions[at], stripes);
    }
}

// Keeps the stripes of each region that are among these.
fn keep_in_all(regions: &mut Vec<OpenRegion>, stripes: &[Stripe])
    ensures { regions.new.items ≡ map (λ r. with_pairs r (filter (λ x. is_listed_in stripes.now (number_of_a_pair x)) r.stripes)) regions.old.items }
{
    for at in 0..regions.len() {
        keep_at(regions, at, stripes);
    }
}

// The stripes of a region after one of them, or none.
fn cut_at(regions: &mut Vec<OpenRegion>, at: usize, given: Option<(u16, u8)>)
    requires { at < length regions.old.items }
    ensures { regions.new.items ≡ cut regions.old.items at (left_by given (pairs_of (slice_get regions.old.items at))) }
{
    match given {
        Some(pair) => keep_after(&mut regions[at].stripes, number_of_pair(pair)),
        None => regions[at].stripes.clear(),
    }
    drop_empty(regions);
}

fn takes(instr: Option<&Instr>, region: u32) -> bool
    ensures { result ≡ takes_a (option_copied instr.entry) region }
{
    match instr {
        Some(
            Instr {
                act: Act::Take(taken),
                ..
            },
        ) => *taken == region,
        _ => false,
    }
}

fn give_or_quiet(pair: Option<(u16, u8)>) -> Due
    ensures { result ≡ give_or_quiet_of pair }
{
    match pair {
        Some((lock, stripe)) => Due::Operate {
            op: Op::Give,
            obj: ObjId::Weak { lock, stripe },
        },
        None => Due::Quiet,
    }
}

// What is due in a call: before its first event pthread_exit forgets the stripes that the thread owes, and then gives those
// that it holds.
fn parting_due(call: &LibraryCall, made: u8, stripes: &[Stripe], due: Due) -> Due
    ensures { result ≡ parting_due_of (parting_of call.now made stripes.now) due }
{
    if !matches!(call, LibraryCall::Exit) || made > 0 {
        return due;
    }
    match stripes {
        [] => due,
        [first, ..] => {
            if owes(stripes) {
                return Due::Quiet;
            }
            Due::Operate {
                op: Op::Give,
                obj: ObjId::Weak {
                    lock: first.lock,
                    stripe: first.stripe,
                },
            }
        }
    }
}

impl ThreadState {
    // What is due in a call, in place of what is due by the call alone.
    pub(crate) fn parting_due(&self, call: &LibraryCall, due: Due) -> Due
        ensures { result ≡ parting_due_of (parting_of call.now self.now.thread.top.made self.now.thread.stripes) due }
    {
        let (made, _) = self.top.events();
        parting_due(call, made, &self.stripes, due)
    }

    fn is_open_of(&self, code: &Code, region: u32, opened: &OpenRegion) -> bool
        ensures { result ≡ is_open_of_region code.now self.now.thread region opened.now }
    {
        let (function, _) = self.top.place();
        opened.frame == self.below.len() && takes(instr_at(code, function, opened.instr), region)
    }

    // Where the open region stands that a Give of this region closes.
    fn open_place(&self, code: &Code, region: u32) -> Option<usize>
        ensures value { result ≡ open_place_of code.now self.now.thread region }
        ensures within { IfSome result (λ i. i < length self.now.thread.regions) }
    {
        let mut found = None;
        for (at, opened) in self.regions.iter().enumerate() {
            if self.is_open_of(code, region, opened) {
                found = Some(at);
            }
        }
        found
    }

    // The stripe that a Give gives next.
    fn to_give(&self, place: Option<usize>) -> Option<(u16, u8)>
        ensures { result ≡ alone_at self.now.thread.regions place }
    {
        let opened = self.regions.get(place?)?;
        first_alone(&self.regions, &opened.stripes)
    }

    pub(crate) fn give_due(&self, code: &Code, region: u32) -> Due
        ensures { result ≡ give_due_of code.now self.now.thread region }
    {
        give_or_quiet(self.to_give(self.open_place(code, region)))
    }

    fn give_at(&mut self, place: Option<usize>, given: Option<(u16, u8)>)
        requires { IfSome place (λ i. i < length self.old.thread.regions) }
        ensures { self.new.thread ≡ gives_at self.old.thread place given }
    {
        let Some(at) = place else {
            return;
        };
        cut_at(&mut self.regions, at, given);
        if let Some(pair) = given {
            release(&mut self.stripes, number_of_pair(pair));
        }
    }

    // The next step of a Give.
    pub(crate) fn give_region(&mut self, code: &Code, region: u32)
        requires { self.old.thread.top.instr + 1 < 2 ^ 64 }
        ensures { self.new.thread ≡ on_unless (to_give_of code.now self.old.thread region) (gave code.now self.old.thread region) }
    {
        let place = self.open_place(code, region);
        let given = self.to_give(place);
        self.give_at(place, given);
        if given.is_none() {
            self.pass();
        }
    }

    // Whether the call gives stripes of the thread before its first event.
    pub(crate) fn is_parting(&self, call: &LibraryCall) -> bool
        ensures { result ≡ not (length (parting_of call.now self.now.thread.top.made self.now.thread.stripes) == 0) }
    {
        let (made, _) = self.top.events();
        matches!(call, LibraryCall::Exit) && made == 0 && !self.stripes.is_empty()
    }

    // Forgets the stripes that the thread owes, and then gives those that it holds.
    pub(crate) fn part(&mut self)
        requires { 0 < length self.old.thread.stripes }
        ensures { self.new.thread ≡ keeping self.old.thread (left_of self.old.thread.stripes) }
    {
        if owes(&self.stripes) {
            forget_owed(&mut self.stripes);
        } else {
            self.stripes.remove(0);
        }
        keep_in_all(&mut self.regions, &self.stripes);
        drop_empty(&mut self.regions);
    }
}
