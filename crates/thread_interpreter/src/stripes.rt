// Lists of stripes.
ghost use Rattle.std.specs.Prelude.{◌≡◌, ◌<◌, ◌≤◌, ◌^◌, ◌+◌, length, filter, not, ◌-◌, ◌++◌, ◌∷◌, [], ◌&&◌, IfSome, nat_lt, position};
ghost use Rattle.std.specs.Vec.{vec_len, vec_capacity};
ghost use Rattle.flow_code.specs.Stripes.{wants_number as wants_number_of, stripe_of as stripe_of_number, first_from, and_stripe, stripes_from};
ghost use Rattle.flow_code.specs.Holding.{number_of_stripe as number_of, number_of_pair as number_of_a_pair, is_listed as is_listed_in, has_stripe as has_stripe_in, place_for as place_for_number, with_stripe, without_stripe, after_pairs as after_all, pairs_after, owes as owes_any, held};

use flow_code::{Code, Region, Stripe, wants_number};

// The stripe with a number, of eight for each lock.
fn stripe_of(number: u32) -> (u16, u8)
    requires { number < 2 ^ 19 }
    ensures { (result.0 ≡ (stripe_of_number number).0) × (result.1 ≡ (stripe_of_number number).1) }
{
    ((number / 8) as u16, (number % 8) as u8)
}

pub(crate) fn number_of_stripe(stripe: Stripe) -> u32
    ensures value { result ≡ number_of stripe }
    ensures within { result < 2 ^ 20 }
{
    8 * u32::from(stripe.lock) + u32::from(stripe.stripe)
}

pub(crate) fn number_of_pair(pair: (u16, u8)) -> u32
    ensures value { result ≡ number_of_a_pair pair }
    ensures within { result < 2 ^ 20 }
{
    8 * u32::from(pair.0) + u32::from(pair.1)
}

pub(crate) fn is_listed(stripes: &[Stripe], number: u32) -> bool
    ensures { result ≡ is_listed_in stripes.now number }
{
    stripes.iter().any(|x| number_of_stripe(*x) == number)
}

pub(crate) fn has_stripe(pairs: &[(u16, u8)], number: u32) -> bool
    ensures { result ≡ has_stripe_in pairs.now number }
{
    pairs.iter().any(|x| number_of_pair(*x) == number)
}

pub(crate) fn owes(stripes: &[Stripe]) -> bool
    ensures { result ≡ owes_any stripes.now }
{
    stripes.iter().any(|x| x.owed)
}

fn first_above(number: u32, stripes: &[Stripe]) -> Option<usize>
    ensures value { result ≡ position (λ x. nat_lt number (number_of x)) stripes.now }
    ensures within { IfSome result (λ k. k < length stripes.now) }
{
    stripes.iter().position(|x| number < number_of_stripe(*x))
}

// Where the stripe belongs among ascending ones.
fn place_for(number: u32, stripes: &[Stripe]) -> usize
    ensures value { result ≡ place_for_number number stripes.now }
    ensures within { result ≤ length stripes.now }
{
    match first_above(number, stripes) {
        Some(place) => place,
        None => stripes.len(),
    }
}

// Holds one stripe more, where there is room.
pub(crate) fn hold(stripes: &mut Vec<Stripe>, number: u32)
    requires number { number < 2 ^ 19 }
    requires room { vec_len stripes.old < vec_capacity stripes.old }
    ensures { stripes.new.items ≡ with_stripe number stripes.old.items }
{
    let (lock, stripe) = stripe_of(number);
    let place = place_for(number, stripes.as_slice());
    let held = Stripe {
        lock,
        stripe,
        owed: false,
    };
    match stripes.insert(place, held) {
        Ok(()) => {}
        Err(_) => unreachable!(),
    }
}

pub(crate) fn release(stripes: &mut Vec<Stripe>, number: u32)
    ensures { stripes.new.items ≡ without_stripe number stripes.old.items }
{
    stripes.retain(|x| number_of_stripe(*x) != number);
}

pub(crate) fn forget_owed(stripes: &mut Vec<Stripe>)
    ensures { stripes.new.items ≡ held stripes.old.items }
{
    stripes.retain(|x| !x.owed);
}

// Keeps those of ascending stripes that are after one of them.
pub(crate) fn keep_after(pairs: &mut Vec<(u16, u8)>, number: u32)
    ensures { pairs.new.items ≡ pairs_after number pairs.old.items }
{
    pairs.retain(|x| number < number_of_pair(*x));
}

// Keeps those that are among other stripes.
pub(crate) fn keep_listed(pairs: &mut Vec<(u16, u8)>, stripes: &[Stripe])
    ensures { pairs.new.items ≡ filter (λ x. is_listed_in stripes.now (number_of_a_pair x)) pairs.old.items }
{
    pairs.retain(|x| is_listed(stripes, number_of_pair(*x)));
}

// The number after the last of ascending stripes.
pub(crate) fn after_pairs(pairs: &[(u16, u8)]) -> u32
    ensures value { result ≡ after_all pairs.now }
    ensures within { result ≤ 2 ^ 20 }
{
    match pairs.last() {
        Some(pair) => number_of_pair(*pair) + 1,
        None => 0,
    }
}

#[tactic(auto, using(flow_code::proofs::Counting::first_step))]
// The first number from one to before another whose stripe the region takes and is none of these.
pub(crate) fn first_lacked(
    code: &Code,
    registers: &[u64],
    region: &Region,
    stripes: &[Stripe],
    from: u32,
    to: u32,
) -> Option<u32>
    ensures value { result ≡ first_from (λ n. wants_number_of code.now registers.now region.now n && not (is_listed_in stripes.now n)) (to - from) from }
    ensures within { IfSome result (λ n. n < to) }
{
    for number in from..to {
        if wants_number(code, registers, region, number) && !is_listed(stripes, number) {
            return Some(number);
        }
    }
    None
}

// Adds a stripe, where there is room.
fn push(pairs: &mut Vec<(u16, u8)>, pair: (u16, u8))
    requires { vec_len pairs.old < vec_capacity pairs.old }
    ensures items { pairs.new.items ≡ pairs.old.items ++ pair ∷ [] }
    ensures len { vec_len pairs.new ≡ vec_len pairs.old + 1 }
    ensures capacity { vec_capacity pairs.old ≤ vec_capacity pairs.new }
{
    match pairs.push(pair) {
        Ok(()) => {}
        Err(_) => unreachable!(),
    }
}

// Adds the stripe with this number, where it is wanted.
fn push_if(pairs: &mut Vec<(u16, u8)>, wanted: bool, number: u32)
    requires room { vec_len pairs.old < vec_capacity pairs.old }
    requires number { number < 2 ^ 19 }
    ensures items { pairs.new.items ≡ pairs.old.items ++ and_stripe wanted number [] }
    ensures len { vec_len pairs.new ≤ vec_len pairs.old + 1 }
    ensures capacity { vec_capacity pairs.old ≤ vec_capacity pairs.new }
{
    if wanted {
        push(pairs, stripe_of(number));
    }
}

// The stripes in memory that is at hand.
fn copied(taken: &[(u16, u8)], mut into: Vec<(u16, u8)>) -> Vec<(u16, u8)>
    requires { length taken.now ≤ vec_capacity into }
    ensures items { result.items ≡ taken.now }
    ensures len { vec_len result ≡ length taken.now }
    ensures capacity { vec_capacity into ≤ vec_capacity result }
{
    into.clear();
    for pair in taken {
        push(&mut into, *pair);
    }
    into
}

// These stripes, and after them those with a number from one to before another that the region takes, in memory that is
// at hand.
pub(crate) fn pairs_before(
    code: &Code,
    registers: &[u64],
    region: &Region,
    taken: &[(u16, u8)],
    from: u32,
    to: u32,
    into: Vec<(u16, u8)>,
) -> Vec<(u16, u8)>
    requires room { length taken.now + (to - from) ≤ vec_capacity into }
    requires numbers { to ≤ 2 ^ 19 }
    ensures { result.items ≡ taken.now ++ stripes_from (wants_number_of code.now registers.now region.now) (to - from) from }
{
    let mut pairs = copied(taken, into);
    for number in from..to {
        let wanted = wants_number(code, registers, region, number);
        push_if(&mut pairs, wanted, number);
    }
    pairs
}
