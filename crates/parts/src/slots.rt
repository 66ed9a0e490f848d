// Arrays of slots, the first of which are in use. A state made by hand may claim more than there are.
ghost use Rattle.std.specs.Prelude.{◌≡◌, ◌<◌, ◌≤◌, Bool, length, take, set};
ghost use Rattle.model.specs.Lists.{IsFirst};
ghost use Rattle.parts.specs.Arrays.{cut_used};
ghost use Rattle.parts.specs.Search.{Decides};

use crate::used::used;

// The slots in use.
pub fn in_use<T>(slots: &[T], len: u8) -> &[T]
    ensures { result.now ≡ take len slots.now }
{
    &slots[..used(len, slots.len())]
}

// The index of the first slot in use that passes.
pub fn first_index<T, P: Fn(&T) -> bool>(slots: &[T], len: u8, passes: P) -> Option<u8>
    requires { P.IsAlwaysCallable passes }
    ensures { (p : T → Bool) → Decides P.Fn passes p → IsFirst p (take len slots.now) result }
{
    match in_use(slots, len).iter().position(|x| passes(x)) {
        Some(i) => Some(i as u8),
        None => None,
    }
}

// The slot at i is out of the first n, those behind it move up, and the freed one is blank.
#[tactic(auto, using(crate::specs::Arrays::cut_copied))]
pub fn cut<T: Copy>(slots: &mut [T], i: u8, n: u8, blank: T)
    requires { (i < n) × (n ≤ length slots.old) }
    ensures { slots.new ≡ cut_used slots.old i n blank }
{
    let i = usize::from(i);
    let n = usize::from(n);
    slots.copy_within(i + 1..n, i);
    slots[n - 1] = blank;
}

// x in the slot at i, if there is one.
pub fn put<T: Copy, const N: usize>(mut slots: [T; N], i: u8, x: T) -> [T; N]
    ensures { result ≡ set slots i x }
{
    let i = usize::from(i);
    if i < N {
        slots[i] = x;
    }
    slots
}
