// A walk over the sizes of a plan: the counts reached at each, and their row.
ghost use Rattle.std.specs.Prelude.{◌≡◌, ◌≤◌, ⊤};
ghost use Rattle.sheet.specs.Walks.{Small};

use crate::rows::Span;
use std::alloc::AllocError;
use std::marker::PhantomData;

mod steps;

// Where a walk stands, for a kind of item: the next size, and the counts reached there; none once it has ended.
pub struct Walk<'a, K, P> {
    plan: &'a P,
    size: u32,
    reached: Option<Span>,
    kind: PhantomData<K>,
    ghost counts: { 1 ≤ size },
    ghost small: { Small reached },
}

// Copied with no bound on the kind and the plan, which a derive would ask for.
impl<'a, K, P> Clone for Walk<'a, K, P> {
    ghost is_clone = { λ x y. y ≡ x };

    ghost is_infallible = { λ _. ⊤ };

    fn clone(&self) -> Result<Self, AllocError> {
        Ok(*self)
    }
}

impl<'a, K, P> Copy for Walk<'a, K, P> {}
