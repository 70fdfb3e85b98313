// The stack of hypotheses that a proof is concluded under.
ghost use Rattle.std.specs.Prelude.{◌≡◌, ℕ, length, None, slice_index_or};
ghost use Rattle.std.proofs.Math.ListN.{get_elem?};
ghost use Rattle.logic.specs.Tree.{Tree};
ghost use Rattle.rules.specs.Stack.{stacked, named};

// How high the stack is; its cells are lent by the caller, for there is no heap.
#[derive(Clone, Copy)]
pub struct Depth {
    pub height: usize,
}

// Puts the height back on every way out.
pub struct Guard<'a>(pub(crate) &'a mut Depth, pub(crate) usize);

impl Drop for Guard<'_> {
    fn drop(self)
        ensures { self.exit.0.now.height ≡ self.entry.1 }
    {
        self.0.height = self.1;
        let Guard(_, _) = self;
    }
}

// The hypothesis counted outwards from the newest, which stands last and is 0.
pub fn hypothesis(stack: &[u32], k: u32) -> Option<u32>
    ensures { (f : ℕ → Tree) → named f result ≡ get_elem? (stacked f stack.now (length stack.now)) k }
{
    // By its place: `nth` would step over all that are newer.
    let at = stack.len().checked_sub(k as usize + 1)?;
    Some(stack[at])
}

// What command k made known, if it did.
pub fn made(known: &[Option<u32>], k: u32) -> Option<u32>
    ensures { result ≡ slice_index_or known.now k None }
{
    *known.get(k as usize)?
}
