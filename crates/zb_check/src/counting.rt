// How often items name an id.
ghost use Rattle.std.specs.Prelude.{◌≡◌, ℕ, List, Bool, ◌&&◌, count_by, IfOk};
ghost use Rattle.std.specs.Str.{bytes_eq};
ghost use Rattle.zb_check.specs.Notes.{count_in};

use crate::notes::Notes;
use std::alloc::{AllocError, Global};
use zb_base::Text;

/// Which items name an id, and which one.
pub trait Naming<T> {
    ghost names: { Self → T → Bool };

    ghost named: { Self → T → List ℕ };

    fn names(&self, item: &T) -> bool
        ensures { result ≡ names self.now item.now };

    fn named<'a>(&self, item: &'a T) -> &'a Text
        ensures { result.now ≡ named self.now item.now };
}

/// How often these items name each id.
pub fn count_named<'a, T, N: Naming<T>>(
    alloc: Global,
    items: &'a [T],
    naming: &N,
) -> Result<Notes<'a, usize>, AllocError>
    ensures { IfOk result (λ counts. (id : List ℕ) → count_in counts id
        ≡ count_by (λ x. N.names naming.now x && bytes_eq (N.named naming.now x) id) items.now) }
{
    let mut counts = Notes::empty(alloc);
    for item in items {
        if naming.names(item) {
            counts.add(naming.named(item))?;
        }
    }
    Ok(counts)
}
