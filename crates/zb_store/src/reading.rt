// Laws of what a file stands for.
ghost use Rattle.std.specs.Prelude.{◌≡◌, ◌⊎◌, ℕ, List};
ghost use Rattle.zb_store.specs.Stands.{Stands, IsCutAfter};

/// A file stands for one list of bodies, or it isn't whole behind one, and not both.
pub fn one_reading()
    ensures some { (file : List ℕ) → ((bodies : List (List ℕ)) × Stands file bodies)
        ⊎ ((bodies : List (List ℕ)) × IsCutAfter file bodies) }
    ensures not_both { (file : List ℕ) (xs ys : List (List ℕ)) → Stands file xs → IsCutAfter file ys
        → ⊥ }
    ensures one { (file : List ℕ) (xs ys : List (List ℕ)) → Stands file xs → Stands file ys
        → xs ≡ ys }
    ensures one_cut { (file : List ℕ) (xs ys : List (List ℕ)) → IsCutAfter file xs
        → IsCutAfter file ys → xs ≡ ys }
{}
