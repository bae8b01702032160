ghost use Rattle.std.specs.Prelude.{◌≡◌, ℕ, List, Option, option_map};

use zb_table::Timed;

/// A row that may have a label: two texts under which it is listed.
pub trait Listed: Timed {
    ghost label_in: { Self → Option (List ℕ × List ℕ) };

    fn label(&self) -> Option<(&str, &str)>
        ensures { option_map (λ l. (l.0.now, l.1.now)) result ≡ label_in self.now };
}
