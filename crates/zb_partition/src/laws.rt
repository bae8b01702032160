// Laws of the log in a file.
ghost use Rattle.std.specs.Prelude.{◌≡◌, ℕ, List};
ghost use Rattle.zb_model.specs.declared.record.Batch.{Batch};
ghost use Rattle.zb_partition.specs.Log.{StandsFor, AreBatches, IsApplied, IsBadAt};

use zb_store::one_reading;

/// A file stands for one log of batches that fit their spelling. Where their events apply, none of its frames is bad;
/// and of a file with a bad frame only one is the first.
pub fn one_log()
    ensures one { (file : List ℕ) (a b : List Batch) → AreBatches a → AreBatches b
        → StandsFor file a → StandsFor file b → a ≡ b }
    ensures not_both { (p : ℕ) (file : List ℕ) (log : List Batch) (frame : ℕ) → AreBatches log
        → IsApplied p log
        → StandsFor file log → IsBadAt p file frame → ⊥ }
    ensures one_frame { (p : ℕ) (file : List ℕ) (m n : ℕ) → IsBadAt p file m → IsBadAt p file n
        → m ≡ n }
{
    one_reading();
}
