//! The law of refused bytes. Its function does nothing: its contract is the law.
ghost use Rattle.std.specs.Prelude.{◌≡◌, ℕ, List};
ghost use Rattle.files_csv.specs.Refused.{IsRefused};
ghost use Rattle.files_csv.specs.Rows.{IsCsv};

/// A text has at most one first byte that is refused, and a text of CSV has none. So a fault's line,
/// its column and what was expected there follow from the text.
pub fn refused_once()
    ensures once { (text : List ℕ) (line column : ℕ) (expected : List ℕ) (l c : ℕ) (e : List ℕ) →
        IsRefused text line column expected → IsRefused text l c e →
        (l ≡ line) × (c ≡ column) × (e ≡ expected) }
    ensures none { (text : List ℕ) (line column : ℕ) (expected : List ℕ) → IsCsv text →
        ¬ (IsRefused text line column expected) }
{}
