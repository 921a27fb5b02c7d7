//! What holds of what is kept, for crates above to cite. No function here does anything.
ghost use Rattle.std.specs.Prelude.{◌≡◌};
ghost use Rattle.larch_term.specs.declared.statement.Theory.{Theory};
ghost use Rattle.larch_verify_pool.specs.Pooled.{Pooled, Grows};
ghost use Rattle.larch_verify_history.specs.Past.{IsPast, history_of};
ghost use Rattle.larch_verify_history.specs.declared.past.KeptHistory.{KeptHistory};

/// What is kept stays right while the pool grows, and says the same.
pub fn past_stays()
    ensures stays { (t : Theory) (p q : Pooled) (past : KeptHistory) → IsPast t p past → Grows p q → IsPast t q past }
    ensures same { (t : Theory) (p q : Pooled) (past : KeptHistory) → IsPast t p past → Grows p q
        → history_of q past ≡ history_of p past }
{}
