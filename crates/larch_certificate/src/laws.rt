//! What holds of the definitions, for crates above to cite. No function here does anything.
ghost use Rattle.std.specs.Prelude.{◌≡◌, List};
ghost use Rattle.larch_certificate.specs.Coded.{CodedTree, CodedForest, coded_app, coded_forest_of, coded_list_of};
ghost use Rattle.larch_certificate.specs.declared.symbol.Symbol.{Symbol};

/// Lists of terms and arguments are one thing in two forms, and equal applications have equal parts.
pub fn coded_lists_are_arguments()
    ensures list { (ts : List CodedTree) → coded_list_of (coded_forest_of ts) ≡ ts }
    ensures arguments { (ts : CodedForest) → coded_forest_of (coded_list_of ts) ≡ ts }
    ensures parts { (f g : Symbol) (ts us : List CodedTree)
        → coded_app f (coded_forest_of ts) ≡ coded_app g (coded_forest_of us) → (f ≡ g) × (ts ≡ us) }
{}
