// Names of different members differ.
ghost use Rattle.std.specs.Prelude.{◌≡◌, ℕ, List, true};
ghost use Rattle.std.specs.List.{list_all};
ghost use Rattle.gmpl_value.specs.declared.symbol.Symbol.{Symbol};
ghost use Rattle.gmpl_member_names.specs.Names.{member_name, is_name_byte};
ghost use Rattle.gmpl_member_names.specs.Narrow.{AreNarrow};

/// A name tells its object and its subscripts, where the objects' names have letters, digits and `_` alone.
#[tactic(auto, using(crate::proofs::NamesDiffer::same_member))]
pub fn names_differ()
    ensures { (m n : List ℕ) (s t : List Symbol) → list_all is_name_byte m ≡ true → list_all is_name_byte n ≡ true → AreNarrow s → AreNarrow t
        → member_name m s ≡ member_name n t → (m ≡ n) × (s ≡ t) }
{}
