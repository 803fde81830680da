// What a basis determines.
ghost use Rattle.std.specs.Prelude.{ℕ, List, ◌≡◌, ◌<◌};
ghost use Rattle.rational.specs.Rational.{Rational};
ghost use Rattle.basis.specs.System.{System, size};
ghost use Rattle.basis.specs.Dictionary.{IsBasic, Dictionary, IsDictionary, rate_of, gain_of, IsBasicPoint};
ghost use Rattle.basis.specs.declared.Place.{Place};

/// A basis has at most one dictionary.
pub fn dictionary_is_unique()
    ensures rates { (s : System) (b : List Place) (d e : Dictionary) → IsDictionary s b d → IsDictionary s b e →
        (v j : ℕ) → IsBasic b v → rate_of d j v ≡ rate_of e j v }
    ensures gains { (s : System) (b : List Place) (d e : Dictionary) → IsDictionary s b d → IsDictionary s b e →
        (j : ℕ) → gain_of d j ≡ gain_of e j }
{}

/// A basis with a dictionary has at most one point.
pub fn point_is_unique()
    ensures { (s : System) (b : List Place) (d : Dictionary) (x y : ℕ → Rational) → IsDictionary s b d →
        IsBasicPoint s b x → IsBasicPoint s b y → (v : ℕ) → v < size s → x v ≡ y v }
{}
