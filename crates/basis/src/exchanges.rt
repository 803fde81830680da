// What an exchange makes of a dictionary.
ghost use Rattle.std.specs.Prelude.{ℕ, List, pos, ◌≡◌, ◌≢◌};
ghost use Rattle.basis.specs.System.{System};
ghost use Rattle.basis.specs.Dictionary.{IsBasic, IsResting, IsOverResting, Dictionary, IsDictionary, rate_of};
ghost use Rattle.basis.specs.Bland.{exchanged};
ghost use Rattle.basis.specs.Pivots.{IsPivoted};
ghost use Rattle.basis.specs.declared.Place.{Place};
ghost use Rattle.basis.specs.declared.Place.TheVariants.{Basic};

/// Where q becomes basic in the place of r, the dictionary has the pivoted numbers: quotients along the row of r,
/// and one product and one sum for each other number. Forms with these numbers are the dictionary.
pub fn pivots()
    ensures keeps { (s : System) (b : List Place) (d e : Dictionary) (q r : ℕ) (place : Place) →
        IsDictionary s b d → IsBasic b r → IsResting b q → place ≢ Basic → (rate_of d q r).numerator ≢ pos 0 →
        IsPivoted b d e q r → IsOverResting (exchanged b q r place) e → IsDictionary s (exchanged b q r place) e }
    ensures numbers { (s : System) (b : List Place) (d e : Dictionary) (q r : ℕ) (place : Place) →
        IsDictionary s b d → IsBasic b r → IsResting b q → place ≢ Basic → (rate_of d q r).numerator ≢ pos 0 →
        IsDictionary s (exchanged b q r place) e → IsPivoted b d e q r }
{}

/// Where a resting variable goes to another place, the dictionary stays.
pub fn flips()
    ensures { (s : System) (b : List Place) (d : Dictionary) (q : ℕ) (place : Place) →
        IsDictionary s b d → IsResting b q → place ≢ Basic → IsDictionary s (exchanged b q q place) d }
{}
