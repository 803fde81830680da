// Bases as the program holds them.
ghost use Rattle.std.specs.Prelude.{◌≡◌, [], ◌∷◌, IfOk, OnOk, OnErr};
ghost use Rattle.search_node.specs.Bases.{next_bases};

use basis::Place;
use std::alloc::{AllocError, Global};
use std::marker::Model;

/// A basis: a place for each variable, columns first, then rows.
#[derive(Drop)]
pub struct Basis {
    places: Vec<Place>,
}

impl Model for Basis {
    ghost use Rattle.std.specs.Prelude.{List};
    ghost use Rattle.basis.specs.declared.Place.{Place as PlaceOf};

    ghost Value = { List PlaceOf };

    ghost view = { λ b. b.places.items };
}

impl Basis {
    /// The basis with these places. It takes no memory.
    pub fn from_vec(places: Vec<Place>) -> Self
        ensures { result ≡ places.items }
    {
        Basis { places }
    }

    /// The same basis.
    pub fn copy(&self, alloc: Global) -> Result<Self, AllocError>
        ensures { IfOk result (λ copy. copy ≡ self.now) }
    {
        let places = self.places.to_vec(alloc)?;
        Ok(Basis { places })
    }

    /// Its places, for reading.
    pub fn as_slice(&self) -> &[Place]
        ensures { result.now ≡ self.now }
    {
        &self.places
    }
}

/// What one step of a run exchanges: one variable becomes basic, and another one, or the same, rests at a place.
#[derive(Clone, Copy, Debug, PartialEq, Eq)]
pub struct Exchange {
    pub enters: usize,
    pub leaves: usize,
    pub place: Place,
}

/// The bases of a run, kept as the first of them and what each step exchanged. Their value is the list of them, the
/// latest first.
#[derive(Drop)]
pub struct Bases {
    start: Vec<Place>,
    exchanges: Vec<Exchange>,
}

impl Model for Bases {
    ghost use Rattle.std.specs.Prelude.{List};
    ghost use Rattle.basis.specs.declared.Place.{Place as PlaceOf};
    ghost use Rattle.search_node.specs.Bases.{bases_of};

    ghost Value = { List (List PlaceOf) };

    ghost view = { λ b. bases_of b.start.items b.exchanges.items };
}

impl Bases {
    /// The one basis with these places. It takes no memory.
    pub fn start(alloc: Global, places: Vec<Place>) -> Self
        ensures { result ≡ places.items ∷ [] }
    {
        Bases {
            start: places,
            exchanges: Vec::new(alloc),
        }
    }

    /// One more basis: the latest one, exchanged. After an error nothing has changed.
    pub fn exchange(&mut self, exchange: Exchange) -> Result<(), AllocError>
        ensures ok { OnOk result (self.new ≡ next_bases self.old exchange) }
        ensures kept { OnErr result (self.new ≡ self.old) }
    {
        self.exchanges.push(exchange)?;
        Ok(())
    }
}
