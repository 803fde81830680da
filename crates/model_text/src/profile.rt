// How far the reader goes.
ghost use Rattle.std.specs.Prelude.{◌≡◌};
ghost use Rattle.model_text.specs.Profile.{reader_profile, IsWithinInstance};

/// The limits of a reader.
#[derive(Clone, Copy)]
pub struct Profile {
    // the most rows, columns and entries of rows
    pub rows: usize,
    pub columns: usize,
    pub entries: usize,
}

/// Today's reader.
pub fn reader_profile() -> Profile
    ensures value { result ≡ reader_profile }
    ensures within { IsWithinInstance result }
{
    Profile {
        rows: 1_000_000,
        columns: 1_000_000,
        entries: 20_000_000,
    }
}
