// The sections of a text.
ghost use Rattle.std.specs.Prelude.{◌≡◌, ◌≤◌};
ghost use Rattle.mps_draft.specs.Sections.{section_of, rank, furthest, may_follow, is_ended, awaits_sense};

/// The sections in their order; `Start` is before the first header, and `Ended` after the last one.
#[derive(Clone, Copy)]
pub enum Section {
    Start,
    NameLine,
    // OBJSENSE, of which the word comes on the next line
    SenseAwaited,
    // OBJSENSE with its word
    SenseGiven,
    Rows,
    Columns,
    Rhs,
    Ranges,
    Bounds,
    Ended,
}

impl Section {
    /// By the word of a header.
    pub fn of_word(word: &str) -> Option<Section>
        ensures { result ≡ section_of word.now }
    {
        match word {
            "NAME" => Some(Section::NameLine),
            "OBJSENSE" => Some(Section::SenseAwaited),
            "ROWS" => Some(Section::Rows),
            "COLUMNS" => Some(Section::Columns),
            "RHS" => Some(Section::Rhs),
            "RANGES" => Some(Section::Ranges),
            "BOUNDS" => Some(Section::Bounds),
            "ENDATA" => Some(Section::Ended),
            _ => None,
        }
    }

    fn rank(self) -> u8
        ensures { result ≡ rank self }
    {
        match self {
            Section::Start => 0,
            Section::NameLine => 1,
            Section::SenseAwaited | Section::SenseGiven => 2,
            Section::Rows => 3,
            Section::Columns => 4,
            Section::Rhs => 5,
            Section::Ranges => 6,
            Section::Bounds => 7,
            Section::Ended => 8,
        }
    }

    // The last of the sections that may come next: ROWS and COLUMNS may not be left out.
    fn furthest(self) -> Section
        ensures { result ≡ furthest self }
    {
        match self {
            Section::Start | Section::NameLine | Section::SenseAwaited | Section::SenseGiven => {
                Section::Rows
            }
            Section::Rows => Section::Columns,
            Section::Columns | Section::Rhs | Section::Ranges | Section::Bounds | Section::Ended =>
                Section::Ended,
        }
    }

    /// The section `next` may come after it.
    pub fn may_be_followed(self, next: Section) -> bool
        ensures { result ≡ may_follow self next }
    {
        self.rank() < next.rank() && next.rank() <= self.furthest().rank()
    }

    /// After the last header.
    pub fn is_ended(self) -> bool
        ensures { result ≡ is_ended self }
    {
        match self {
            Section::Ended => true,
            Section::Start
            | Section::NameLine
            | Section::SenseAwaited
            | Section::SenseGiven
            | Section::Rows
            | Section::Columns
            | Section::Rhs
            | Section::Ranges
            | Section::Bounds => false,
        }
    }

    /// OBJSENSE stands without its word.
    pub fn awaits_sense(self) -> bool
        ensures { result ≡ awaits_sense self }
    {
        match self {
            Section::SenseAwaited => true,
            _ => false,
        }
    }
}
