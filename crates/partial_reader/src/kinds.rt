// Which reader a text wants.
ghost use Rattle.std.specs.Prelude.{◌≡◌, slice_get};
ghost use Rattle.std.specs.Option.{option_map};
ghost use Rattle.std.specs.List.{slice_split};
ghost use Rattle.certificate_lines.specs.Lines.{is_feed};
ghost use Rattle.partial_reader.specs.Kinds.{names_undecided};

/// Whether the third line of a text is `verdict undecided`, as that of a partial certificate is, and that of no certificate.
pub fn names_undecided(text: &[u8]) -> bool
    ensures named { result ≡ names_undecided text.now }
{
    match third_line(text) {
        Some(line) => line == b"verdict undecided".as_slice(),
        None => false,
    }
}

// The bytes between the second and the third line feed, or up to the end.
fn third_line(text: &[u8]) -> Option<&[u8]>
    ensures { option_map (λ line. line.now) result ≡ slice_get (slice_split is_feed text.now) 2 }
{
    text.split(|c| *c == b'\n').nth(2)
}
