// What is read back, and what texts name.
ghost use Rattle.std.specs.Prelude.{◌≡◌, true, false, Ok};
ghost use Rattle.verdicts.specs.Certificate.{Certificate};
ghost use Rattle.certificate.specs.Text.{certificate_text};
ghost use Rattle.certificate.specs.Written.{HasText as HasCertificateText};
ghost use Rattle.partial_certificate.specs.Partial.{Partial};
ghost use Rattle.partial_certificate.specs.Text.{partial_text};
ghost use Rattle.partial_certificate.specs.Written.{HasText};
ghost use Rattle.partial_reader.specs.Reading.{read_partial_of};
ghost use Rattle.partial_reader.specs.Kinds.{names_undecided};

use fraction::texts;

/// The text of each partial certificate that has one is read as this partial certificate.
pub fn partial_texts_are_read_back()
    ensures again { (c : Partial) → HasText c → read_partial_of (partial_text c) ≡ Ok c }
{
    texts();
}

/// The text of a partial certificate names the verdict `undecided`, and that of a certificate does not.
pub fn texts_name_their_kind()
    ensures partial { (c : Partial) → HasText c → names_undecided (partial_text c) ≡ true }
    ensures certificate { (c : Certificate) → HasCertificateText c → names_undecided (certificate_text c) ≡ false }
{}
