// What is read back.
ghost use Rattle.std.specs.Prelude.{◌≡◌, Ok};
ghost use Rattle.verdicts.specs.Certificate.{Certificate};
ghost use Rattle.certificate.specs.Text.{certificate_text};
ghost use Rattle.certificate.specs.Written.{HasText};
ghost use Rattle.certificate_reader.specs.Reading.{read_of};

use fraction::texts;

/// The text of each certificate that has one is read as this certificate.
pub fn texts_are_read_back()
    ensures { (c : Certificate) → HasText c → read_of (certificate_text c) ≡ Ok c }
{
    texts();
}
