//! Laws of the definitions, on functions that do nothing.
ghost use Rattle.std.specs.Prelude.{ℕ, ◌≤◌, ℤ, List, Ok, Result, unsigned_abs};
ghost use Rattle.reading.specs.declared.error.ReadError.{ReadError as Error};
ghost use Rattle.reading.specs.Error.{Agree};
ghost use Rattle.fixed_decimal.specs.Printed.{printed};
ghost use Rattle.certificate_file.specs.Format.{ReadsCertificate};
ghost use Rattle.certificate_file.specs.Record.{lists_of};
ghost use Rattle.certificate_file.specs.Voltage.{IsVoltage, limit};
ghost use Rattle.certificate_file.specs.Written.{certificate_text, CanBeWritten};
ghost use Rattle.certificate_file.specs.declared.lists.Lists.{Lists as Record};
ghost use Rattle.certificate_file.specs.declared.error.CertKind.{CertKind as Kind};
ghost use Rattle.certificate_file.specs.declared.error.CertKind.TheVariants.{Want};

use crate::format::CertificateFormat;
use fixed_decimal::texts_have_one_answer;
use outside::Name;
use reading::{texts_have_one_result, whole_units_are_read};
use text_lex::one_split;

/// A text has one pair of lists or one refusal for these names, and not both; want of memory aside.
pub fn texts_have_one_certificate(names: &[Name])
    ensures { (text : List ℕ) (a b : Result Record (Error Kind)) → ReadsCertificate names.now text a →
        ReadsCertificate names.now text b → Agree Want a b }
{
    one_split();
    texts_have_one_answer();
    texts_have_one_result(&CertificateFormat { names });
}

/// A voltage within the limit is written as a word that stands for it.
pub fn written_voltages_read_back()
    ensures { (voltage : ℤ) → unsigned_abs voltage ≤ limit → IsVoltage (printed voltage 0) (Ok voltage) }
{}

/// A written certificate reads back: where each name is one word of a line, and each list has for each name a voltage
/// within the limit, reading what is written of them gives these two lists, and nothing else; want of memory aside.
pub fn written_certificates_read_back(names: &[Name])
    ensures reads { (high low : List ℤ) → CanBeWritten names.now high low →
        ReadsCertificate names.now (certificate_text names.now high low) (Ok (lists_of high low)) }
    ensures alone { (high low : List ℤ) (result : Result Record (Error Kind)) → CanBeWritten names.now high low →
        ReadsCertificate names.now (certificate_text names.now high low) result →
        Agree Want (Ok (lists_of high low)) result }
{
    texts_have_one_answer();
    texts_have_one_certificate(names);
    whole_units_are_read(&CertificateFormat { names });
}
