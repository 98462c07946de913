//! Laws of the definitions, each on a function that does nothing of its own.
ghost use Rattle.std.specs.Prelude.{◌≡◌, ◌≢◌, ℤ, List, Option};
ghost use Rattle.answers.specs.declared.answer.Answer.{Answer as Told};
ghost use Rattle.answers.specs.declared.answer.Answer.TheVariants.{Want};
ghost use Rattle.building.specs.Building.{Design, IsDesignOf};
ghost use Rattle.building.specs.Inputs.{FiveTexts};
ghost use Rattle.building.specs.Reading.{AreRecords, IsUnread};
ghost use Rattle.building.specs.Refusal.{IsUnbuilt};
ghost use Rattle.building.specs.declared.records.Records.{Records as Said};
ghost use Rattle.one_design.specs.Same.{AreSameButCertificates, AreWiredAlike};
ghost use Rattle.signing_off.specs.Inputs.{WiredTexts};
ghost use Rattle.signing_off.specs.Refusal.{IsUnsigned};
ghost use Rattle.signing_off.specs.Signing.{WiredDesign, IsWiredDesign};

use bias_file::texts_have_one_bias;
use def_design::{texts_have_one_design as designs_have_one_record, texts_have_one_placed_design};
use def_wiring::texts_have_one_wiring;
use lef_cells::texts_have_one_record as cells_have_one_record;
use lef_tech::texts_have_one_tech;
use one_drawing::{
    drawn_or_refused, one_drawing, one_refusal_of_drawing, read_commands_stand_apart,
};
use one_network::{
    extracted_or_refused, one_first_unsupplied, one_list_of_limits, one_network,
    one_refusal_of_extraction,
};
use one_wired_grid::{one_refusal_of_wiring, one_wired_grid, wired_or_refused};
use pdn_script::texts_have_one_script;

/// Five texts have one design, but for the certificate of its network, or one answer that tells why nothing is built of
/// them, and not both; want of memory aside.
pub fn texts_have_one_design()
    ensures refusal { (t : FiveTexts) (a b : Told) → IsUnbuilt t a → IsUnbuilt t b → a ≢ Want → b ≢ Want → a ≡ b }
    ensures apart { (told : Option (List ℤ × List ℤ)) (t : FiveTexts) (design : Design) (a : Told)
        → IsDesignOf told t design → IsUnbuilt t a → a ≡ Want }
    ensures design { (told told' : Option (List ℤ × List ℤ)) (t : FiveTexts) (one other : Design)
        → IsDesignOf told t one → IsDesignOf told' t other → AreSameButCertificates one other }
{
    texts_have_one_tech();
    cells_have_one_record();
    designs_have_one_record();
    texts_have_one_script();
    texts_have_one_bias();
    read_commands_stand_apart();
    one_drawing();
    one_refusal_of_drawing();
    drawn_or_refused();
    one_network();
    one_refusal_of_extraction();
    extracted_or_refused();
    one_list_of_limits();
    one_first_unsupplied();
}

/// Five texts have one set of records, or a text that is refused, and not both; want of memory aside.
pub fn texts_have_one_set_of_records()
    ensures one { (t : FiveTexts) (a b : Said) → AreRecords t a → AreRecords t b → a ≡ b }
    ensures apart { (t : FiveTexts) (records : Said) (a : Told) → AreRecords t records → IsUnread t a → a ≡ Want }
{
    texts_have_one_tech();
    cells_have_one_record();
    designs_have_one_record();
    texts_have_one_script();
    texts_have_one_bias();
}

/// Five texts of a sign-off have one grid with one network and one list of limits, or one answer that tells why nothing is
/// signed off of them, and not both; want of memory aside.
pub fn texts_have_one_wired_design()
    ensures refusal { (t : WiredTexts) (a b : Told) → IsUnsigned t a → IsUnsigned t b → a ≢ Want → b ≢ Want → a ≡ b }
    ensures apart { (told : Option (List ℤ × List ℤ)) (t : WiredTexts) (design : WiredDesign) (a : Told)
        → IsWiredDesign told t design → IsUnsigned t a → a ≡ Want }
    ensures design { (told told' : Option (List ℤ × List ℤ)) (t : WiredTexts) (one other : WiredDesign)
        → IsWiredDesign told t one → IsWiredDesign told' t other → AreWiredAlike one other }
{
    texts_have_one_tech();
    cells_have_one_record();
    texts_have_one_placed_design();
    texts_have_one_wiring();
    texts_have_one_bias();
    one_wired_grid();
    one_refusal_of_wiring();
    wired_or_refused();
    one_network();
    one_refusal_of_extraction();
    extracted_or_refused();
    one_list_of_limits();
    one_first_unsupplied();
}
