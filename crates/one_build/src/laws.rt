//! The law, on a function that does nothing of its own.
ghost use Rattle.std.specs.Prelude.{◌≡◌, ◌≢◌, ℤ, List, Option};
ghost use Rattle.answers.specs.declared.answer.Answer.{Answer as Told};
ghost use Rattle.answers.specs.declared.answer.Answer.TheVariants.{Want};
ghost use Rattle.building.specs.Inputs.{FiveTexts};
ghost use Rattle.macro_building.specs.Built.{BuiltDesign, IsBuiltDesign};
ghost use Rattle.macro_building.specs.Refusal.{IsUnbuilt};
ghost use Rattle.one_build.specs.Same.{AreBuiltAlike};

use macro_blocks::texts_have_one_record;
use one_design::{texts_have_one_design, texts_have_one_set_of_records};
use one_drawing::read_commands_stand_apart;
use one_macro_grid::{
    drawn_or_refused_over_blocks, extracted_or_refused_over_blocks, one_drawing_over_blocks,
    one_network_over_blocks, one_refusal_of_extraction_over_blocks, one_refusal_over_blocks,
};
use one_network::{one_first_unsupplied, one_list_of_limits};

/// Five texts have one design, but for the certificate of its network, or one answer that tells why nothing is built of
/// them, and not both; want of memory aside.
pub fn texts_have_one_build()
    ensures refusal { (t : FiveTexts) (a b : Told) → IsUnbuilt t a → IsUnbuilt t b → a ≢ Want → b ≢ Want → a ≡ b }
    ensures apart { (told : Option (List ℤ × List ℤ)) (t : FiveTexts) (design : BuiltDesign) (a : Told)
        → IsBuiltDesign told t design → IsUnbuilt t a → a ≡ Want }
    ensures design { (told told' : Option (List ℤ × List ℤ)) (t : FiveTexts) (one other : BuiltDesign)
        → IsBuiltDesign told t one → IsBuiltDesign told' t other → AreBuiltAlike one other }
{
    texts_have_one_design();
    texts_have_one_set_of_records();
    texts_have_one_record();
    read_commands_stand_apart();
    one_drawing_over_blocks();
    one_refusal_over_blocks();
    drawn_or_refused_over_blocks();
    one_network_over_blocks();
    one_refusal_of_extraction_over_blocks();
    extracted_or_refused_over_blocks();
    one_list_of_limits();
    one_first_unsupplied();
}
