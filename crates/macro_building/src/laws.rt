//! A law of the definitions, on a function that does nothing of its own.
ghost use Rattle.answers.specs.declared.answer.Answer.{Answer as Told};
ghost use Rattle.building.specs.Inputs.{FiveTexts};
ghost use Rattle.building.specs.Refusal.{IsToDesign};
ghost use Rattle.macro_building.specs.Refusal.{IsUnbuilt};

use building::answers_to_designs;

/// Texts of which nothing is built are answered by a text that is refused, by why there is no grid or no network, by a
/// quantity beyond its limit, by a node without supply, or by want of memory, and by nothing else, whether over blocks or not.
pub fn answers_to_builds()
    ensures { (t : FiveTexts) (answer : Told) → IsUnbuilt t answer → IsToDesign answer }
{
    answers_to_designs();
}
