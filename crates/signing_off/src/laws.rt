//! A law of the definitions, on a function that does nothing.
ghost use Rattle.answers.specs.declared.answer.Answer.{Answer as Told};
ghost use Rattle.building.specs.Refusal.{IsToDesign};
ghost use Rattle.signing_off.specs.Inputs.{WiredTexts};
ghost use Rattle.signing_off.specs.Refusal.{IsUnsigned};

/// Texts of which nothing is signed off are answered by a text that is refused, by why there is no grid or no network, by a
/// quantity beyond its limit, by a node without supply, or by want of memory, and by nothing else.
pub fn answers_to_wiring()
    ensures { (t : WiredTexts) (answer : Told) → IsUnsigned t answer → IsToDesign answer }
{}
