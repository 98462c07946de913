//! The laws of the judging of two texts. Each is a function whose body only recalls laws of the crates below.
ghost use Rattle.std.specs.Prelude.{◌≡◌, ◌≢◌, ℕ, List};
ghost use Rattle.answers.specs.declared.answer.Answer.{Answer as Told};
ghost use Rattle.answers.specs.declared.answer.Answer.TheVariants.{Want, Certified};
ghost use Rattle.certificate_file.specs.declared.lists.Lists.{Lists};
ghost use Rattle.grid_net.specs.Certificate.{IsCertificate};
ghost use Rattle.short_merge.specs.declared.merged.Merged.{Merged};
ghost use Rattle.spice_grid.specs.declared.named.Named.{Named};
ghost use Rattle.judging.specs.Texts.{HasNetwork, StandFor, IsVerdict, SolutionsLieBetween};
ghost use Rattle.judging.specs.Judging.{Judges};
ghost use Rattle.judging.specs.Stage.{HasNoNetwork, IsToNetlist, IsToTexts};

use bound_check::{maximum_principle, no_failing_test};
use group_net::bounds_of_groups;
use spice_grid::texts_have_one_netlist;

/// Two texts are judged in one way, want of memory aside. Where they stand for a netlist, the network of its groups and
/// two lists, the answer is what the test of the certificate tells; and where it tells that the certificate holds, every
/// solution of the netlist as it was written lies between the lists.
pub fn texts_are_judged_once()
    ensures one { (netlist certificate netlist_text certificate_text : List ℕ) (a b : Told)
        → Judges netlist certificate netlist_text certificate_text a
        → Judges netlist certificate netlist_text certificate_text b → a ≢ Want → b ≢ Want → a ≡ b }
    ensures tested { (netlist certificate netlist_text certificate_text : List ℕ) (named : Named) (merged : Merged)
        (lists : Lists) (answer : Told) → StandFor netlist_text certificate_text named merged lists
        → Judges netlist certificate netlist_text certificate_text answer → answer ≢ Want
        → IsVerdict merged lists answer }
    ensures bounded { (netlist certificate netlist_text certificate_text : List ℕ) (named : Named) (merged : Merged)
        (lists : Lists) (nodes : ℕ) → StandFor netlist_text certificate_text named merged lists
        → Judges netlist certificate netlist_text certificate_text (Certified nodes)
        → SolutionsLieBetween named merged lists }
{
    texts_have_one_netlist();
    no_failing_test();
    maximum_principle();
    bounds_of_groups();
}

/// Two texts alone are never answered as words, files or a network without supply are; and where the certificate is said to hold, the texts stand
/// for a netlist, the network of its groups and two lists, and the test holds of these.
pub fn answers_to_texts()
    ensures sort { (netlist certificate netlist_text certificate_text : List ℕ) (answer : Told)
        → Judges netlist certificate netlist_text certificate_text answer → IsToTexts answer }
    ensures certified { (netlist certificate netlist_text certificate_text : List ℕ) (nodes : ℕ)
        → Judges netlist certificate netlist_text certificate_text (Certified nodes)
        → (named : Named) × (merged : Merged) × (lists : Lists)
        × StandFor netlist_text certificate_text named merged lists
        × IsCertificate merged.net lists.high lists.low }
{}

/// The text of a netlist has one network of its groups or one refusal, and not both, want of memory aside. It is never
/// answered as words, files, certificates or a network without supply are.
pub fn netlists_are_merged_once()
    ensures network { (text : List ℕ) (named other : Named) (merged fellow : Merged) → HasNetwork text named merged
        → HasNetwork text other fellow → (named ≡ other) × (merged ≡ fellow) }
    ensures refusal { (file text : List ℕ) (a b : Told) → HasNoNetwork file text a → HasNoNetwork file text b → a ≢ Want
        → b ≢ Want → a ≡ b }
    ensures not_both { (file text : List ℕ) (named : Named) (merged : Merged) (answer : Told)
        → HasNetwork text named merged → HasNoNetwork file text answer → answer ≡ Want }
    ensures sort { (file text : List ℕ) (answer : Told) → HasNoNetwork file text answer → IsToNetlist answer }
{
    texts_have_one_netlist();
}
