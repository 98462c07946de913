ghost use Rattle.std.specs.Prelude.{◌≡◌, ◌≤◌, ℤ, List, AllPairs, length};
ghost use Rattle.level_region.specs.declared.span.Span.{Span};
ghost use Rattle.level_region.specs.Block.{Block, end_of, part_of, written_over, both_written, AreApart};
ghost use Rattle.level_region.specs.Cuts.{Cut, AreInTurn, SameUse, spans_of};

/// The law of spans: those that `cut` gave since the last `reset` never overlap, however many calls there were,
/// whatever they were asked for, and whatever was written between them.
pub fn spans_never_overlap()
    ensures { (cuts : List Cut) → AreInTurn cuts → AllPairs AreApart (spans_of cuts) }
{}

/// The law of writes: what is written over a span's cells is read there, and every span that does not overlap it
/// reads as before. What is written over two spans at once is written over the one, and then over the other.
pub fn writes_stay_in_their_span()
    ensures written { (block : Block) (span : Span) (numbers : List ℤ)
        → end_of span ≤ length block.cells → length numbers ≡ span.len
        → part_of (written_over block span.start numbers) span ≡ numbers }
    ensures others { (block : Block) (span other : Span) (numbers : List ℤ)
        → end_of span ≤ length block.cells → length numbers ≡ span.len → AreApart span other
        → part_of (written_over block span.start numbers) other ≡ part_of block other }
    ensures same_use { (block : Block) (span : Span) (numbers : List ℤ)
        → end_of span ≤ length block.cells → length numbers ≡ span.len
        → SameUse block (written_over block span.start numbers) }
    ensures both { (block : Block) (a b : Span) (of_a of_b : List ℤ)
        → end_of a ≤ length block.cells → end_of b ≤ length block.cells → AreApart a b
        → length of_a ≡ a.len → length of_b ≡ b.len
        → both_written block a b of_a of_b ≡ written_over (written_over block a.start of_a) b.start of_b }
{}
