ghost use Rattle.std.specs.Prelude.{◌↔◌, ℤ, IsTrue};
ghost use Rattle.geom_rect.specs.Run.{HasCell};
ghost use Rattle.geom_rect.specs.declared.run.Run.{Run};
ghost use Rattle.run_index.specs.Entry.{share_cell};

/// The law of the test: it holds of two runs exactly where some cell is in both.
pub fn shared_cells()
    ensures every { (a b : Run) (t : ℤ) → HasCell a t → HasCell b t → IsTrue (share_cell a b) }
    ensures some { (a b : Run) → IsTrue (share_cell a b) → (t : ℤ) × HasCell a t × HasCell b t }
{}
