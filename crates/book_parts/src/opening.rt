ghost use Rattle.std.specs.Prelude.{◌≡◌, ◌+◌, ◌∷◌, ◌++◌, ℕ, List, [], length, map, All};
ghost use Rattle.accounts_index.specs.Index.{Index};
ghost use Rattle.vec_scan.specs.Image.{Image};
ghost use Rattle.vec_scan.specs.Shown.{stored};
ghost use Rattle.cell_table.specs.declared.phase.Phase.TheVariants as phases;
ghost use Rattle.cell_table.specs.Cells.{Table};
ghost use Rattle.storage_map.specs.Slots.{Slots};
ghost use Rattle.adb_model.specs.Opened as machine;
ghost use Rattle.adb_model.specs.Opened.{opened, opened_roots};
ghost use Rattle.adb_model.specs.Laws.{MayOpen};
ghost use Rattle.adb_model.specs.RowBytes.{ImagesHaveBytes};
ghost use Rattle.book_parts.specs.Parts.{Parts, Shared, new_parts};
ghost use Rattle.book_parts.specs.Reflects.{Reflects};
ghost use Rattle.book_parts.specs.Stands.{Stands};
ghost use Rattle.book_parts.specs.Opening.{AreOpenable, MayFollow, ImageOpens};

use adb_model::{named_pairs_stand_once, rows_have_bytes, states_are_sound};

/// A law: parts that are opened from one image after another reflect the state that is opened from these
/// images. Free parts reflect the one that is opened from none.
pub fn opened_parts_reflect()
    ensures empty { (cells : Table Shared) (slot : ℕ) (more : List ℕ)
        → length cells.cells ≡ 1048576 → All (λ cell. cell ≡ phases.Free) cells.cells
        → Reflects (record (new_parts cells 1) { roots = opened_roots slot [] more; cleaned = slot }) (opened cells.limit slot [] more) }
    ensures follows { (slot : ℕ) (front rest : List Image) (image : Image)
        → AreOpenable slot (front ++ image ∷ rest) → MayFollow slot (map stored front) image }
    ensures next { (p : Parts) (index : Index) (table : Table Shared) (slots : Slots) (budget slot cell : ℕ) (images : List machine.Image) (more : List ℕ) (image : Shared)
        → MayOpen budget images → Reflects p (opened budget slot images more) → MayFollow slot images image.value
        → ImageOpens cell image p.index index p.cells table p.map slots
        → Reflects (record p { index = index; cells = table; map = slots; roots = opened_roots slot (images ++ stored image.value ∷ []) more; next_id = length images + 2 })
        (opened budget slot (images ++ stored image.value ∷ []) more) }
    ensures may { (p : Parts) (index : Index) (table : Table Shared) (slots : Slots) (budget slot cell : ℕ) (images : List machine.Image) (more : List ℕ) (image : Shared)
        → MayOpen budget images → Reflects p (opened budget slot images more) → MayFollow slot images image.value
        → ImageOpens cell image p.index index p.cells table p.map slots
        → MayOpen budget (images ++ stored image.value ∷ []) }
{
    states_are_sound();
}

/// A law: parts that reflect the state that is opened from images stand for no events from that state.
pub fn opened_parts_stand()
    ensures { (p : Parts) (budget slot : ℕ) (images : List machine.Image) (more : List ℕ)
        → MayOpen budget images → ImagesHaveBytes images → Reflects p (opened budget slot images more)
        → Stands p (opened budget slot images more) [] }
{
    states_are_sound();
    named_pairs_stand_once();
    rows_have_bytes();
}
