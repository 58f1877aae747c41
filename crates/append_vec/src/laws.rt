// What holds of all filled images. A law is a function that does nothing: its contract is the law, and a call
// tells it to the caller's proof.
ghost use Rattle.std.specs.Prelude.{◌≡◌, ℕ, List, Some, length, slice_get};
ghost use Rattle.adb_model.specs.State.{Row};
ghost use Rattle.adb_model.specs.Laws.{SameRows};
ghost use Rattle.vec_scan.specs.Image.{Image};
ghost use Rattle.vec_scan.specs.Seal.{rows_in, row_there};
ghost use Rattle.append_vec.specs.Filled.{Fills, KeysDiffer};

/// A law: a filled image has the rows that it was filled with, those of each key in their order. There are as
/// many places as rows, and at each place stands the row of its number.
pub fn filled_rows_are_the_same()
    ensures same { (slot id : ℕ) (rows : List Row) (image : Image) (places : List ℕ)
        → Fills slot id rows image places → KeysDiffer rows → SameRows (rows_in image) rows }
    ensures places { (slot id : ℕ) (rows : List Row) (image : Image) (places : List ℕ)
        → Fills slot id rows image places → length places ≡ length rows }
    ensures there { (slot id : ℕ) (rows : List Row) (image : Image) (places : List ℕ) (i place : ℕ) (row : Row)
        → Fills slot id rows image places → slice_get places i ≡ Some place → slice_get rows i ≡ Some row
        → row_there image.rows place ≡ Some row }
{}
