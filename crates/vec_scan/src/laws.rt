// What holds of all images. A law is a function that does nothing: its contract is the law, and a call
// tells it to the caller's proof.
ghost use Rattle.std.specs.Prelude.{◌≡◌, List, ℕ, length, sum_by};
ghost use Rattle.std.specs.List.{AllByRecursion};
ghost use Rattle.adb_model.specs.Account.{size};
ghost use Rattle.adb_model.specs.RowBytes.{RowsTake};
ghost use Rattle.adb_model.specs.State.{Row};
ghost use Rattle.vec_scan.specs.Image.{Image, IsImage, Placed};
ghost use Rattle.vec_scan.specs.Seal.{rows_in};
ghost use Rattle.vec_scan.specs.Written.{IsWritableRow, written_image, written_rows};

use account_layout::{records_are_read, records_have_one_reading, written_records_are_read};

/// Bytes have one reading as an image.
pub fn images_have_one_reading()
    ensures { (bytes : List ℕ) (rows others : List Placed) → IsImage bytes rows → IsImage bytes others → rows ≡ others }
{
    records_have_one_reading();
}

/// The written records of rows, one after another, are an image with these rows, and no other rows are
/// written so.
pub fn written_images_are_read()
    ensures image { (rows : List Row) → AllByRecursion IsWritableRow rows → IsImage (written_image rows) (written_rows 0 rows) }
    ensures len { (rows : List Row) → AllByRecursion IsWritableRow rows → length (written_image rows) ≡ sum_by (λ row. size row.account) rows }
    ensures one_form { (rows others : List Row) → AllByRecursion IsWritableRow rows → AllByRecursion IsWritableRow others
        → written_image rows ≡ written_image others → rows ≡ others }
{
    written_records_are_read();
}

/// Each row takes at least the bytes of a record's header.
pub fn rows_take_bytes()
    ensures { (image : Image) → IsImage image.bytes image.rows → RowsTake (rows_in image) (length image.bytes) }
{
    records_are_read();
}
