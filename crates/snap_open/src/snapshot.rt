// Opening a snapshot.
ghost use Rattle.std.specs.Prelude.{◌≡◌, true, All, IfOk, IfErr, IfSome, is_some};
ghost use Rattle.dir_io.specs.Files.{file_of};
ghost use Rattle.field_codec.specs.Forms.{IsInOrder};
ghost use Rattle.field_codec.specs.FormFaults.{form_seen};
ghost use Rattle.snap_open.specs.Faults.{HasOpenCause, IsOwn, WhyNotOpened};
ghost use Rattle.snap_open.specs.Opening.{OpenedFrom};
ghost use Rattle.snap_open.specs.Steps.{OpenedForm, WhyFormNotOpened};

use crate::fault::OpenFault;
use crate::images::seal_files;
use crate::reading::read_files;
use crate::room::check_room;
use adb_model::Slot;
use book::Book;
use dir_io::Dir;
use field_codec::{Form, held_forms_are_found, read_form};
use std::alloc::Global;

/// Opens a book from the snapshot of this name, and gives it with the snapshot's slot.
///
/// Each slot of the manifest whose file has rows is a storage of the book; each slot is a root, and so is the snapshot's. No file
/// of a storage is read before it is known that the form is sound, and that the storages have room in the budget.
///
/// # Errors
/// The first fault, in the order of [`OpenFault`]; a call of the directory that fails is `DirFault` at its place. Of the files
/// of storages all are read before a fault of one is told. `Gone` where a file that was listed is missing when it is read,
/// as never happens where the directory tells its files.
pub fn open_snapshot<D: Dir>(
    alloc: Global,
    name: &str,
    budget: u64,
    dir: &mut D,
) -> Result<(Book, Slot), OpenFault>
    ensures opened { IfOk result (OpenedFrom budget name.now (D.files dir.old)) }
    ensures refused { IfSome (D.files dir.old) (λ told. IfErr result (WhyNotOpened told name.now budget)) }
    // A form's fault is never the directory's, and no fault of a file is want of memory.
    ensures own { IfErr result IsOwn }
    ensures files { D.files dir.new ≡ D.files dir.old }
    ensures synced { D.synced dir.new ≡ D.synced dir.old }
    ensures cause { HasOpenCause (D.faults dir.old) (D.faults dir.new) result }
{
    held_forms_are_found();
    let form = read_form(alloc, name, dir)?;
    open_form(alloc, budget, form, dir)
}

// Opens a book from the storages of a form.
fn open_form<D: Dir>(
    alloc: Global,
    budget: u64,
    form: Form,
    dir: &mut D,
) -> Result<(Book, Slot), OpenFault>
    requires order { IsInOrder (form_seen form) }
    requires there { IfSome (D.files dir.old) (λ told. All (λ file. is_some (file_of told file.path) ≡ true) (form_seen form).files) }
    ensures opened { IfOk result (OpenedForm budget (D.files dir.old) (form_seen form)) }
    ensures refused { IfErr result (WhyFormNotOpened (D.files dir.old) budget (form_seen form).files) }
    ensures files { D.files dir.new ≡ D.files dir.old }
    ensures synced { D.synced dir.new ≡ D.synced dir.old }
    ensures cause { HasOpenCause (D.faults dir.old) (D.faults dir.new) result }
{
    check_room(budget, &form.files)?;
    let Form { slot, files } = form;
    let images = seal_files(alloc, read_files(alloc, files, dir)?)?;
    let book = Book::rebuild(alloc, budget, slot, images.storages, &images.without_rows)?;
    Ok((book, slot))
}
