// What holds of all manifests. A law is a function that does nothing: its contract is the law, and a call
// tells it to the caller's proof.
ghost use Rattle.std.specs.Prelude.{◌≡◌, ◌≢◌, ◌+◌, ◌*◌, ◌<◌, ◌^◌, ◌++◌, List, Ok, Result, All, true, length, ℕ};
ghost use Rattle.dir_io.specs.Files.{Files, has_prefix};
ghost use Rattle.field_codec.specs.Forms.{Finds, Flaw, Found, HoldsForm, form_in};
ghost use Rattle.field_codec.specs.Manifest.{Content, IsManifest};
ghost use Rattle.field_codec.specs.Paths as paths;
ghost use Rattle.field_codec.specs.Reading.{Reads, manifest_in};
ghost use Rattle.field_codec.specs.Written.{IsWritable, written_manifest};

use text_fields::number_texts_are_numbers;

/// Reading from left to right and the form of a manifest agree: a manifest is read as what it says, and bytes
/// that are read are a manifest that says it.
pub fn manifests_are_read()
    ensures read { (bytes : List ℕ) (content : Content)
        → IsManifest bytes content → Reads (manifest_in bytes) content }
    ensures found { (bytes : List ℕ) (content : Content)
        → All (λ byte. byte < 256) bytes → Reads (manifest_in bytes) content → IsManifest bytes content }
{}

/// Bytes have one reading as a manifest.
pub fn manifests_have_one_reading()
    ensures { (bytes : List ℕ) (content other : Content)
        → IsManifest bytes content → IsManifest bytes other → content ≡ other }
{}

/// What is written is a manifest, is read again as it was, and begins no other written manifest.
pub fn written_manifests_are_read()
    ensures manifest { (content : Content) → IsWritable content → IsManifest (written_manifest content) content }
    ensures again { (content : Content)
        → IsWritable content → manifest_in (written_manifest content) ≡ Ok (content.slot, content.storages) }
    ensures len { (content : Content) → length (written_manifest content) ≡ 144 + 32 * length content.storages }
    ensures one_form { (content other : Content) (rest more : List ℕ)
        → IsWritable content → IsWritable other
        → written_manifest content ++ rest ≡ written_manifest other ++ more
        → (content ≡ other) × (rest ≡ more) }
{}

/// The names of a snapshot's files begin with its own, and differ: those of different kinds, and those of the storages
/// of two slots.
pub fn names_of_files_differ()
    ensures version { (name : List ℕ) → has_prefix (paths.prefix_of name) (paths.version_path name) ≡ true }
    ensures manifest { (name : List ℕ) (slot : ℕ) → has_prefix (paths.prefix_of name) (paths.manifest_path name slot) ≡ true }
    ensures storage { (name : List ℕ) (slot id : ℕ) → has_prefix (paths.prefix_of name) (paths.storage_path name slot id) ≡ true }
    ensures version_alone { (name : List ℕ) (slot : ℕ) → paths.version_path name ≢ paths.manifest_path name slot }
    ensures version_apart { (name : List ℕ) (slot id : ℕ) → paths.version_path name ≢ paths.storage_path name slot id }
    ensures manifest_apart { (name : List ℕ) (slot other id : ℕ) → paths.manifest_path name slot ≢ paths.storage_path name other id }
    ensures slots { (name : List ℕ) (slot id other other_id : ℕ) → slot < 2 ^ 64 → other < 2 ^ 64
        → paths.storage_path name slot id ≡ paths.storage_path name other other_id → slot ≡ other }
{}

/// Files that hold a form are found as just this form, and files in which a form is found hold it. They hold one form.
pub fn held_forms_are_found()
    ensures found { (files : Files) (name : List ℕ) (content : Content) (found : Result Found Flaw)
        → HoldsForm files name content → Finds files name found → found ≡ Ok (form_in name content) }
    ensures held { (files : Files) (name : List ℕ) (form : Found)
        → Finds files name (Ok form) → (content : Content) × HoldsForm files name content × (form ≡ form_in name content) }
    ensures one { (files : Files) (name : List ℕ) (content other : Content)
        → HoldsForm files name content → HoldsForm files name other → content ≡ other }
{
    number_texts_are_numbers();
}
