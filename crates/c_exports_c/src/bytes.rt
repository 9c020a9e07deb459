// The exported calls on the bytes of sets and of lists.
ghost use Rattle.std.specs.Prelude.{◌≡◌, length};
ghost use Rattle.spec_patch.specs.Read.{read_set};
ghost use Rattle.spec_patch.specs.Write as write_model;
ghost use Rattle.spec_listing.specs.Listing.{listing};
ghost use Rattle.spec_import.specs.Import.{import_terms};
ghost use Rattle.spec_conversion.specs.Conversion.{convert};
ghost use Rattle.spec_dependencies.specs.Answer.{dependencies_of};
ghost use Rattle.patch_part_writer.specs.Answer.{written_at, output_at};
ghost use Rattle.patch_import.specs.Answers.{import_answer, import_output};
ghost use Rattle.patch_converter.specs.Answers.{conversion_answer, conversion_output};
ghost use Rattle.check_set.specs.CheckAnswers.{check_answer, check_numbers};
ghost use Rattle.set_dependencies.specs.DependsAnswers.{depends_answer_to};
ghost use Rattle.c_answers.specs.Asked.{by_edition, envelope_at};
ghost use Rattle.c_answers.specs.Counts.{not_counted, written_to, import_told, conversion_told};
ghost use Rattle.c_answers.specs.Sets.{unchecked_set, check_told, not_told, dependencies_told};

use c_answers::counts::GeysertrayCount;
use c_answers::sets::{GeysertrayChecked, GeysertrayDependencies};
use c_exports::bytes;

#[unsafe(no_mangle)]
pub extern "C" fn geysertray_check(
    set: &[u8],
    edition: u64,
    findings: &mut [u64],
) -> GeysertrayChecked
    ensures told { result ≡ by_edition edition (λ e. check_told (check_answer (read_set e set.now) (length findings.old))) (unchecked_set 4 0) }
    ensures written { findings.new ≡ by_edition edition (λ e. check_numbers (read_set e set.now) findings.old) findings.old }
{
    bytes::geysertray_check(set, edition, findings)
}

#[unsafe(no_mangle)]
pub extern "C" fn geysertray_import_terms(
    list: &[u8],
    edition: u64,
    collection: u64,
    patch_id: u64,
    stream: u64,
    document: u64,
    has_surface: u64,
    surface: u64,
    previous_revision: u64,
    revision: u64,
    epoch: u64,
    sequence: u64,
    out: &mut [u8],
) -> GeysertrayCount
    ensures told { result ≡ by_edition edition (λ e. import_told (import_answer (import_terms e collection (envelope_at patch_id stream document has_surface surface previous_revision revision epoch sequence) list.now (length out.old)))) (not_counted 4) }
    ensures written { out.new ≡ by_edition edition (λ e. import_output out.old (import_terms e collection (envelope_at patch_id stream document has_surface surface previous_revision revision epoch sequence) list.now (length out.old))) out.old }
{
    bytes::geysertray_import_terms(
        list,
        edition,
        collection,
        patch_id,
        stream,
        document,
        has_surface,
        surface,
        previous_revision,
        revision,
        epoch,
        sequence,
        out,
    )
}

#[unsafe(no_mangle)]
pub extern "C" fn geysertray_convert(set: &[u8], edition: u64, out: &mut [u8]) -> GeysertrayCount
    ensures told { result ≡ by_edition edition (λ e. conversion_told (conversion_answer (convert e set.now (length out.old)))) (not_counted 4) }
    ensures written { out.new ≡ by_edition edition (λ e. conversion_output out.old (convert e set.now (length out.old))) out.old }
{
    bytes::geysertray_convert(set, edition, out)
}

#[unsafe(no_mangle)]
pub extern "C" fn geysertray_set_listing(
    set: &[u8],
    edition: u64,
    out: &mut [u8],
) -> GeysertrayCount
    ensures told { result ≡ by_edition edition (λ e. written_to (written_at out.old 0 (write_model.wrote (listing e set.now)))) (not_counted 4) }
    ensures written { out.new ≡ by_edition edition (λ e. output_at out.old 0 (write_model.wrote (listing e set.now))) out.old }
{
    bytes::geysertray_set_listing(set, edition, out)
}

#[unsafe(no_mangle)]
pub extern "C" fn geysertray_depends(
    set: &[u8],
    edition: u64,
    out: &mut [u64],
) -> GeysertrayDependencies
    ensures told { result ≡ by_edition edition (λ e. dependencies_told (depends_answer_to (dependencies_of e set.now out.old).answer)) (not_told 4 0) }
    ensures written { out.new ≡ by_edition edition (λ e. (dependencies_of e set.now out.old).output) out.old }
{
    bytes::geysertray_depends(set, edition, out)
}
