// The exported calls on the bytes of sets and of lists. A number that is no edition is told by a disposition of its own, and leaves every byte.
ghost use Rattle.std.specs.Prelude.{◌≡◌, length};
ghost use Rattle.spec_patch.specs.Read.{read_set};
ghost use Rattle.spec_patch.specs.Write as write_model;
ghost use Rattle.spec_listing.specs.Listing.{listing};
ghost use Rattle.spec_import.specs.Import.{import_terms};
ghost use Rattle.spec_conversion.specs.Conversion.{convert};
ghost use Rattle.spec_dependencies.specs.Answer.{dependencies_of};
ghost use Rattle.patch_part_writer.specs.Answer.{written_at, output_at};
ghost use Rattle.patch_import.specs.Answers.{import_answer, import_output};
ghost use Rattle.patch_converter.specs.Answers.{conversion_answer, conversion_output};
ghost use Rattle.check_set.specs.CheckAnswers.{check_answer, check_numbers};
ghost use Rattle.set_dependencies.specs.DependsAnswers.{depends_answer_to};
ghost use Rattle.c_answers.specs.Asked.{by_edition, envelope_at};
ghost use Rattle.c_answers.specs.Counts.{not_counted, written_to, import_told, conversion_told};
ghost use Rattle.c_answers.specs.Sets.{unchecked_set, check_told, not_told, dependencies_told};

use c_answers::counts::GeysertrayCount;
use c_answers::sets::{GeysertrayChecked, GeysertrayDependencies};
use c_answers::{asked, counts, sets};
use set_dependencies::depends;

const NO_SUCH: u64 = 4;

// Checks a set: records of three numbers, kind, domain and secondary, as many as fit; 12 or 10 for a set that does not read.
pub fn geysertray_check(set: &[u8], edition: u64, findings: &mut [u64]) -> GeysertrayChecked
    ensures told { result ≡ by_edition edition (λ e. check_told (check_answer (read_set e set.now) (length findings.old))) (unchecked_set 4 0) }
    ensures written { findings.new ≡ by_edition edition (λ e. check_numbers (read_set e set.now) findings.old) findings.old }
{
    if asked::is_edition(edition) {
        let answer = check_set::check_set::check(set, asked::edition_of(edition), findings);
        return sets::check_told(answer);
    }
    sets::unchecked(NO_SUCH, 0)
}

// Brings a term list in as a set of one patch, of this envelope (has_surface 0: no surface): an insert for each line; the count is that of the
// bytes. 15 for a line of another form, 12, 11 for what the patch checks find, 14. What is behind the set stays.
pub fn geysertray_import_terms(
    list: &[u8],
    edition: u64,
    collection: u64,
    patch_id: u64,
    stream: u64,
    document: u64,
    has_surface: u64,
    surface: u64,
    previous_revision: u64,
    revision: u64,
    epoch: u64,
    sequence: u64,
    out: &mut [u8],
) -> GeysertrayCount
    ensures told { result ≡ by_edition edition (λ e. import_told (import_answer (import_terms e collection (envelope_at patch_id stream document has_surface surface previous_revision revision epoch sequence) list.now (length out.old)))) (not_counted 4) }
    ensures written { out.new ≡ by_edition edition (λ e. import_output out.old (import_terms e collection (envelope_at patch_id stream document has_surface surface previous_revision revision epoch sequence) list.now (length out.old))) out.old }
{
    if asked::is_edition(edition) {
        let envelope = asked::envelope_at(
            patch_id,
            stream,
            document,
            has_surface,
            surface,
            previous_revision,
            revision,
            epoch,
            sequence,
        );
        let told = asked::edition_of(edition);
        let answer = patch_import::import_terms(list, told, collection, envelope, out);
        return counts::import_told(answer);
    }
    counts::not_counted(NO_SUCH)
}

// Converts a set of an edition into the other; the count is that of the bytes. 12 or 10 for a set that does not read, 18 for a value that the
// other edition lacks, 14. What is behind the set stays.
pub fn geysertray_convert(set: &[u8], edition: u64, out: &mut [u8]) -> GeysertrayCount
    ensures told { result ≡ by_edition edition (λ e. conversion_told (conversion_answer (convert e set.now (length out.old)))) (not_counted 4) }
    ensures written { out.new ≡ by_edition edition (λ e. conversion_output out.old (convert e set.now (length out.old))) out.old }
{
    if asked::is_edition(edition) {
        let answer = patch_converter::convert(set, asked::edition_of(edition), out);
        return counts::conversion_told(answer);
    }
    counts::not_counted(NO_SUCH)
}

// Writes the listing of a set on an empty panel; the count is that of the bytes. A set that is refused is listed as `E` and the number; 14.
pub fn geysertray_set_listing(set: &[u8], edition: u64, out: &mut [u8]) -> GeysertrayCount
    ensures told { result ≡ by_edition edition (λ e. written_to (written_at out.old 0 (write_model.wrote (listing e set.now)))) (not_counted 4) }
    ensures written { out.new ≡ by_edition edition (λ e. output_at out.old 0 (write_model.wrote (listing e set.now))) out.old }
{
    if asked::is_edition(edition) {
        let answer = listing_panel::write_listing(set, asked::edition_of(edition), out);
        return counts::written_to(answer);
    }
    counts::not_counted(NO_SUCH)
}

// What a set depends on: two numbers for each key, collection and key, first of those that must be there at the start, then of those that must
// be absent. 12 or 10 for a set that does not read, 11 for what the patch checks find, 14; these and never write nothing.
pub fn geysertray_depends(set: &[u8], edition: u64, out: &mut [u64]) -> GeysertrayDependencies
    ensures told { result ≡ by_edition edition (λ e. dependencies_told (depends_answer_to (dependencies_of e set.now out.old).answer)) (not_told 4 0) }
    ensures written { out.new ≡ by_edition edition (λ e. (dependencies_of e set.now out.old).output) out.old }
{
    if asked::is_edition(edition) {
        let answer = depends::depends(set, asked::edition_of(edition), out);
        return sets::dependencies_told(answer);
    }
    sets::not_told(NO_SUCH, 0)
}
