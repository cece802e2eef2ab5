ghost use Rattle.std.specs.Prelude.{◌≡◌, ◌≤◌, true, false, [], map, vec_len, vec_capacity, MatchResult};
ghost use Rattle.std.specs.List.{list_any};
ghost use Rattle.std.specs.Str.{bytes_eq};
ghost use Rattle.goals.specs.Vocabulary.{name_of};
ghost use Rattle.goals.specs.Sections.{predicates_from};
ghost use Rattle.goals.specs.CatalogueRules.{sound_counts, sound_predicates};
ghost use Rattle.goals.specs.CatalogueReading.{CatalogueSays};
ghost use Rattle.goals.specs.EntryReading.{OperationsSay};
ghost use Rattle.goals.specs.Entries.{predicate_text};

use crate::catalogue::{Catalogue, CatalogueRoom, MOST_OPERATIONS, MOST_PREDICATES};
use crate::catalogue_fault::CatalogueFault;
use crate::frame::{Frame, FramedFile, PREDICATES_AT, entries};
use crate::operation::Operation;
use crate::predicate::{Predicate, number_of};
use crate::read_operation::OperationReader;
use crate::read_predicate::read_predicate;

// Does one of the predicates have the name?
fn is_taken(predicates: &[Predicate], name: &[u8]) -> bool
    ensures { result ≡ list_any (λ p. bytes_eq (name_of p) name.now) predicates.now }
{
    number_of(predicates, name).is_some()
}

// Reads the predicates; a fault if one of them breaks a rule or has a name that one before it has.
fn read_predicates(
    file: &[u8],
    count: u8,
    predicates: &mut Vec<Predicate>,
) -> Result<(), CatalogueFault>
    requires none { vec_len predicates.old ≡ 0 }
    requires room { 16 ≤ vec_capacity predicates.old }
    requires few { count ≤ 16 }
    ensures { MatchResult result
        (λ _. (map predicate_text predicates.new.items ≡ predicates_from file.now count 14) × (sound_predicates [] (predicates_from file.now count 14) ≡ true))
        (λ fault. (fault ≡ CatalogueFault.Shape) × (sound_predicates [] (predicates_from file.now count 14) ≡ false)) }
{
    let mut at = PREDICATES_AT;
    for _ in 0..count {
        let predicate = read_predicate(file, at).ok_or(CatalogueFault::Shape)?;
        if is_taken(predicates, predicate.letters()) {
            return Err(CatalogueFault::Shape);
        }
        at += 2 + predicate.length;
        predicates.push_reserved(predicate);
    }
    Ok(())
}

// Reads the operations; else the fault names one that breaks a rule.
fn read_operations(
    reader: OperationReader<'_>,
    frame: Frame,
    operations: &mut Vec<Operation>,
) -> Result<(), CatalogueFault>
    requires none { vec_len operations.old ≡ 0 }
    requires room { 64 ≤ vec_capacity operations.old }
    requires few { frame.operations ≤ 64 }
    requires near { frame.operations_at ≤ 40000 }
    ensures { OperationsSay reader.entry frame operations.new.items result }
{
    let mut at = frame.operations_at;
    for k in 0..frame.operations {
        let operation = reader.read(at).ok_or(CatalogueFault::Operation(k))?;
        at += 6 + 3 * entries(reader.file, at);
        operations.push_reserved(operation);
    }
    Ok(())
}

// 1 to 128 ids, 1 to 16 predicates, at most 64 operations.
fn counts_in_limits(frame: Frame) -> bool
    ensures { result ≡ sound_counts frame.ids frame.predicates frame.operations }
{
    (1..=MOST_IDS).contains(&frame.ids)
        && (1..=MOST_PREDICATES).contains(&frame.predicates)
        && frame.operations <= MOST_OPERATIONS
}

const MOST_IDS: u8 = 128;

// Reads the catalogue of a framed file: refused with 1 for its counts, predicates and names, then with 2 for an operation.
pub(crate) fn read_catalogue(
    file: FramedFile<'_>,
    room: CatalogueRoom,
) -> Result<Catalogue, CatalogueFault>
    ensures { CatalogueSays file.entry.bytes.now file.entry.frame result }
{
    let frame = file.frame;
    if !counts_in_limits(frame) {
        return Err(CatalogueFault::Shape);
    }
    let CatalogueRoom {
        mut predicates,
        mut operations,
    } = room;
    read_predicates(file.bytes, frame.predicates, &mut predicates)?;
    let reader = OperationReader {
        file: file.bytes,
        ids: frame.ids,
        predicates: &predicates,
    };
    read_operations(reader, frame, &mut operations)?;
    Ok(Catalogue {
        ids: frame.ids,
        predicates,
        operations,
    })
}
