//! The documents of a save, put in one after another.
ghost use Rattle.std.specs.Prelude.{◌≡◌, ◌+◌, ◌∷◌, [], true, false, length, take, IfErr, IfOk, OnOk, OnErr, Ok};
ghost use Rattle.std.specs.List.{AllByRecursion};
ghost use Rattle.attr_saver.specs.Fields.{read_of};
ghost use Rattle.attr_saver.specs.Lawful.{IsLawfulSaved};
ghost use Rattle.attr_types.specs.Lawful.{OpFits};
ghost use Rattle.attr_types.specs.Table.{after_op};
ghost use Rattle.attr_c.specs.Feeding.{Stays};
ghost use Rattle.attribute_kinds.specs.Calls.{KeepsStore};
ghost use Rattle.attr_c.specs.Applying.{Applies};
ghost use Rattle.attr_c.specs.Stops.{StopsOperation};
ghost use Rattle.attr_c.specs.Telling.{with_place};
ghost use Rattle.attr_c.specs.Loading.{put_of, puts_of, IsNextPut, IsSaveOf, PutsFront, PutsIn, RefusesSave, TellsPlaceOf};
ghost use Rattle.attr_c.specs.Loading.{AreAllOf, AreFirstOf, ArePuts, IsNextLoaded, LoadsFront, LoadsSave, StopsLoad};

use crate::feeding::apply;
use crate::state::Open;
use crate::stop::Stop;
use crate::told::Told;
use attr_io::SliceSource;
use attr_saver::{LoadError, Saved, SavedDocument, read_saved};
use attr_types::{Field, FieldItems, Fields, Op};
use image_format::AttrLayout;
use std::alloc::{AllocError, Global};
use store_api::Store;

/// Whether a save is of an attribute.
fn is_of(field: &Field, saved: &Saved) -> bool
    ensures kind { result ≡ true → saved.now.kind ≡ field.now.kind }
    ensures value { result ≡ true → saved.now.value ≡ field.now.value }
    ensures no { result ≡ false → saved.now.kind ≡ field.now.kind → saved.now.value ≡ field.now.value → ⊥ }
{
    field.kind == saved.kind && field.value == saved.value
}

fn is_of_fields(fields: &Fields, saved: &Saved) -> bool
    ensures yes { result ≡ true → IsSaveOf fields.now saved.now }
    ensures no { result ≡ false → IsSaveOf fields.now saved.now → ⊥ }
{
    match fields.as_slice() {
        [field] => is_of(field, saved),
        _ => false,
    }
}

fn op_of(alloc: Global, document: SavedDocument) -> Result<Op, AllocError>
    ensures { IfOk result (λ op. op ≡ put_of document) }
{
    let SavedDocument { doc, items } = document;
    let items = FieldItems::of_one(alloc, items)?;
    Ok(Op::Put { doc, items })
}

/// Puts a document in.
fn put_document<const OFFSET_BITS: u32, S: Store<OFFSET_BITS, Layout = AttrLayout>>(
    alloc: Global,
    inner: &mut Open<OFFSET_BITS, S>,
    document: SavedDocument,
) -> Result<(), Stop>
    requires { OpFits inner.old.fields (put_of document) }
    ensures table { OnOk result (inner.new.attribute.table ≡ after_op inner.old.fields inner.old.attribute.table (put_of document)) }
    ensures operations { OnOk result (inner.new.attribute.operations ≡ inner.old.attribute.operations + 1) }
    ensures left { OnErr result (Stays inner.old.attribute.table inner.new.attribute.table
        inner.old.attribute.operations inner.new.attribute.operations) }
    ensures why { IfErr result (StopsOperation S.ledger S.records (λ ops. ops ≡ []) (λ next. next ≡ put_of document)
        inner.old.attribute inner.new.attribute) }
    ensures done { OnOk result (Applies S.ledger (λ ops. ops ≡ put_of document ∷ []) inner.old.attribute inner.new.attribute) }
    ensures pool { inner.new.pool ≡ inner.old.pool }
    ensures counts { inner.new.counts ≡ inner.old.counts }
    ensures commit { Stays inner.old.attribute.committed inner.new.attribute.committed
        inner.old.attribute.committed_operations inner.new.attribute.committed_operations }
    ensures fields { inner.new.fields ≡ inner.old.fields }
    ensures keeps { KeepsStore (S.ledger inner.old.attribute.store) (S.ledger inner.new.attribute.store) }
    ensures dense { inner.new.attribute.dense ≡ inner.old.attribute.dense }
    ensures plan { inner.new.attribute.plan ≡ inner.old.attribute.plan }
{
    match op_of(alloc, document) {
        Ok(op) => match apply(alloc, inner, &op) {
            Ok(_) => Ok(()),
            Err(stop) => Err(stop),
        },
        Err(_) => Err(Stop::Memory),
    }
}

/// Puts the documents of a save in, up to one that is refused.
fn put_all<const OFFSET_BITS: u32, S: Store<OFFSET_BITS, Layout = AttrLayout>>(
    alloc: Global,
    inner: &mut Open<OFFSET_BITS, S>,
    documents: Vec<SavedDocument>,
) -> Result<(), Stop>
    requires { AllByRecursion (λ d. OpFits inner.old.fields (put_of d)) documents.items }
    ensures whole { OnOk result (PutsIn inner.old.fields documents.items inner.old.attribute.table inner.new.attribute.table
        inner.old.attribute.operations inner.new.attribute.operations) }
    ensures front { OnErr result (PutsFront inner.old.fields documents.items inner.old.attribute.table inner.new.attribute.table
        inner.old.attribute.operations inner.new.attribute.operations) }
    ensures why { IfErr result (StopsOperation S.ledger S.records
        (ArePuts (λ front. front ≡ take (length front) documents.items))
        (IsNextPut documents.items inner.old.attribute.operations inner.new.attribute.operations)
        inner.old.attribute inner.new.attribute) }
    ensures done { OnOk result (Applies S.ledger (λ ops. ops ≡ puts_of documents.items) inner.old.attribute inner.new.attribute) }
    ensures pool { inner.new.pool ≡ inner.old.pool }
    ensures counts { inner.new.counts ≡ inner.old.counts }
    ensures commit { Stays inner.old.attribute.committed inner.new.attribute.committed
        inner.old.attribute.committed_operations inner.new.attribute.committed_operations }
    ensures fields { inner.new.fields ≡ inner.old.fields }
    ensures dense { inner.new.attribute.dense ≡ inner.old.attribute.dense }
    ensures plan { inner.new.attribute.plan ≡ inner.old.attribute.plan }
    ensures keeps { KeepsStore (S.ledger inner.old.attribute.store) (S.ledger inner.new.attribute.store) }
{
    for document in documents {
        match put_document(alloc, inner, document) {
            Ok(()) => (),
            Err(stop) => return Err(stop),
        }
    }
    Ok(())
}

/// What bytes tell as a save.
fn saved_in(alloc: Global, bytes: &[u8], told: &mut Told) -> Result<Saved, Stop>
    ensures saved { IfOk result (λ saved. read_of bytes.now ≡ Ok saved) }
    ensures lawful { IfOk result IsLawfulSaved }
    ensures why { IfErr result (RefusesSave bytes.now told.new.place) }
    ensures tells { OnOk result (told.new ≡ told.old) }
    ensures tells_place { told.new ≡ with_place told.new told.old }
    ensures place { IfErr result (TellsPlaceOf told.old told.new) }
{
    match read_saved(alloc, &mut SliceSource::new(bytes)) {
        Ok(saved) => Ok(saved),
        Err(LoadError::BadForm { place }) => {
            told.place = place;
            Err(Stop::Save)
        }
        Err(LoadError::ReadFault) => Err(Stop::Save),
        Err(LoadError::Memory) => Err(Stop::Memory),
    }
}

/// Puts the documents of a save in. The save is of the one attribute that there is.
pub fn load<const OFFSET_BITS: u32, S: Store<OFFSET_BITS, Layout = AttrLayout>>(
    alloc: Global,
    inner: &mut Open<OFFSET_BITS, S>,
    bytes: &[u8],
    told: &mut Told,
) -> Result<(), Stop>
    ensures whole { OnOk result (LoadsSave inner.old.fields bytes.now inner.old.attribute.table inner.new.attribute.table
        inner.old.attribute.operations inner.new.attribute.operations) }
    ensures front { OnErr result (LoadsFront inner.old.fields bytes.now inner.old.attribute.table inner.new.attribute.table
        inner.old.attribute.operations inner.new.attribute.operations) }
    ensures why { IfErr result (StopsLoad inner.old.fields bytes.now told.new.place
        (Applies S.ledger (ArePuts (AreFirstOf inner.old.fields bytes.now)) inner.old.attribute inner.new.attribute)
        (StopsOperation S.ledger S.records (ArePuts (AreFirstOf inner.old.fields bytes.now))
        (IsNextLoaded bytes.now inner.old.attribute.operations inner.new.attribute.operations)
        inner.old.attribute inner.new.attribute)) }
    ensures done { OnOk result (Applies S.ledger (ArePuts (AreAllOf bytes.now)) inner.old.attribute inner.new.attribute) }
    ensures pool { inner.new.pool ≡ inner.old.pool }
    ensures counts { inner.new.counts ≡ inner.old.counts }
    ensures tells { OnOk result (told.new ≡ told.old) }
    ensures tells_place { told.new ≡ with_place told.new told.old }
    ensures place { IfErr result (TellsPlaceOf told.old told.new) }
    ensures commit { Stays inner.old.attribute.committed inner.new.attribute.committed
        inner.old.attribute.committed_operations inner.new.attribute.committed_operations }
    ensures fields { inner.new.fields ≡ inner.old.fields }
    ensures dense { inner.new.attribute.dense ≡ inner.old.attribute.dense }
    ensures plan { inner.new.attribute.plan ≡ inner.old.attribute.plan }
    ensures keeps { KeepsStore (S.ledger inner.old.attribute.store) (S.ledger inner.new.attribute.store) }
{
    let saved = match saved_in(alloc, bytes, told) {
        Ok(saved) => saved,
        Err(stop) => return Err(stop),
    };
    if !is_of_fields(&inner.fields, &saved) {
        return Err(Stop::Other);
    }
    put_all(alloc, inner, saved.table.into_vec())
}
