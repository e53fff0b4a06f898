ghost use Rattle.std.specs.Prelude.{◌≡◌, ℕ, ◌<◌, ◌≤◌, ◌↔◌, false, length, slice_index_or, map, [], Some, IfOk, IfSome, OnOk, OnErr};
ghost use Rattle.std.specs.Bool.{OnTrue};
ghost use Rattle.text_spec.specs.Names.{predefined, place_of, has_name, with_name, id_of, IsLabelTable};

use crate::guesses::Guesses;
use indexmap::IndexSet;
use smack_base::{Duplicate, Label, LabelId};
use std::alloc::{AllocError, Global};
use std::marker::Model;

/// Why a label got no id.
#[derive(Clone, Copy, Debug, PartialEq, Eq)]
pub enum LabelsFault {
    /// The label is new, and 65,535 labels stand.
    TooMany,
    /// There is no memory for it.
    Memory,
}

/// The labels of a run by id: distinct labels, the predefined ones first.
#[derive(Drop)]
pub struct Labels {
    texts: IndexSet<Vec<u8>>,
    guesses: Guesses,
}

impl Model for Labels {
    ghost use Rattle.std.specs.Prelude.{List, ℕ, map, length, ◌≤◌};
    ghost use Rattle.text_spec.specs.Names.{IsLabelTable};

    ghost Value = { List (List ℕ) };

    ghost view = { λ l. map (λ t. t.items) l.texts.keys };

    ghost invariant = { λ l. (length (map (λ t. t.items) l.texts.keys) ≤ 65535)
        × IsLabelTable (map (λ t. t.items) l.texts.keys) };
}

/// Puts a text last, unless it is there.
fn put(texts: &mut IndexSet<Vec<u8>>, text: &[u8]) -> Result<(), AllocError>
    ensures ok { OnOk result
        (map (λ t. t.items) texts.new.keys ≡ with_name (map (λ t. t.items) texts.old.keys) text.now) }
    ensures err { OnErr result (texts.new.keys ≡ texts.old.keys) }
{
    let text = Vec::from_slice(*texts.allocator(), text)?;
    texts.insert(text)?;
    Ok(())
}

impl Labels {
    /// How many labels a table has at most.
    pub const LIMIT: usize = 65_535;

    /// The predefined labels: `_`, `^`, `*`, `?` and `@`, in this order.
    pub fn new(alloc: Global) -> Result<Labels, AllocError>
        ensures { IfOk result (λ l. l ≡ predefined) }
    {
        let mut texts = IndexSet::new(alloc);
        put(&mut texts, b"_")?;
        put(&mut texts, b"^")?;
        put(&mut texts, b"*")?;
        put(&mut texts, b"?")?;
        put(&mut texts, b"@")?;
        let guesses = Guesses::new(alloc)?;
        Ok(Labels { texts, guesses })
    }

    /// The id of a label: the one that it has, or the next. Ids that were given before stay.
    ///
    /// `TooMany` comes exactly where the label is new and 65,535 labels stand. On an error the table
    /// is as before, and the label is new.
    pub fn add(&mut self, label: &Label) -> Result<LabelId, LabelsFault>
        ensures table { IfOk result (λ id. (self.new ≡ with_name self.old label.now)
            × (id.0 ≡ place_of self.new label.now)) }
        ensures named { IfOk result (λ id. (id.0 < length self.new)
            × (slice_index_or self.new id.0 [] ≡ label.now)) }
        ensures limit { IfOk result (λ _. length self.new ≤ 65535) }
        ensures too_many { (result ≡ Err LabelsFault.TooMany)
            ↔ ((has_name self.old label.now ≡ false) × (length self.old ≡ 65535)) }
        ensures err { OnErr result (self.new ≡ self.old) }
        ensures only_new { OnErr result (has_name self.old label.now ≡ false) }
        ensures kept { (id : ℕ) → id < length self.old
            → (id < length self.new) × (slice_index_or self.new id [] ≡ slice_index_or self.old id []) }
    {
        if let Some(id) = self.id(label.bytes()) {
            return Ok(id);
        }
        let place = self.texts.len();
        if place == Labels::LIMIT {
            return Err(LabelsFault::TooMany);
        }
        let Ok(()) = put(&mut self.texts, label.bytes()) else {
            return Err(LabelsFault::Memory);
        };
        self.guesses.note(label.bytes(), LabelId(place as u16));
        Ok(LabelId(place as u16))
    }

    /// The id of a label text; `None` exactly where it is not in the table. Takes no memory.
    pub fn id(&self, bytes: &[u8]) -> Option<LabelId>
        ensures id { result ≡ id_of self.now bytes.now }
        ensures named { IfSome result (λ id. (id.0 < length self.now)
            × (slice_index_or self.now id.0 [] ≡ bytes.now)) }
    {
        let id = self.guesses.guess(bytes);
        if self.is_named(id, bytes) {
            Some(id)
        } else {
            self.find(bytes)
        }
    }

    /// Whether the label with this id is there, and has this text.
    fn is_named(&self, id: LabelId, bytes: &[u8]) -> bool
        ensures id { OnTrue result (id_of self.now bytes.now ≡ Some id) }
        ensures named { OnTrue result ((id.0 < length self.now)
            × (slice_index_or self.now id.0 [] ≡ bytes.now)) }
    {
        u32::from(id.0) < self.len() && self.name(id) == bytes
    }

    /// The id of a label text, looked up by its hash.
    fn find(&self, bytes: &[u8]) -> Option<LabelId>
        ensures id { result ≡ id_of self.now bytes.now }
        ensures named { IfSome result (λ id. (id.0 < length self.now)
            × (slice_index_or self.now id.0 [] ≡ bytes.now)) }
    {
        match self.texts.get_index_of(bytes) {
            Some(place) => Some(LabelId(place as u16)),
            None => None,
        }
    }

    /// The text of the label with this id.
    pub fn name(&self, id: LabelId) -> &[u8]
        requires { id.0 < length self.now }
        ensures text { result.now ≡ slice_index_or self.now id.0 [] }
        ensures own { place_of self.now result.now ≡ id.0 }
    {
        self.texts.as_slice()[id.0 as usize].as_slice()
    }

    /// The text of the label with this id; no bytes where no label has it.
    pub fn name_or_empty(&self, id: LabelId) -> &[u8]
        ensures { result.now ≡ slice_index_or self.now id.0 [] }
    {
        if u32::from(id.0) < self.len() {
            self.name(id)
        } else {
            b""
        }
    }

    /// How many labels stand, from 5 to 65,535. What stands is a table of labels.
    pub fn len(&self) -> u32
        ensures len { result ≡ length self.now }
        ensures limit { result ≤ 65535 }
        ensures table { IsLabelTable self.now }
    {
        self.texts.len() as u32
    }
}

impl Duplicate for Labels {
    fn copy(&self) -> Result<Labels, AllocError> {
        let texts = self.texts.clone()?;
        let guesses = self.guesses.copy()?;
        Ok(Labels { texts, guesses })
    }
}
