ghost use Rattle.std.specs.Prelude.{◌≡◌, [], ◌∷◌, ◌++◌, IfOk, OnOk, OnErr};

use crate::ids::LabelId;
use std::alloc::{AllocError, Global};
use std::marker::Model;

/// What can be copied whole; the copy may want memory.
pub trait Duplicate {
    /// The same value again.
    fn copy(&self) -> Result<Self, AllocError>
        ensures { IfOk result (λ x. x ≡ self.now) };
}

impl Duplicate for u8 {
    fn copy(&self) -> Result<u8, AllocError> {
        Ok(*self)
    }
}

/// A growing list: a `Vec` that contracts see as the list of its items.
#[derive(Drop)]
pub struct Sequence<T> {
    list: Vec<T>,
}

impl<T> Model for Sequence<T> {
    ghost use Rattle.std.specs.Prelude.{List};
    ghost use Rattle.std.specs.Coded.{coded_list};

    ghost Value = { List T };

    ghost coded = { coded_list T.code };

    ghost view = { λ s. s.list.items };
}

impl<T> Sequence<T> {
    /// No items.
    pub fn new(alloc: Global) -> Sequence<T>
        ensures { result ≡ [] }
    {
        Sequence {
            list: Vec::new(alloc),
        }
    }

    /// The items of a `Vec`; takes no memory.
    pub fn from_vec(list: Vec<T>) -> Sequence<T>
        ensures { result ≡ list.items }
    {
        Sequence { list }
    }

    /// The items as a `Vec`; takes no memory.
    pub fn into_vec(self) -> Vec<T>
        ensures { result.items ≡ self }
    {
        let Sequence { list } = self;
        list
    }

    /// The items, in order.
    pub fn items(&self) -> &[T]
        ensures { result.now ≡ self.now }
    {
        self.list.as_slice()
    }
}

impl<T: Drop> Sequence<T> {
    /// Puts an item last; on want of memory the list is as before.
    pub fn push(&mut self, item: T) -> Result<(), AllocError>
        ensures ok { OnOk result (self.new ≡ self.old ++ item ∷ []) }
        ensures err { OnErr result (self.new ≡ self.old) }
    {
        self.list.push(item)?;
        Ok(())
    }

    /// Takes the memory for so many more items. The list is as before.
    pub fn reserve(&mut self, more: usize) -> Result<(), AllocError>
        ensures { self.new ≡ self.old }
    {
        self.list.reserve(more)?;
        Ok(())
    }
}

impl<T: Copy> Sequence<T> {
    /// A list of copies of these items.
    pub fn from_slice(alloc: Global, items: &[T]) -> Result<Sequence<T>, AllocError>
        ensures { IfOk result (λ s. s ≡ items.now) }
    {
        let list = Vec::from_slice(alloc, items)?;
        Ok(Sequence { list })
    }
}

impl<T: Duplicate + Drop> Duplicate for Sequence<T> {
    fn copy(&self) -> Result<Sequence<T>, AllocError> {
        let mut list = Vec::with_capacity(*self.list.allocator(), self.list.len())?;
        for item in self.list.iter() {
            list.push(item.copy()?)?;
        }
        Ok(Sequence { list })
    }
}

/// A list of bytes.
pub type Bytes = Sequence<u8>;

/// A list of label ids.
pub type Ids = Sequence<LabelId>;

/// A list of names, each a list of bytes.
pub type NameList = Sequence<Bytes>;
