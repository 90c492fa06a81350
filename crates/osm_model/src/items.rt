//! The lists of a body: tags, references and members.
ghost use Rattle.std.specs.Prelude.{◌≡◌, [], IfOk};
ghost use Rattle.std.specs.Bool.{OnFalse};

use crate::Memory;
use crate::same::{Same, are_same};
use std::marker::Model;

/// A tag, a reference or a member.
pub trait Item: Sized {
    /// An equal item, with copies of its texts.
    ///
    /// # Errors
    ///
    /// Only out of memory.
    fn copy(&self) -> Result<Self, Memory>
        ensures { IfOk result (λ item. item ≡ self.now) };
}

/// Items in some order, repeats included. Contracts see the list.
#[derive(Debug, Drop)]
pub struct ItemList<T> {
    pub(crate) vec: Vec<T>,
}

impl<T> Model for ItemList<T> {
    ghost use Rattle.std.specs.Prelude.{List};

    ghost Value = { List T };

    ghost view = { λ list. list.vec.items };
}

impl<T> ItemList<T> {
    /// The items of a vector. The vector is moved, not copied.
    pub fn from_vec(vec: Vec<T>) -> ItemList<T>
        ensures { result ≡ vec.items }
    {
        ItemList { vec }
    }

    /// The vector of the items in their present order. It is moved, not copied.
    pub fn into_vec(self) -> Vec<T>
        ensures { result.items ≡ self }
    {
        let ItemList { vec } = self;
        vec
    }

    /// The items in their present order, without a copy.
    pub fn as_slice(&self) -> &[T]
        ensures { result.now ≡ self.now }
    {
        &self.vec
    }

    /// Whether the list may hold memory.
    #[inline(always)]
    pub(crate) fn has_memory(&self) -> bool
        ensures { OnFalse result (self.now ≡ []) }
    {
        self.vec.capacity() > 0
    }
}

impl<T: Item + Drop> ItemList<T> {
    /// Equal items in a new vector.
    ///
    /// # Errors
    ///
    /// Only out of memory.
    pub fn copy(&self) -> Result<ItemList<T>, Memory>
        ensures { IfOk result (λ list. list ≡ self.now) }
    {
        let mut vec = Vec::new(*self.vec.allocator());
        for item in &self.vec {
            vec.push(item.copy()?)?;
        }
        Ok(ItemList { vec })
    }
}

impl<T: Same> Same for ItemList<T> {
    fn is_same(&self, other: &ItemList<T>) -> bool {
        are_same(&self.vec, &other.vec)
    }
}
