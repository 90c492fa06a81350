//! Texts.
ghost use Rattle.std.specs.Prelude.{◌≡◌, ◌≤◌, ◌++◌, [], IfErr, IfOk, IfSome, OnOk, OnErr};
ghost use Rattle.std.specs.Prelude.{length, encode_utf8_all, string_bytes};
ghost use Rattle.std.specs.Bool.{OnFalse};
ghost use Rattle.std.specs.Str.{chars};
ghost use Rattle.osm_model.specs.Escape.{escape, IsPlain};
ghost use Rattle.osm_model.specs.Storage.{bytes_of, is_heap};
ghost use Rattle.osm_model.specs.Text.{is_text, is_empty};

use crate::Memory;
use crate::escape::raw_length;
use crate::plain::{INLINE_TEXT_BYTES, PlainString};
use crate::same::Same;
use arrayvec::ArrayString;
use std::alloc::Global;
use std::marker::Model;
use std::mem;

/// A text, which contracts see as the list of its characters. The value itself holds the bytes of a short text.
#[derive(Debug, Drop)]
pub struct Text {
    storage: Storage,
}

/// The storage of the bytes of a text.
#[derive(Debug, Drop)]
enum Storage {
    /// In the value itself; each character is written as itself in a line.
    InlineRaw(PlainString),
    /// In the value itself; it isn't known whether each character is written as itself.
    Inline(ArrayString<INLINE_TEXT_BYTES>),
    /// In memory of their own.
    Heap(String),
}

impl Storage {
    #[inline(always)]
    fn as_str(&self) -> &str
        ensures bytes { result.now ≡ bytes_of self.now }
        ensures short { OnFalse (is_heap self.now) (length result.now ≤ 24) }
    {
        match self {
            Storage::InlineRaw(plain) => plain.as_str(),
            Storage::Inline(string) => string.as_str(),
            Storage::Heap(string) => string.as_str(),
        }
    }

    /// A copy, which holds equal bytes.
    #[inline(always)]
    fn copy(&self) -> Result<Storage, Memory>
        ensures { IfOk result (λ p. bytes_of p ≡ bytes_of self.now) }
    {
        match self {
            Storage::InlineRaw(plain) => Ok(Storage::InlineRaw(*plain)),
            Storage::Inline(string) => Ok(Storage::Inline(*string)),
            Storage::Heap(string) => Ok(Storage::Heap(copy_heap(string)?)),
        }
    }

    /// Appends characters. After an error nothing has changed.
    fn push_str(&mut self, alloc: Global, characters: &str) -> Result<(), Memory>
        ensures appended { OnOk result (chars (bytes_of self.new) ≡ chars (bytes_of self.old) ++ chars characters.now) }
        ensures kept { OnErr result (bytes_of self.new ≡ bytes_of self.old) }
    {
        match self {
            Storage::InlineRaw(plain) => {
                let text = plain.as_str();
                let mut string = plain.string();
                if string.try_push_str(characters).is_ok() {
                    *self = Storage::Inline(string);
                } else {
                    *self = Storage::Heap(concat(alloc, text, characters)?);
                }
                Ok(())
            }
            Storage::Inline(string) => {
                let within = string.as_str();
                if within.len() + characters.len() <= INLINE_TEXT_BYTES {
                    string.push_str(characters);
                } else {
                    *self = Storage::Heap(concat(alloc, within, characters)?);
                }
                Ok(())
            }
            Storage::Heap(string) => Ok(string.push_str(characters)?),
        }
    }
}

/// `characters` and then `more`, in memory of their own.
fn concat(alloc: Global, characters: &str, more: &str) -> Result<String, Memory>
    ensures { IfOk result (λ s. string_bytes s ≡ characters.now ++ more.now) }
{
    let mut string = String::with_capacity(alloc, characters.len() + more.len())?;
    string.push_str(characters)?;
    string.push_str(more)?;
    Ok(string)
}

/// A copy of bytes in memory of their own. It isn't inlined, to keep the code that copies short texts small.
#[inline(never)]
fn copy_heap(string: &String) -> Result<String, Memory>
    ensures { IfOk result (λ copy. string_bytes copy ≡ string_bytes string.now) }
{
    Ok(string.clone()?)
}

impl Model for Text {
    ghost use Rattle.std.specs.Prelude.{List, ℕ};
    ghost use Rattle.std.specs.Str.{chars};
    ghost use Rattle.osm_model.specs.Storage.{bytes_of};

    ghost Value = { List ℕ };

    ghost view = { λ t. chars (bytes_of t.storage) };
}

impl Text {
    /// The empty text.
    pub fn new() -> Text
        ensures { result ≡ [] }
    {
        Text {
            storage: Storage::Inline(ArrayString::new()),
        }
    }

    /// The text of some characters, which are copied. A text of at most 24 bytes takes no memory.
    ///
    /// # Errors
    ///
    /// Only out of memory.
    pub fn from_str(alloc: Global, characters: &str) -> Result<Text, Memory>
        ensures bytes { IfOk result (λ t. encode_utf8_all t ≡ characters.now) }
        ensures characters { IfOk result (λ t. t ≡ chars characters.now) }
    {
        match ArrayString::from(characters) {
            Ok(string) => Ok(Text {
                storage: Storage::Inline(string),
            }),
            Err(_) => Text::from_long_str(alloc, characters),
        }
    }

    /// The text of some characters, as [`Text::from_str`] makes it. Each character has to be one that a line has as
    /// itself. A text of at most 24 bytes is marked as plain: it, and each copy of it, is written without a test.
    ///
    /// # Errors
    ///
    /// Only out of memory.
    #[inline(always)]
    pub fn from_raw(alloc: Global, characters: &str) -> Result<Text, Memory>
        requires { IsPlain characters.now }
        ensures bytes { IfOk result (λ t. encode_utf8_all t ≡ characters.now) }
        ensures characters { IfOk result (λ t. t ≡ chars characters.now) }
    {
        match ArrayString::from(characters) {
            Ok(string) => Ok(Text {
                storage: Storage::InlineRaw(PlainString::new(string)),
            }),
            Err(_) => Text::from_long_str(alloc, characters),
        }
    }

    /// The text of some characters, as [`Text::from_str`] makes it. A text of at most 24 bytes is marked as plain if a
    /// line has each of its characters as itself.
    ///
    /// # Errors
    ///
    /// Only out of memory.
    pub fn from_tested_str(alloc: Global, characters: &str) -> Result<Text, Memory>
        ensures bytes { IfOk result (λ t. encode_utf8_all t ≡ characters.now) }
        ensures characters { IfOk result (λ t. t ≡ chars characters.now) }
    {
        if characters.len() <= INLINE_TEXT_BYTES && raw_length(characters) == characters.len() {
            Text::from_raw(alloc, characters)
        } else {
            Text::from_str(alloc, characters)
        }
    }

    /// The text of some characters, in memory of its own.
    fn from_long_str(alloc: Global, characters: &str) -> Result<Text, Memory>
        ensures bytes { IfOk result (λ t. encode_utf8_all t ≡ characters.now) }
        ensures characters { IfOk result (λ t. t ≡ chars characters.now) }
    {
        Ok(Text::from_string(String::from_str(alloc, characters)?))
    }

    /// The text of a string. The string is moved, not copied.
    pub fn from_string(string: String) -> Text
        ensures bytes { encode_utf8_all result ≡ string_bytes string }
        ensures characters { result ≡ chars (string_bytes string) }
    {
        Text {
            storage: Storage::Heap(string),
        }
    }

    /// The string of the text, if it has one. The string is moved, so no memory is taken. A text has a string if
    /// [`Text::from_string`] made it, or if it has more than 24 bytes.
    ///
    /// # Errors
    ///
    /// The text itself, if the value itself holds its bytes. The text then has at most 24 bytes.
    pub fn try_into_string(self) -> Result<String, Text>
        ensures bytes { IfOk result (λ s. string_bytes s ≡ encode_utf8_all self) }
        ensures text { IfErr result (λ t. t ≡ self) }
        ensures short { OnErr result (length (encode_utf8_all self) ≤ 24) }
    {
        let _bytes = self.storage.as_str();
        match self.storage {
            Storage::Heap(string) => Ok(string),
            storage => Err(Text { storage }),
        }
    }

    /// Appends characters, which are copied. After an error the text is unchanged.
    ///
    /// # Errors
    ///
    /// Only out of memory.
    pub fn push_str(&mut self, alloc: Global, characters: &str) -> Result<(), Memory>
        ensures appended { OnOk result (self.new ≡ self.old ++ chars characters.now) }
        ensures kept { OnErr result (self.new ≡ self.old) }
    {
        self.storage.push_str(alloc, characters)
    }

    /// The bytes of the text in a line, if it is known to be plain.
    #[inline(always)]
    pub(crate) fn plain(&self) -> Option<&[u8]>
        ensures { IfSome result (λ bytes. bytes.now ≡ escape self.now) }
    {
        match &self.storage {
            Storage::InlineRaw(plain) => Some(plain.as_str().as_bytes()),
            _ => None,
        }
    }

    /// The characters, without a copy.
    #[inline(always)]
    pub fn as_str(&self) -> &str
        ensures bytes { result.now ≡ encode_utf8_all self.now }
        ensures characters { chars result.now ≡ self.now }
    {
        self.storage.as_str()
    }

    /// An equal text. The copy allocates only if this text has memory of its own.
    ///
    /// # Errors
    ///
    /// Only out of memory.
    #[inline(always)]
    pub fn copy(&self) -> Result<Text, Memory>
        ensures { IfOk result (λ t. t ≡ self.now) }
    {
        Ok(Text {
            storage: self.storage.copy()?,
        })
    }

    /// Replaces the text. This is the assignment `*self = text`, but faster if the old text holds no memory of its own.
    #[inline(always)]
    pub fn overwrite(&mut self, text: Text)
        ensures { self.new ≡ text }
    {
        if self.has_memory() {
            self.release();
        }
        // The old text holds no memory here, so it is forgotten and not dropped.
        mem::forget(mem::replace(self, text));
    }

    /// Drops the characters and their memory.
    #[inline(never)]
    pub(crate) fn release(&mut self)
        ensures { self.new ≡ [] }
    {
        *self = Text::new();
    }

    /// Replaces the text `target` by a copy of this text, as [`Text::overwrite`] does.
    ///
    /// # Errors
    ///
    /// Only out of memory.
    #[inline(always)]
    pub fn copy_into(&self, target: &mut Text) -> Result<(), Memory>
        ensures { OnOk result (target.new ≡ self.now) }
    {
        match (&self.storage, &mut target.storage) {
            (Storage::InlineRaw(plain), Storage::InlineRaw(own)) => {
                *own = *plain;
                Ok(())
            }
            (Storage::Inline(string), Storage::Inline(own)) => {
                *own = *string;
                Ok(())
            }
            _ => self.overwrite_with_copy(target),
        }
    }

    /// Replaces the text `target` by a new copy. [`Text::copy_into`] calls it unless the value itself holds the bytes
    /// of both texts, in the same form.
    #[inline(never)]
    fn overwrite_with_copy(&self, target: &mut Text) -> Result<(), Memory>
        ensures { OnOk result (target.new ≡ self.now) }
    {
        target.overwrite(self.copy()?);
        Ok(())
    }

    /// Whether the text may hold memory of its own.
    #[inline(always)]
    pub(crate) fn has_memory(&self) -> bool
        ensures { OnFalse result (length (encode_utf8_all self.now) ≤ 24) }
    {
        let _bytes = self.storage.as_str();
        matches!(self.storage, Storage::Heap(_))
    }

    /// Whether the text has no character.
    pub fn is_empty(&self) -> bool
        ensures { result ≡ is_empty self.now }
    {
        self.as_str().is_empty()
    }

    /// Whether the text holds no character U+0000.
    pub(crate) fn is_text(&self) -> bool
        ensures { result ≡ is_text self.now }
    {
        !self.as_str().as_bytes().contains(&0)
    }
}

impl Same for Text {
    fn is_same(&self, other: &Text) -> bool {
        self.as_str() == other.as_str()
    }
}

#[cfg(test)]
mod tests;
